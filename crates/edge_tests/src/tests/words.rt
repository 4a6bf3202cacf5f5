// The words of a process: of arguments, the first of which is the program's name.

use market_edge::{EnvWords, MemoryWords, NoWords, words_of};
use std::env::{Env, FillError};
use std::test::Fail;

// Arguments of these bytes, and no variables.
#[derive(Drop)]
struct Arguments {
    all: [&'static [u8]; 3],
}

impl Env for Arguments {
    fn arg(&self, number: usize, room: &mut [u8]) -> Result<usize, FillError> {
        if number >= 3 {
            return Err(FillError::NotPresent);
        }
        let bytes = self.all[number];
        if bytes.len() > room.len() {
            return Err(FillError::TooLong);
        }
        room[..bytes.len()].copy_from_slice(bytes);
        Ok(bytes.len())
    }

    fn var(&self, _name: &str, _room: &mut [u8]) -> Result<usize, FillError> {
        Err(FillError::NotPresent)
    }

    fn var_at(&self, _number: usize, _room: &mut [u8]) -> Result<usize, FillError> {
        Err(FillError::NotPresent)
    }
}

const LONG: [u8; 300] = [b'x'; 300];

// The words are the arguments behind the first, whatever bytes that has. They are read whole, also
// where they are longer than the first room, or empty; one that is not UTF-8 is told.
#[test]
fn the_words_are_the_arguments_behind_the_name(rt: HostRuntime) -> Result<(), Fail> {
    let named = Arguments {
        all: [b"\xff", &LONG, b""],
    };
    let words = words_of(rt.alloc(), &EnvWords::new(&named)).expect(&rt, "text");
    assert_eq!(rt; words.len(), 2);
    assert_eq!(rt; words[0].as_bytes(), LONG.as_slice());
    assert_eq!(rt; words[1].as_str(), "");
    let spoilt = Arguments {
        all: [b"course-match", b"quote", b"\xc3("],
    };
    let none = words_of(rt.alloc(), &EnvWords::new(&spoilt));
    assert!(rt; matches!(none, Err(NoWords::NotText)));
    Ok(())
}

// Words in memory are had as they are.
#[test]
fn the_words_in_memory(rt: HostRuntime) -> Result<(), Fail> {
    let mut held = Vec::new(rt.alloc());
    held.push(b"run".to_vec(rt.alloc())?)?;
    held.push(LONG.to_vec(rt.alloc())?)?;
    let words = words_of(rt.alloc(), &MemoryWords::make(held)).expect(&rt, "text");
    assert_eq!(rt; words.len(), 2);
    assert_eq!(rt; words[0].as_str(), "run");
    assert_eq!(rt; words[1].as_bytes(), LONG.as_slice());
    Ok(())
}

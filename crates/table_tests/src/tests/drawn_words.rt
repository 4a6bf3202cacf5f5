use seed_words::{word, words};
use std::alloc::Global;
use std::process::Abort;
use std::test::Fail;

// The keystream of RFC 8439, appendix A.1, test vector 1: zero key, zero nonce, counter 0.
const FIRST: [u64; 4] = [
    0x903d_f1a0_ade0_b876,
    0x28bd_8653_e56a_5d40,
    0x1aed_8da0_b819_d2bd,
    0xc70d_778b_ccef_36a8,
];

#[test]
fn seed_0_draws_the_published_words(rt: HostRuntime) -> Result<(), Fail> {
    for (place, wanted) in FIRST.iter().enumerate() {
        assert_eq!(rt; word(0, 0, place as u64), *wanted);
    }
    let drawn = words(rt.alloc(), 0, 0, 4)?;
    assert_eq!(rt; drawn.as_slice(), FIRST.as_slice());
    Ok(())
}

// The first words of this stream end with the one at the last place, and are not those of that
// stream.
fn assert_apart(
    rt: &impl Abort,
    alloc: Global,
    (seed, stream): (u64, u64),
    other: (u64, u64),
) -> Result<(), Fail> {
    let drawn = words(alloc, seed, stream, 20)?;
    assert_eq!(rt; drawn.len(), 20);
    assert!(rt; drawn[19] == word(seed, stream, 19));
    assert!(rt; drawn[0] != word(other.0, other.1, 0));
    Ok(())
}

#[test]
fn streams_are_apart(rt: HostRuntime) -> Result<(), Fail> {
    assert_apart(&rt, rt.alloc(), (7, 1), (7, 2))?;
    assert_apart(&rt, rt.alloc(), (7, 1), (8, 1))
}

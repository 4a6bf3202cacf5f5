// The summary of a made market.
ghost use Rattle.std.specs.Prelude.{List, ℕ, [], IfOk};
ghost use Rattle.market_host.specs.{Endings.bytes_of, Works.Ends};
ghost use Rattle.market_words.specs.Forms.{HasForm};

use crate::Status;
use crate::ended::{Ended, Output};
use crate::line::no_prices;
use made_run::made_summary;
use market_edge::Gate;
use market_units::NoMemory;
use market_words::Form;
use published_market::PublishEnd;
use std::alloc::Global;
use std::sync::Wait;
use std::thread::Threads;

/// The numbers that the words of `make` say: a market is made of them.
#[derive(Clone, Copy)]
pub struct MakeNumbers {
    pub seed: u64,
    pub students: u16,
    pub sections: u16,
    pub accept: u64,
}

/// The summary of the market that `make` makes of these numbers and runs, or the least error where
/// no prices are found. It reads no input, so that nothing but memory can be wanted.
pub fn make<R: Threads + Wait + Sync>(
    rt: &R,
    alloc: Global,
    workers: u16,
    numbers: MakeNumbers,
    gate: &(dyn Gate + Sync),
) -> Result<Ended, NoMemory>
    requires { (words : List (List ℕ))
        × HasForm words (Form.Make workers numbers.seed numbers.students numbers.sections
        numbers.accept) }
    ensures { IfOk result
        (λ ended. Ends (Form.Make workers numbers.seed numbers.students numbers.sections
        numbers.accept) [] ended.status (bytes_of ended.output)) }
{
    let numbers = made_run::Numbers {
        seed: numbers.seed,
        students: numbers.students,
        sections: numbers.sections,
        accept: numbers.accept,
    };
    match made_summary(rt, alloc, workers, numbers, gate) {
        Ok(text) => Ok(Ended {
            status: Status::Done,
            output: Output::Text(text),
        }),
        Err(PublishEnd::NoPrices { least }) => Ok(Ended {
            status: Status::NoPrices { least },
            output: Output::Line(no_prices(least)),
        }),
        Err(PublishEnd::NoMemory) => Err(NoMemory),
    }
}

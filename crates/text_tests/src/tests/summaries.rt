// The summary of a market that was published: a worked example that was computed apart from this
// program.
ghost use Rattle.std.specs.Prelude.{◌≡◌};
ghost use Rattle.std.specs.Arc.{arc_value};
ghost use Rattle.preference_desk.specs.DeskView.{names_of};
ghost use Rattle.published_parts.specs.{Markets.names_in, Views.market_in};

use crate::tests::desks::{Said, two_students};
use demand_api::PlainDemands;
use market_run::summary_text;
use preference_desk::Desk;
use published_market::{Writers, are_sessions, crowd_after, publish};
use published_parts::Market;
use std::alloc::Global;
use std::process::Abort;
use std::sync::{Arc, Wait};
use std::thread::Threads;

/// The summary of the market of two students and two sections, which was computed apart from this
/// program.
pub const TWO_STUDENTS: &[u8] =
    b"students 2\nsections 2\ncommands 6\nerror 0\nturns 0\nrounds 0\npasses 1\nseats 2\nutility 182\nproof 17\n";

// The summary of the market after the desk's journal.
fn summary_of<R: Abort + Threads + Wait + Sync>(
    rt: &R,
    alloc: Global,
    market: &Market,
    desk: &Desk,
) -> Vec<u8>
    requires { names_of desk.now ≡ names_in (market_in market.now) }
{
    let journal = desk.journal();
    assert!(rt; are_sessions(journal));
    let crowd = crowd_after(alloc, market, desk).expect(rt, "memory");
    let crowd = Arc::new(alloc, crowd).expect(rt, "memory");
    let mut demands = PlainDemands::make(crowd.clone().expect(rt, "memory"));
    let published = publish(
        rt,
        alloc,
        Writers::of(1),
        market,
        journal,
        &crowd,
        &mut demands,
    )
    .expect(rt, "prices");
    summary_text(alloc, &crowd, &published).expect(rt, "memory")
}

#[test]
fn two_students_and_two_sections(rt: HostRuntime) {
    let Said {
        catalog,
        roll,
        settings,
        desk,
    } = &two_students(&rt, rt.alloc());
    let market = Market {
        catalog,
        roll,
        settings,
    };
    let text = summary_of(&rt, rt.alloc(), &market, desk);
    assert_eq!(rt; text.as_slice(), TWO_STUDENTS);
}

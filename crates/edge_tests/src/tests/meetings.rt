// A gate at which the other one never comes. It looks too often for a run in which each step is
// watched (`rt try --test`).
use market_edge::{Gate, MeetingGate, Stop};

#[test]
fn who_waits_alone_counts_a_miss(rt: HostRuntime) {
    let gate = MeetingGate::new();
    gate.pass(Stop::SessionCall(1));
    assert_eq!(rt; gate.first.counts(), (0, 1));
    assert_eq!(rt; gate.second.counts(), (0, 0));
    assert_eq!(rt; gate.missed(), 1);
}

// Two workers that meet in the elimination, where nothing was asked before, and in the search, where
// they were asked at the first prices: the stages ask both, and not the caller's thread alone.
use crate::tests::crowds::{Student, menu_of};
use crate::tests::searches::settings_of;
use demand_api::{Crowd, Demands};
use demand_workers::{Pool, PooledDemands};
use market_edge::{Gate, MeetingGate, Stop};
use market_units::Tokens;
use oversubscription_stage::settle;
use std::alloc::Global;
use std::process::Abort;
use std::sync::Arc;
use std::sync::atomic::{AtomicU64, Ordering};
use std::test::Fail;
use tabu_search::{SearchEnd, search};

// So many that in the search a round of half of them is worth the start of a thread.
const STUDENTS: u16 = 300;

// So many students are asked alone when it is shut, before workers meet at it: on each walk to the
// least price of a section the one who leaves.
const ALONE: u64 = 150;

/// Lets everything pass until it is shut, and those who are asked alone then; after them workers
/// meet at it.
#[derive(Drop)]
struct LaterGate {
    meeting: MeetingGate,
    shut: AtomicU64,
    alone: AtomicU64,
}

impl LaterGate {
    fn open() -> Self {
        LaterGate {
            meeting: MeetingGate::new(),
            shut: AtomicU64::new(0),
            alone: AtomicU64::new(0),
        }
    }

    fn shut(&self) {
        self.shut.store(1, Ordering::SeqCst);
    }
}

impl Gate for LaterGate {
    fn pass(&self, stop: Stop) {
        if self.shut.load(Ordering::SeqCst) == 0 {
            return;
        }
        if self.alone.load(Ordering::SeqCst) >= ALONE {
            self.meeting.pass(stop);
            return;
        }
        if let Stop::WorkerCall(_) = stop {
            self.alone.fetch_add(1, Ordering::SeqCst);
        }
    }
}

// Three hundred students with budgets from 100 on, each of whom wants one of so many sections, in
// turn.
fn students_of<R: Abort>(rt: &R, alloc: Global, sections: u16) -> Crowd {
    assert!(rt; sections > 0);
    let mut menus = Vec::new(alloc);
    let mut budgets = Vec::new(alloc);
    for student in 0..STUDENTS {
        let budget = 100 + u32::from(student);
        let wishes = [(student % sections, 0, 50)];
        let wants: Student = (budget, 1, &wishes, &[], &[0]);
        menus.push(menu_of(rt, alloc, &wants)).expect(rt, "memory");
        budgets.push(Tokens(budget)).expect(rt, "memory");
    }
    Crowd::of(menus, budgets, sections).expect(rt, "a crowd")
}

// Both workers posted, and each waited for the other.
fn assert_met<R: Abort>(rt: &R, gate: &MeetingGate) {
    let (_, of_first) = gate.first_worker.counts();
    let (_, of_second) = gate.second_worker.counts();
    assert!(rt; of_first > 0 && of_second > 0);
    assert_eq!(rt; gate.missed(), 0);
}

// One section of one seat: at most 150 take it at 250, at most 75 at 325, and so on: each price is
// taken by half of those who are too many, rounded down, beside the one.
#[test]
fn two_workers_meet_in_the_elimination(rt: HostRuntime) -> Result<(), Fail> {
    let alloc = rt.alloc();
    let crowd = students_of(&rt, alloc, 1);
    let prices = [Tokens(0)];
    assert!(rt; crowd.has_prices(&prices));
    let gate = MeetingGate::new();
    let crowd = Arc::new(alloc, crowd)?;
    let mut demands = PooledDemands::make(Pool::reserve(alloc, 2)?, crowd, &gate);
    let settled = settle(&rt, alloc, &mut demands, &[1], &prices)?;
    assert_eq!(rt; settled.prices.as_slice(), [Tokens(399)].as_slice());
    assert_eq!(rt; settled.rounds, 9);
    assert_met(&rt, &gate);
    Ok(())
}

// A hundred and fifty sections of one seat, each of which two students want, and one turn: it
// raises the price of the first section until one of its two leaves.
#[test]
fn two_workers_meet_in_the_search(rt: HostRuntime) -> Result<(), Fail> {
    let alloc = rt.alloc();
    let crowd = students_of(&rt, alloc, 150);
    let prices = vec![in alloc; Tokens(0); usize::from(crowd.sections)]?;
    let seats = vec![in alloc; 1u16; usize::from(crowd.sections)]?;
    assert!(rt; crowd.has_prices(&prices));
    let gate = LaterGate::open();
    let crowd = Arc::new(alloc, crowd)?;
    let mut demands = PooledDemands::make(Pool::reserve(alloc, 2)?, crowd, &gate);
    demands.bundles(&rt, alloc, &prices, &[])?;
    gate.shut();
    let settings = settings_of(&rt, alloc, [0, 0, 1, 5, 3], &[1]);
    let end = match search(&rt, alloc, &mut demands, &seats, &settings) {
        Ok(_) => None,
        Err(end) => Some(end),
    };
    assert_eq!(rt; end, Some(SearchEnd::NoPrices { least: 149 }));
    assert_met(&rt, &gate.meeting);
    Ok(())
}

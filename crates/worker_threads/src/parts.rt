// A slice in parts of consecutive places, one for each thread.
ghost use Rattle.std.specs.Prelude.{◌<◌, length};
ghost use Rattle.std.specs.Thread.{IsSync, IsSend};
ghost use Rattle.std.specs.Fork.{AcceptsAt, AcceptsEach, ChangesAt, ChangesEach};
ghost use Rattle.worker_threads.specs.Places.{AcceptsFrom, ChangesFrom};

use std::marker::{Send, Sync};
use std::thread::{Threads, join_mut};

// `std::thread::for_each_mut` promises the same, but starts its threads as a tree, two at one
// moment. With it, only three of four workers ran for two fifths of the time of a search; where
// the caller starts one after another, for at most a tenth.

/// Calls `f(i, &mut s[i])` at each place, in at most `threads` threads, the caller's among them.
/// Where a thread cannot be started, the caller does its work. The caller's stack grows with
/// `threads`: for each by two calls of this crate, and one of std between them.
pub fn for_each_mut<R: Threads + Sync, T: Send, F: Fn(usize, &mut T) + Sync>(
    rt: &R,
    s: &mut [T],
    threads: usize,
    f: &F,
)
    requires threads { 0 < threads }
    requires accepts { AcceptsEach F.Fn f.now s.old }
    ensures { ChangesEach F.Fn f.now s.old s.new }
{
    if s.is_empty() {
        return;
    }
    let size = s.len().div_ceil(threads);
    parts_from(rt, f, size, 0, s);
}

// `s` stands at place `base` of the whole slice. Each part of `size` places gets a new thread; the
// caller does the last part, which may be shorter.
#[cycle(parts)]
fn parts_from<R: Threads + Sync, T: Send, F: Fn(usize, &mut T) + Sync>(
    rt: &R,
    f: &F,
    size: usize,
    base: usize,
    s: &mut [T],
)
    requires size { 0 < size }
    requires accepts { AcceptsFrom (AcceptsAt F.Fn f.now) base s.old }
    ensures { ChangesFrom (ChangesAt F.Fn f.now) base s.old s.new }
{
    if s.len() <= size {
        in_turn(f, base, s);
        return;
    }
    let (part, others) = s.split_at_mut(size);
    part_and_others(rt, f, size, base, part, base + size, others);
}

// A new thread does the part, and this one starts the others. A separate function from
// `parts_from`, so that what the closures require is what this function is given.
#[cycle(parts)]
fn part_and_others<R: Threads + Sync, T: Send, F: Fn(usize, &mut T) + Sync>(
    rt: &R,
    f: &F,
    size: usize,
    base: usize,
    part: &mut [T],
    next: usize,
    others: &mut [T],
)
    requires size { 0 < size }
    requires part { AcceptsFrom (AcceptsAt F.Fn f.now) base part.old }
    requires others { AcceptsFrom (AcceptsAt F.Fn f.now) next others.old }
    ensures part { ChangesFrom (ChangesAt F.Fn f.now) base part.old part.new }
    ensures others { ChangesFrom (ChangesAt F.Fn f.now) next others.old others.new }
{
    let mut theirs = ||
        requires { IsSync F.row × IsSend T.row
            × AcceptsFrom (AcceptsAt F.Fn f.now) base part.now }
        ensures { ChangesFrom (ChangesAt F.Fn f.entry.now) base part.entry.now part.exit.now }
    { in_turn(f, base, part) };
    let mut ours = ||
        requires { IsSync R.row × IsSync F.row × IsSend T.row × (0 < size)
            × AcceptsFrom (AcceptsAt F.Fn f.now) next others.now }
        ensures { ChangesFrom (ChangesAt F.Fn f.entry.now) next others.entry.now others.exit.now }
    { parts_from(rt, f, size, next, others) };
    // The first closure runs in the new thread.
    join_mut(rt, &mut theirs, &mut ours);
}

// The work of one thread: each element of a part, in order.
fn in_turn<T, F: Fn(usize, &mut T)>(f: &F, base: usize, s: &mut [T])
    requires { AcceptsFrom (AcceptsAt F.Fn f.now) base s.old }
    ensures { ChangesFrom (ChangesAt F.Fn f.now) base s.old s.new }
{
    'places: for k in 0..s.len() {
        at_one(f, base + k, &mut s[k]);
    }
}

// A function of its own, so that the call in the loop has the conditions of one element.
fn at_one<T, F: Fn(usize, &mut T)>(f: &F, place: usize, it: &mut T)
    requires { AcceptsAt F.Fn f.now place it.old }
    ensures { ChangesAt F.Fn f.now place it.old it.new }
{
    f(place, it);
}

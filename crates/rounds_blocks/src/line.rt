//! Work in threads that one thread starts, one after the other.
ghost use Rattle.std.specs.Prelude.{◌≡◌, ◌<◌, ◌≤◌, ◌+◌, ◌^◌, length};
ghost use Rattle.std.specs.Fork.{AcceptsAt, ChangesAt, AcceptsEach, ChangesEach};
ghost use Rattle.rounds_blocks.specs.InLine.{AcceptsFrom, ChangesFrom};
ghost use denote.Param.Send.{IsSync, IsSend};

use std::marker::{Send, Sync};
use std::thread::{Threads, join_mut};

/// Calls `f` with a place and what stands there.
fn call<T, F: Fn(usize, &mut T)>(f: &F, place: usize, item: &mut T)
    requires { AcceptsAt F.Fn f.now place item.old }
    ensures { ChangesAt F.Fn f.now place item.old item.new }
{
    f(place, item);
}

/// Calls `f` at each place of `s`, which begins at a place of a whole, one after the other.
fn in_turn<T, F: Fn(usize, &mut T)>(f: &F, from: usize, s: &mut [T])
    requires room { from + length s.old < 2 ^ 64 }
    requires accepts { AcceptsFrom F.Fn f.now from s.old }
    ensures changes { ChangesFrom F.Fn f.now from s.old s.new }
{
    for k in 0..s.len() {
        call(f, from + k, &mut s[k]);
    }
}

/// How many of so many items the first of some threads takes.
pub fn part_of(items: usize, threads: usize) -> usize
    requires some { 0 < items }
    requires threads { 0 < threads }
    ensures some { 0 < result }
    ensures few { result ≤ items }
{
    (items / threads).max(1).min(items)
}

/// Calls `f` at each place of `s`, which begins at a place of a whole, in so many threads, of which this is one.
#[cycle(line)]
fn each_from<R: Threads + Sync, T: Send, F: Fn(usize, &mut T) + Sync>(
    rt: &R,
    f: &F,
    threads: usize,
    from: usize,
    s: &mut [T],
)
    requires room { from + length s.old < 2 ^ 64 }
    requires accepts { AcceptsFrom F.Fn f.now from s.old }
    ensures changes { ChangesFrom F.Fn f.now from s.old s.new }
{
    if threads < 2 || s.len() < 2 {
        in_turn(f, from, s);
        return;
    }
    let (front, others) = s.split_at_mut(part_of(s.len(), threads));
    beside(rt, f, threads - 1, from, front, others);
}

/// Calls `f` at the first places in a new thread, and at all others from this thread on.
#[cycle(line)]
fn beside<R: Threads + Sync, T: Send, F: Fn(usize, &mut T) + Sync>(
    rt: &R,
    f: &F,
    threads: usize,
    from: usize,
    front: &mut [T],
    others: &mut [T],
)
    requires room { from + length front.old + length others.old < 2 ^ 64 }
    requires front { AcceptsFrom F.Fn f.now from front.old }
    requires others { AcceptsFrom F.Fn f.now (from + length front.old) others.old }
    ensures front { ChangesFrom F.Fn f.now from front.old front.new }
    ensures others { ChangesFrom F.Fn f.now (from + length front.old) others.old others.new }
{
    let next = from + front.len();
    let mut in_thread = ||
        requires { IsSync F.row × IsSend T.row × (from + length front.now < 2 ^ 64) × AcceptsFrom F.Fn f.now from front.now }
        ensures { ChangesFrom F.Fn f.entry.now from front.entry.now front.exit.now }
    { in_turn(f, from, front) };
    let mut here = ||
        requires { IsSync R.row × IsSync F.row × IsSend T.row × (next + length others.now < 2 ^ 64) × AcceptsFrom F.Fn f.now next others.now }
        ensures { ChangesFrom F.Fn f.entry.now next others.entry.now others.exit.now }
    { each_from(rt, f, threads, next, others) };
    join_mut(rt, &mut in_thread, &mut here);
}

/// Calls `f` at each place of `s`, with the place, in so many threads, each of which takes about as many places that follow one
/// another. This thread is one of them, and starts all others, one after the other: where threads that are new themselves start others at
/// the same time, two of them are often given one processor, and one waits for it while another processor has nothing to do.
pub fn each_in_line<R: Threads + Sync, T: Send, F: Fn(usize, &mut T) + Sync>(
    rt: &R,
    s: &mut [T],
    threads: usize,
    f: &F,
)
    requires { AcceptsEach F.Fn f.now s.old }
    ensures { ChangesEach F.Fn f.now s.old s.new }
{
    each_from(rt, f, threads, 0, s);
}

//! Two calls beside each other.
ghost use Rattle.idx_live.specs.Pair.{MayRun, Runs};

use std::thread::{Threads, join_mut};

/// Calls the first in a thread of its own, or last where none can be had, and the second in this one. To each two
/// values are lent.
pub(crate) fn call_both<
    X: Send,
    Y: Send,
    Z: Send,
    W: Send,
    A: Send,
    C: Send,
    F: Fn(&mut X, &mut Y) -> A + Sync,
    S: Fn(&mut Z, &mut W) -> C + Sync,
    H: Threads + Sync,
>(rt: &H, first: &F, x: &mut X, y: &mut Y, second: &S, z: &mut Z, w: &mut W) -> (A, C)
    requires first { MayRun F.Fn first.now x.old y.old }
    requires second { MayRun S.Fn second.now z.old w.old }
    ensures first { Runs F.Fn first.now x.old x.new y.old y.new result.0 }
    ensures second { Runs S.Fn second.now z.old z.new w.old w.new result.1 }
{
    let mut front = || -> A
        requires { MayRun F.Fn first.now x.now y.now }
        ensures { Runs F.Fn first.entry.now x.entry.now x.exit.now y.entry.now y.exit.now result }
    { call(first, x, y) };
    let mut back = || -> C
        requires { MayRun S.Fn second.now z.now w.now }
        ensures { Runs S.Fn second.entry.now z.entry.now z.exit.now w.entry.now w.exit.now result }
    { call(second, z, w) };
    join_mut(rt, &mut front, &mut back)
}

/// A call to which two values are lent.
fn call<X, Y, A, F: Fn(&mut X, &mut Y) -> A>(f: &F, x: &mut X, y: &mut Y) -> A
    requires { MayRun F.Fn f.now x.old y.old }
    ensures { Runs F.Fn f.now x.old x.new y.old y.new result }
{
    f(x, y)
}

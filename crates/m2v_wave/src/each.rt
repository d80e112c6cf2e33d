// A call at each element of a list, each in a thread of its own where one can be started.
ghost use denote.Param.Send.{IsSync, IsSend};
ghost use Rattle.std.specs.Prelude.{◌≤◌, ◌<◌, length};
ghost use Rattle.m2v_wave.specs.Each.{MayTake, WasLeft, MayTakeEach, WereLeft};

use std::thread::{Threads, join_mut};

// Calls f at an element.
fn at_one<T, F: Fn(&mut T)>(f: &F, it: &mut T)
    requires { MayTake F.Fn f.now it.old }
    ensures { WasLeft F.Fn f.now it.new }
{
    f(it);
}

// Calls f at each element, one after another.
fn in_turn<T, F: Fn(&mut T)>(f: &F, s: &mut [T])
    requires { MayTakeEach F.Fn f.now s.old }
    ensures { WereLeft F.Fn f.now s.new }
{
    for k in 0..s.len() {
        at_one(f, &mut s[k]);
    }
}

// Calls f at some elements in a new thread, and does the others beside it.
#[cycle(each)]
fn first_beside<R: Threads + Sync, T: Send, F: Fn(&mut T) + Sync, G: FnMut() -> A, A>(
    rt: &R,
    f: &F,
    first: &mut [T],
    others: &mut [T],
    own: &mut G,
) -> A
    requires first { MayTakeEach F.Fn f.now first.old }
    requires others { MayTakeEach F.Fn f.now others.old }
    requires own { G.pre own.old }
    ensures first { WereLeft F.Fn f.now first.new }
    ensures others { WereLeft F.Fn f.now others.new }
    ensures own { G.step own.old result own.new }
{
    let mut one = ||
        requires { IsSync F.row × IsSend T.row × MayTakeEach F.Fn f.now first.now }
        ensures { WereLeft F.Fn f.entry.now first.exit.now }
    { in_turn(f, first) };
    let mut rest = || -> A
        requires { IsSync R.row × IsSync F.row × IsSend T.row × MayTakeEach F.Fn f.now others.now
            × G.pre own.now }
        ensures { WereLeft F.Fn f.entry.now others.exit.now
            × G.step own.entry.now result own.exit.now }
    { for_each(rt, f, others, own) };
    let (_, answer) = join_mut(rt, &mut one, &mut rest);
    answer
}

/// Calls f at each element, and `own` in this thread. This thread starts one for each element but the last, one behind
/// another, then calls `own`, and then f at the last element.
#[cycle(each)]
pub(crate) fn for_each<R: Threads + Sync, T: Send, F: Fn(&mut T) + Sync, G: FnMut() -> A, A>(
    rt: &R,
    f: &F,
    s: &mut [T],
    own: &mut G,
) -> A
    requires each { MayTakeEach F.Fn f.now s.old }
    requires own { G.pre own.old }
    ensures each { WereLeft F.Fn f.now s.new }
    ensures own { G.step own.old result own.new }
{
    if s.len() <= 1 {
        let answer = own();
        in_turn(f, s);
        return answer;
    }
    let (first, others) = s.split_at_mut(1);
    first_beside(rt, f, first, others, own)
}

// Sets by value: whether places are in a set, whether two sets are the same, and an interval whose bounds are crossed, which no record may have.
ghost use Rattle.std.specs.Prelude.{◌<◌};
ghost use Rattle.interval.specs.Meaning.{Ticked, Canonical};

use crate::{put, put_answer};
use interval::{Bound, Interval, Op, Stretches};
use timestamp::tick::Tick;

// [low, high]
fn closed(low: u64, high: u64) -> Interval
    requires { (low < 1000) × (high < 1000) }
    ensures { Ticked result.low × Ticked result.high }
{
    Interval {
        low: Bound::Closed(Tick::ORIGIN.0 + low),
        high: Bound::Closed(Tick::ORIGIN.0 + high),
    }
}

// [1, 3)
fn before_three() -> Interval
    ensures { Ticked result.low × Ticked result.high }
{
    Interval {
        low: Bound::Closed(Tick::ORIGIN.0 + 1),
        high: Bound::Open(Tick::ORIGIN.0 + 3),
    }
}

// (3, 5]
fn after_three() -> Interval
    ensures { Ticked result.low × Ticked result.high }
{
    Interval {
        low: Bound::Open(Tick::ORIGIN.0 + 3),
        high: Bound::Closed(Tick::ORIGIN.0 + 5),
    }
}

// What an operation makes of two intervals.
fn combined(op: Op, a: Interval, b: Interval) -> Stretches
    requires { (Ticked a.low × Ticked a.high) × (Ticked b.low × Ticked b.high) }
    ensures { Canonical result }
{
    interval::combine(op, interval::single(a), interval::single(b))
}

// [1, 3) and (3, 5]
fn around_three() -> Stretches
    ensures { Canonical result }
{
    combined(Op::Union, before_three(), after_three())
}

// Prints whether a place is in [1, 3) and (3, 5].
fn ask(tick: u64, gap: bool)
    requires { tick < 1000 }
{
    put_answer(interval::contains(around_three(), Tick::ORIGIN.0 + tick, gap));
}

// Whether 1, the gap after 2, 3, the gap after 3 and the gap after 5 are in [1, 3) and (3, 5].
fn places() {
    ask(1, false);
    ask(2, true);
    ask(3, false);
    ask(3, true);
    ask(5, true);
}

// Whether [1, 3) and (3, 5] is [1, 5] without 3, and whether it is [1, 5].
fn likeness() {
    let s = around_three();
    put_answer(interval::same(s, combined(Op::Difference, closed(1, 5), closed(3, 3))));
    put_answer(interval::same(s, interval::single(closed(1, 5))));
}

// How many stretches [5, 1] has.
fn crossed() {
    let s = interval::single(closed(5, 1));
    io::print_decimal(1, s.count as u64);
}

// Prints a line for each question.
pub(crate) fn show() {
    put(b"places ");
    places();
    put(b"\nsame ");
    likeness();
    put(b"\ncrossed ");
    crossed();
    put(b"\n");
}

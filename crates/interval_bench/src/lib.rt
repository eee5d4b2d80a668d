// Loops over set operations, exported for bench/interval to time.
#![tactic(auto)]

ghost use Rattle.std.specs.Prelude.{◌≡◌, ◌+◌, ◌%◌, ◌<◌, ◌≤◌, length};
ghost use Rattle.rules.specs.Sets.{meant};
ghost use Rattle.interval.specs.Meaning.{op_of, Holds};
ghost use Rattle.interval_bench.specs.Counts.{IsPiece, joined_to, operation_at, pairs_count, joins_count};

use interval::{Bound, Interval, Op, Stretches};

// A tick from any number.
fn tick(n: u64) -> u64
    ensures { result ≡ n % 1000000000000 }
{
    n % 1000000000000
}

// The interval from the number at a position to the next one, which it leaves out.
fn piece(ticks: &[u64], at: usize) -> Interval
    requires { at + 2 ≤ length ticks.now }
    ensures { IsPiece ticks.now at result }
{
    let low = tick(ticks[at]);
    let high = tick(ticks[at + 1]);
    Interval {
        low: Bound::Closed(low),
        high: Bound::Open(high),
    }
}

// The union of the intervals 0 to `last` that stand from a position on, joined one after another.
fn joined(ticks: &[u64], from: usize, last: usize) -> Stretches
    requires fact_1 { last < 32 }
    requires fact_2 { from + last + last + 2 ≤ length ticks.now }
    ensures { Holds (meant (joined_to ticks.now from last)) (last + 1) result }
{
    let mut s = interval::single(piece(ticks, from));
    for k in 0..last {
        s = interval::with_interval(s, piece(ticks, from + 2 * (k + 1)));
    }
    s
}

// The three operations in turn.
fn operation(n: u64) -> Op
    ensures { op_of result ≡ operation_at n }
{
    match n % 3 {
        0 => Op::Union,
        1 => Op::Intersection,
        _ => Op::Difference,
    }
}

// Combines two sets of 16 intervals, so many times. Returned is how many stretches the last outcome has.
#[unsafe(no_mangle)]
pub extern "C" fn interval_bench_pairs(ticks: &[u64], times: u64) -> u64
    ensures { result ≡ pairs_count ticks.now times }
{
    if ticks.len() < 64 {
        return 0;
    }
    let a = joined(ticks, 0, 15);
    let b = joined(ticks, 32, 15);
    let mut count: usize = 0;
    for k in 0..times {
        count = interval::combine(operation(k), a, b).count;
    }
    count as u64
}

// Joins 32 intervals one after another, so many times. Returned is how many stretches they make.
#[unsafe(no_mangle)]
pub extern "C" fn interval_bench_joins(ticks: &[u64], times: u64) -> u64
    ensures { result ≡ joins_count ticks.now times }
{
    if ticks.len() < 64 {
        return 0;
    }
    let mut count: usize = 0;
    for _ in 0..times {
        count = joined(ticks, 0, 31).count;
    }
    count as u64
}

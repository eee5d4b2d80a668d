// Sets by value: those of no place, of one interval and of all places, whether a place is in one, and two put together.
ghost use Rattle.std.specs.Prelude.{◌≡◌, ◌+◌, ◌^◌, ◌<◌, ◌≤◌, true, false};
ghost use Rattle.rules.specs.Sets.{holds, is_in, apply as page_apply};
ghost use Rattle.interval.specs.Meaning.{Ticked, interval_of, op_of, place_of, stretches_of, Canonical, Holds, applied, SaysSame};

use crate::edge::{TOP, edge_numbers, high_edge, is_within, low_edge, place_number};
use crate::join::with_interval;
use crate::merge::{from_edges, merge};
use crate::{Bound, Interval, Op, Stretches};

// The set that has no place.
pub fn empty() -> Stretches
    ensures { Holds (λ x. false) 0 result }
{
    let v = Interval {
        low: Bound::Unbounded,
        high: Bound::Unbounded,
    };
    Stretches {
        items: [v; 32],
        count: 0,
    }
}

// The set of the places of one interval: one stretch, or none if it has no place.
pub fn single(v: Interval) -> Stretches
    requires fact_1 { Ticked v.low }
    requires fact_2 { Ticked v.high }
    ensures { Holds (holds (interval_of v)) 1 result }
{
    let mut s = empty();
    if low_edge(v.low) < high_edge(v.high) {
        s.items[0] = v;
        s.count = 1;
        return s;
    }
    s
}

// The set of all places.
pub fn all() -> Stretches
    ensures { Holds (λ x. true) 1 result }
{
    let low = Bound::Unbounded;
    let high = Bound::Unbounded;
    single(Interval { low, high })
}

// Whether a tick, or the gap after it, is in an interval.
pub fn is_in(v: Interval, n: u64, gap: bool) -> bool
    requires fact_1 { Ticked v.low }
    requires fact_2 { Ticked v.high }
    requires fact_3 { n < 2 ^ 60 }
    ensures { result ≡ holds (interval_of v) (place_of n gap) }
{
    is_within(v, place_number(n, gap))
}

// Whether a tick, or the gap after it, is in a set.
pub fn contains(s: Stretches, n: u64, gap: bool) -> bool
    requires fact_1 { Canonical s }
    requires fact_2 { n < 2 ^ 60 }
    ensures { result ≡ is_in (stretches_of s) (place_of n gap) }
{
    let x = place_number(n, gap);
    for v in &s.items[..s.count] {
        if is_within(*v, x) {
            return true;
        }
    }
    false
}

// Whether a place is in the outcome of an operation, by whether it is in the two sets.
pub fn apply(op: Op, p: bool, q: bool) -> bool
    ensures { result ≡ page_apply (op_of op) p q }
{
    match op {
        Op::Union => p || q,
        Op::Intersection => p && q,
        Op::Difference => p && !q,
    }
}

// Union, intersection or difference of two sets. The union with one stretch, which is the most usual, takes a shorter way.
pub fn combine(op: Op, a: Stretches, b: Stretches) -> Stretches
    requires fact_1 { Canonical a }
    requires fact_2 { Canonical b }
    requires fact_3 { a.count + b.count ≤ 32 }
    ensures { Holds (applied op a b) (a.count + b.count) result }
{
    if let Op::Union = op {
        if b.count == 1 {
            return with_interval(a, b.items[0]);
        }
    }
    let x = edge_numbers(a);
    let y = edge_numbers(b);
    let mut out = [TOP; 65];
    let n = merge(op, &x, &y, &mut out);
    from_edges(&out, n)
}

// Whether two sets have the same places.
pub fn same(a: Stretches, b: Stretches) -> bool
    requires fact_1 { Canonical a }
    requires fact_2 { Canonical b }
    ensures { SaysSame a b result }
{
    a.items[..a.count] == b.items[..b.count]
}

// The union with one interval, which joins the stretches that it meets.
ghost use Rattle.std.specs.Prelude.{◌≡◌, ◌+◌, ◌<◌, ◌≤◌};
ghost use Rattle.interval.specs.Meaning.{Ticked, Canonical, Holds, joined_by};
ghost use Rattle.interval.specs.Joining.{lower_of, higher_of, hull_of, Passed, Joins, Replaced};

use crate::edge::{high_edge, low_edge};
use crate::{Bound, Interval, Stretches};

// The lower of two low bounds.
fn lower(a: Bound, b: Bound) -> Bound
    requires fact_1 { Ticked a }
    requires fact_2 { Ticked b }
    ensures { result ≡ lower_of a b }
{
    if low_edge(a) <= low_edge(b) { a } else { b }
}

// The higher of two high bounds.
fn higher(a: Bound, b: Bound) -> Bound
    requires fact_1 { Ticked a }
    requires fact_2 { Ticked b }
    ensures { result ≡ higher_of a b }
{
    if high_edge(b) <= high_edge(a) { a } else { b }
}

// From the lower low of two intervals to the higher high.
fn hull(v: Interval, w: Interval) -> Interval
    requires fact_1 { Ticked v.low }
    requires fact_2 { Ticked v.high }
    requires fact_3 { Ticked w.low }
    requires fact_4 { Ticked w.high }
    ensures { result ≡ hull_of v w }
{
    Interval {
        low: lower(v.low, w.low),
        high: higher(v.high, w.high),
    }
}

// How many stretches of a set end before an interval, with a place between.
fn count_before(s: Stretches, v: Interval) -> usize
    requires fact_1 { Canonical s }
    requires fact_2 { Ticked v.low }
    ensures { Passed s v result }
{
    let from = low_edge(v.low);
    for (k, w) in s.items[..s.count].iter().enumerate() {
        if from <= high_edge(w.high) {
            return k;
        }
    }
    s.count
}

// An interval joined with stretches that it meets: the whole, and the place of the first stretch after it.
#[derive(Clone, Copy)]
struct Joint {
    whole: Interval,
    next: usize,
}

// An interval joined with the stretches from the p-th on that begin before it ends, or where it does.
fn join_from(s: Stretches, p: usize, v: Interval) -> Joint
    requires fact_1 { Canonical s }
    requires fact_2 { p ≤ s.count }
    requires fact_3 { Ticked v.low }
    requires fact_4 { Ticked v.high }
    ensures { Joins s v p result }
{
    let mut whole = v;
    for k in p..s.count {
        let w = s.items[k];
        if high_edge(whole.high) < low_edge(w.low) {
            return Joint { whole, next: k };
        }
        whole = hull(whole, w);
    }
    Joint {
        whole,
        next: s.count,
    }
}

// The set with an interval in place of its stretches from the p-th up to the one at q.
fn replace(s: Stretches, p: usize, q: usize, v: Interval) -> Stretches
    requires fact_1 { s.count < 32 }
    requires fact_2 { (p ≤ q) × (q ≤ s.count) }
    ensures { Replaced s p q v result }
{
    let count = p + 1 + (s.count - q);
    let mut r = s;
    r.items[p] = v;
    r.items[p + 1..count].copy_from_slice(&s.items[q..s.count]);
    r.count = count;
    r
}

// The union of a set and the places of one interval.
pub fn with_interval(s: Stretches, v: Interval) -> Stretches
    requires fact_1 { Canonical s }
    requires fact_2 { s.count < 32 }
    requires fact_3 { Ticked v.low }
    requires fact_4 { Ticked v.high }
    ensures { Holds (joined_by s v) (s.count + 1) result }
{
    if high_edge(v.high) <= low_edge(v.low) {
        return s;
    }
    let p = count_before(s, v);
    let joint = join_from(s, p, v);
    replace(s, p, joint.next, joint.whole)
}

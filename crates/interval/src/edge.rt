// Places and edges as numbers. Tick n has the number 2 n + 1, the gap after it the next one, and the places before all ticks share 0. An
// edge is where a set may change: the number of the first place in, or of the first place out again.
ghost use Rattle.std.specs.Prelude.{◌≡◌, ◌^◌, ◌<◌, ◌≤◌, length};
ghost use Rattle.interval.specs.Meaning.{Ticked, used, Canonical};
ghost use Rattle.interval.specs.Edges.{top, low_edge, high_edge, LowAt, HighAt, edges, number_of, is_within, padded};

use crate::{Bound, Interval, Stretches};

// Above every place. Ticks are below 2^60, so the gap after the last tick has the number 2 (2^60 - 1) + 2, and TOP is one more: 2^61 + 1.
pub const TOP: u64 = 2305843009213693953;

// The number of a tick, or of the gap after it.
pub fn place_number(n: u64, gap: bool) -> u64
    requires { n < 2 ^ 60 }
    ensures { result ≡ number_of n gap }
{
    if gap { 2 * n + 2 } else { 2 * n + 1 }
}

// The number of the first place from a low bound on.
pub fn low_edge(b: Bound) -> u64
    requires { Ticked b }
    ensures { result ≡ low_edge b }
{
    match b {
        Bound::Unbounded => 0,
        Bound::Open(t) => place_number(t, true),
        Bound::Closed(t) => place_number(t, false),
    }
}

// The number of the first place past a high bound.
pub fn high_edge(b: Bound) -> u64
    requires { Ticked b }
    ensures { result ≡ high_edge b }
{
    match b {
        Bound::Unbounded => TOP,
        Bound::Open(t) => place_number(t, false),
        Bound::Closed(t) => place_number(t, true),
    }
}

// The low bound that has an edge.
pub fn low_bound(e: u64) -> Bound
    requires { e < top }
    ensures { LowAt e result }
{
    if e == 0 {
        return Bound::Unbounded;
    }
    if e % 2 == 1 {
        Bound::Closed(e / 2)
    } else {
        Bound::Open(e / 2 - 1)
    }
}

// The high bound that has an edge.
pub fn high_bound(e: u64) -> Bound
    requires { (0 < e) × (e ≤ top) }
    ensures { HighAt e result }
{
    if e == TOP {
        return Bound::Unbounded;
    }
    if e % 2 == 1 {
        Bound::Open(e / 2)
    } else {
        Bound::Closed(e / 2 - 1)
    }
}

// Whether the place with a number is in an interval.
pub fn is_within(v: Interval, x: u64) -> bool
    requires fact_1 { Ticked v.low }
    requires fact_2 { Ticked v.high }
    ensures { result ≡ is_within v x }
{
    (low_edge(v.low) <= x) & (x < high_edge(v.high))
}

// The edges of a set, low, high, low and so on, and TOP after them.
pub fn edge_numbers(s: Stretches) -> [u64; 65]
    requires { Canonical s }
    ensures { result ≡ padded (edges (used s)) }
{
    let mut r = [TOP; 65];
    for (k, v) in s.items[..s.count].iter().enumerate() {
        r[2 * k] = low_edge(v.low);
        r[2 * k + 1] = high_edge(v.high);
    }
    r
}

// Union, intersection and difference by one merge of the edges of two sets, from low to high.
ghost use Rattle.std.specs.Prelude.{◌≡◌, ◌+◌, ◌<◌, ◌≤◌, min, not, [], if◌then◌else◌, slice_index};
ghost use Rattle.rules.specs.Sets.{apply as page_apply};
ghost use Rattle.interval.specs.Meaning.{op_of};
ghost use Rattle.interval.specs.Edges.{odd, passed_at, padded, Inputs, Edged, Merged, Drawn};

use crate::edge::{TOP, high_bound, low_bound};
use crate::{Interval, Op, Stretches, apply, empty};

fn is_odd(n: usize) -> bool
    ensures { result ≡ odd n }
{
    n % 2 == 1
}

// Whether an edge is to be written where i edges of one set, j of the other and n of the outcome are passed: a place is in a set
// if an odd number of its edges is at or before it.
fn changes(op: Op, i: usize, j: usize, n: usize) -> bool
    ensures { page_apply (op_of op) (odd i) (odd j) ≡ (if result then not (odd n) else odd n) }
{
    apply(op, is_odd(i), is_odd(j)) != is_odd(n)
}

// The next edge after i edges of one set and j of the other.
fn next_edge(a: &[u64; 65], i: usize, b: &[u64; 65], j: usize) -> u64
    requires { (i < 65) × (j < 65) }
    ensures { result ≡ min (slice_index a.now i) (slice_index b.now j) }
{
    a[i].min(b[j])
}

// How many edges are passed at m, of which i are passed before it.
fn advance(l: &[u64; 65], i: usize, m: u64) -> usize
    requires { i < 65 }
    ensures { result ≡ i + passed_at (slice_index l.now i) m }
{
    if l[i] == m { i + 1 } else { i }
}

// The merge: the edges of the outcome of an operation, from those of two sets, into an array of TOP. Returned is how many they are.
pub fn merge(op: Op, a: &[u64; 65], b: &[u64; 65], out: &mut [u64; 65]) -> usize
    requires fact_1 { Inputs a.now b.now }
    requires fact_2 { out.old ≡ padded [] }
    ensures { Merged (page_apply (op_of op)) a.now b.now result out.new }
{
    let mut i = 0;
    let mut j = 0;
    let mut n = 0;
    let mut m = next_edge(a, 0, b, 0);
    while m < TOP {
        i = advance(a, i, m);
        j = advance(b, j, m);
        if changes(op, i, j, n) {
            out[n] = m;
            n += 1;
        }
        m = next_edge(a, i, b, j);
    }
    n
}

// The set that has the first n of these edges; where n is odd, its last stretch is unbounded.
pub fn from_edges(e: &[u64; 65], n: usize) -> Stretches
    requires fact_1 { Edged n e.now }
    requires fact_2 { n ≤ 64 }
    ensures { Drawn n e.now result }
{
    let mut s = empty();
    let count = n.div_ceil(2);
    for k in 0..count {
        let low = low_bound(e[2 * k]);
        let high = high_bound(e[2 * k + 1]);
        s.items[k] = Interval { low, high };
    }
    s.count = count;
    s
}

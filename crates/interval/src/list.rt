// The lent list: the stretches of a set as numbers, four each (the page, "The lent list").
ghost use Rattle.std.specs.Prelude.{◌≡◌, ◌+◌, ◌*◌, ◌≤◌, length};
ghost use mathlib.Core.List.{flat_map};
ghost use Rattle.rules.specs.Listing.{list_numbers};
ghost use Rattle.rules.specs.Services.{low_bytes, eight_bytes, overwrite};
ghost use Rattle.interval.specs.Meaning.{Ticked, stretches_of, Canonical};
ghost use Rattle.writer.specs.Placing.{placed};
ghost use Rattle.interval.specs.Writing.{kind_of, bits_of, bound_bytes, interval_bytes};

use crate::{Bound, Interval, Stretches};
use timestamp::tick::Tick;
use writer::put;

// A bound's kind in the lent list.
fn kind(b: Bound) -> u64
    ensures { result ≡ kind_of b }
{
    match b {
        Bound::Unbounded => 0,
        Bound::Open(_) => 1,
        Bound::Closed(_) => 2,
    }
}

// The number of a bound's tick in two's complement, 0 if it has none.
fn tick_bits(b: Bound) -> u64
    requires { Ticked b }
    ensures { result ≡ bits_of b }
{
    match b {
        Bound::Unbounded => 0,
        Bound::Open(t) | Bound::Closed(t) => t.wrapping_sub(Tick::ORIGIN.0),
    }
}

// Writes a number in eight bytes, lowest first.
fn write_number(out: &mut [u8], at: usize, n: u64)
    requires { at + 8 ≤ length out.old }
    ensures { out.new ≡ placed at (low_bytes 8 n) out.old }
{
    put(out, at, &n.to_le_bytes());
}

// Writes a bound: its kind and its tick.
fn write_bound(out: &mut [u8], at: usize, b: Bound)
    requires fact_1 { Ticked b }
    requires fact_2 { at + 16 ≤ length out.old }
    ensures { out.new ≡ placed at (bound_bytes b) out.old }
{
    write_number(out, at, kind(b));
    write_number(out, at + 8, tick_bits(b));
}

// Writes an interval: its low and its high.
fn write_interval(out: &mut [u8], at: usize, v: Interval)
    requires fact_1 { Ticked v.low }
    requires fact_2 { Ticked v.high }
    requires fact_3 { at + 32 ≤ length out.old }
    ensures { out.new ≡ placed at (interval_bytes v) out.old }
{
    write_bound(out, at, v.low);
    write_bound(out, at + 16, v.high);
}

// Writes the list of a set's stretches, four numbers each. What lies beyond it stays unchanged.
pub fn write_list(s: Stretches, out: &mut [u8])
    requires fact_1 { Canonical s }
    requires fact_2 { 32 * s.count ≤ length out.old }
    ensures { out.new ≡ overwrite out.old (flat_map eight_bytes (list_numbers (stretches_of s))) }
{
    for (k, v) in s.items[..s.count].iter().enumerate() {
        write_interval(out, 32 * k, *v);
    }
}

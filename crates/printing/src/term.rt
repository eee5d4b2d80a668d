// A term of the record: a stretch as an IVL_TS, with the flags of its bounds and the bounds.
ghost use Rattle.std.specs.Prelude.{◌≡◌, true, ◌+◌, ◌<◌, ◌≤◌, length};
ghost use Rattle.rules.specs.Dates.{years_end};
ghost use Rattle.rules.specs.Sets.{unbounded};
ghost use Rattle.rules.specs.Printing.{flag_text, bound_text, term_text, is_writable_bound, is_writable_stretch};
ghost use Rattle.writer.specs.Placing.{Put};
ghost use Rattle.printing.specs.Terms.{side_of, bound_meant, stretch_meant, opening_text, value_text, tag_text};

use crate::stamp::put_timestamp;
use crate::stretch::{Bound, Stretch};
use writer::put;

// Which bound of an interval.
#[derive(Clone, Copy)]
pub enum Side {
    Low,
    High,
}

// Writes the flag of a bound: nothing at an unbounded end.
fn put_flag(out: &mut [u8], at: usize, side: Side, b: Bound) -> usize
    requires { at + length (flag_text (side_of side) (bound_meant b)) ≤ length out.old }
    ensures { Put at (flag_text (side_of side) (bound_meant b)) out.old result out.new }
{
    match b {
        Bound::Unbounded => at,
        Bound::Open(_) => match side {
            Side::Low => put(out, at, b" lowClosed=\"false\""),
            Side::High => put(out, at, b" highClosed=\"false\""),
        },
        Bound::Closed(_) => match side {
            Side::Low => put(out, at, b" lowClosed=\"true\""),
            Side::High => put(out, at, b" highClosed=\"true\""),
        },
    }
}

// Writes an unbounded end.
fn put_infinite(out: &mut [u8], at: usize, side: Side) -> usize
    requires { at + length (bound_text (side_of side) unbounded) ≤ length out.old }
    ensures { Put at (bound_text (side_of side) unbounded) out.old result out.new }
{
    match side {
        Side::Low => put(out, at, b"<low nullFlavor=\"NINF\"/>"),
        Side::High => put(out, at, b"<high nullFlavor=\"PINF\"/>"),
    }
}

// Writes what stands before the timestamp of a bound.
fn put_opening(out: &mut [u8], at: usize, side: Side) -> usize
    requires { at + length (opening_text (side_of side)) ≤ length out.old }
    ensures { Put at (opening_text (side_of side)) out.old result out.new }
{
    match side {
        Side::Low => put(out, at, b"<low value=\""),
        Side::High => put(out, at, b"<high value=\""),
    }
}

// Writes a bound at a tick of years 0001 to 9999.
fn put_value(out: &mut [u8], at: usize, side: Side, tick: u64) -> usize
    requires fact_1 { tick < years_end }
    requires fact_2 { at + length (value_text (side_of side) tick) ≤ length out.old }
    ensures { Put at (value_text (side_of side) tick) out.old result out.new }
{
    let a = put_opening(out, at, side);
    let b = put_timestamp(out, a, tick);
    put(out, b, b"\"/>")
}

// Writes a bound.
fn put_bound(out: &mut [u8], at: usize, side: Side, b: Bound) -> usize
    requires fact_1 { is_writable_bound (bound_meant b) ≡ true }
    requires fact_2 { at + length (bound_text (side_of side) (bound_meant b)) ≤ length out.old }
    ensures { Put at (bound_text (side_of side) (bound_meant b)) out.old result out.new }
{
    match b {
        Bound::Unbounded => put_infinite(out, at, side),
        Bound::Open(t) | Bound::Closed(t) => put_value(out, at, side, t),
    }
}

// Writes the start tag of a term.
fn put_tag(out: &mut [u8], at: usize, s: Stretch) -> usize
    requires { at + length (tag_text (stretch_meant s)) ≤ length out.old }
    ensures { Put at (tag_text (stretch_meant s)) out.old result out.new }
{
    let a = put(out, at, b"<term xsi:type=\"IVL_TS\"");
    let b = put_flag(out, a, Side::Low, s.low);
    let c = put_flag(out, b, Side::High, s.high);
    put(out, c, b">")
}

// Writes a term.
pub fn put_term(out: &mut [u8], at: usize, s: Stretch) -> usize
    requires fact_1 { is_writable_stretch (stretch_meant s) ≡ true }
    requires fact_2 { at + length (term_text (stretch_meant s)) ≤ length out.old }
    ensures { Put at (term_text (stretch_meant s)) out.old result out.new }
{
    let a = put_tag(out, at, s);
    let b = put_bound(out, a, Side::Low, s.low);
    let c = put_bound(out, b, Side::High, s.high);
    put(out, c, b"</term>")
}

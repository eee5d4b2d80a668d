// A list of stretches printed back as a record: whether it can be written, how long it is, and its bytes.
#![tactic(auto)]

ghost use Rattle.std.specs.Prelude.{◌≡◌, true, false, not, ◌+◌, ◌<◌, ◌≤◌, length};
ghost use Rattle.rules.specs.Basics.{every};
ghost use Rattle.rules.specs.LentLists.{is_improper_list, listed};
ghost use Rattle.rules.specs.Printing.{record_text, is_writable_bound, is_writable_stretch, is_unwritable};
ghost use Rattle.rules.specs.Services.{overwrite};
ghost use Rattle.writer.specs.Placing.{Put};
ghost use Rattle.printing.specs.Terms.{stretch_of, bound_meant, stretch_meant};
ghost use Rattle.printing.specs.Records.{term_count, term_row, terms_text};

mod date;
mod size;
mod stamp;
mod stretch;
mod term;

use size::term_size;
use stretch::{Bound, Stretch, stretch_from};
use term::put_term;
use writer::put;

// The ticks of years 0001 to 9999.
const YEARS_END: u64 = 3_155_378_976_000_000;

// How many terms a list is written as.
fn term_count(list: &[u8]) -> usize
    ensures { result ≡ term_count list.now }
{
    if list.len() == 0 { 1 } else { list.len() / 32 }
}

// The k-th term, counted from 0.
fn term_at(list: &[u8], k: usize) -> Stretch
    requires fact_1 { is_improper_list list.now ≡ false }
    requires fact_2 { k < term_count list.now }
    ensures { stretch_meant result ≡ stretch_of (term_row list.now k) }
{
    if list.len() == 0 {
        return Stretch {
            low: Bound::Open(0),
            high: Bound::Open(0),
        };
    }
    stretch_from(lent::read_row(list, k))
}

// Whether a bound can be written: it is unbounded, or its tick is in years 0001 to 9999.
fn is_writable_bound(b: Bound) -> bool
    ensures { result ≡ is_writable_bound (bound_meant b) }
{
    match b {
        Bound::Unbounded => true,
        Bound::Open(t) | Bound::Closed(t) => t < YEARS_END,
    }
}

// Whether both bounds of a stretch can be.
fn is_writable_stretch(s: Stretch) -> bool
    ensures { result ≡ is_writable_stretch (stretch_meant s) }
{
    is_writable_bound(s.low) & is_writable_bound(s.high)
}

// Whether all stretches of a proper list can be written.
fn are_writable(list: &[u8]) -> bool
    requires { is_improper_list list.now ≡ false }
    ensures { result ≡ every is_writable_stretch (listed list.now) }
{
    let n = term_count(list);
    for k in 0..n {
        if !is_writable_stretch(term_at(list, k)) {
            return false;
        }
    }
    true
}

// Whether a list can be written: it is proper, and its ticks are in years 0001 to 9999.
pub fn is_writable(list: &[u8]) -> bool
    ensures { result ≡ not (is_unwritable list.now) }
{
    if !lent::is_proper(list) {
        return false;
    }
    are_writable(list)
}

// The length of the record of a list that can be written, in bytes: 31 around the terms, and the terms.
pub fn record_length(list: &[u8]) -> usize
    requires { is_unwritable list.now ≡ false }
    ensures { (result ≡ length (record_text (listed list.now))) × (result ≤ 4_735) }
{
    let n = term_count(list);
    let mut total = 31;
    for k in 0..n {
        total += term_size(term_at(list, k));
    }
    total
}

// Writes the terms of a list.
fn put_terms(out: &mut [u8], at: usize, list: &[u8]) -> usize
    requires fact_1 { is_unwritable list.now ≡ false }
    requires fact_2 { at + length (terms_text list.now) ≤ length out.old }
    ensures { Put at (terms_text list.now) out.old result out.new }
{
    let n = term_count(list);
    let mut next = at;
    for k in 0..n {
        next = put_term(out, next, term_at(list, k));
    }
    next
}

// Writes the record of a list that can be written. What lies beyond it stays unchanged.
pub fn print(list: &[u8], out: &mut [u8])
    requires fact_1 { is_unwritable list.now ≡ false }
    requires fact_2 { length (record_text (listed list.now)) ≤ length out.old }
    ensures { out.new ≡ overwrite out.old (record_text (listed list.now)) }
{
    let a = put(out, 0, b"<stay xsi:type=\"QSU_TS\">");
    let b = put_terms(out, a, list);
    put(out, b, b"</stay>");
}

// OIDs: numbers parted by dots.
ghost use Rattle.std.specs.Prelude.{◌≡◌, true, ◌&&◌, ◌||◌, ◌<◌, leb, eqb};
ghost use Rattle.rules.specs.Basics.{decimal};
ghost use Rattle.rules.specs.Forms.{is_plain_number, is_root};

use crate::parts::{are_parts, part_end};
use text::digits;

// The most bytes of an OID.
const MOST: usize = 128;

// Whether a text is a number: digits, with no leading zero.
pub fn is_number(n: &[u8]) -> bool
    ensures { result ≡ is_plain_number n.now }
{
    if n.len() == 0 {
        return false;
    }
    if digits::count(n, 0, n.len()) < n.len() {
        return false;
    }
    if n.len() == 1 {
        return true;
    }
    n[0] != b'0'
}

// Whether a number is at most another, which is below 100.
fn is_at_most(n: &[u8], most: u64) -> bool
    requires fact_1 { is_plain_number n.now ≡ true }
    requires fact_2 { most < 100 }
    ensures { result ≡ leb (decimal n.now) most }
{
    if 2 < n.len() {
        return false;
    }
    digits::value(n, 0, n.len()) <= most
}

// Whether two numbers may stand first: the first 0 to 2, the second at most 39 under 0 and 1.
fn may_lead(a: &[u8], b: &[u8]) -> bool
    requires fact_1 { is_plain_number a.now ≡ true }
    requires fact_2 { is_plain_number b.now ≡ true }
    ensures { result ≡ (leb (decimal a.now) 2 && (eqb (decimal a.now) 2 || leb (decimal b.now) 39)) }
{
    if !is_at_most(a, 2) {
        return false;
    }
    if is_at_most(a, 1) {
        return is_at_most(b, 39);
    }
    true
}

// Whether a text is an OID of at most 128 bytes.
pub fn is_root(t: &[u8]) -> bool
    ensures { result ≡ is_root t.now }
{
    if MOST < t.len() {
        return false;
    }
    if !are_parts(t, b'.', is_number) {
        return false;
    }
    let first = part_end(t, 0, b'.');
    if first == t.len() {
        return false;
    }
    let from = first + 1;
    let second = part_end(t, from, b'.');
    may_lead(&t[0..first], &t[from..second])
}

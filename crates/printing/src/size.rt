// The length of a term, before a byte of it is written.
ghost use Rattle.std.specs.Prelude.{◌≡◌, true, ◌≤◌, length};
ghost use Rattle.rules.specs.Invariants.{low, high};
ghost use Rattle.rules.specs.Printing.{term_text, is_writable_bound, is_writable_stretch};
ghost use Rattle.printing.specs.Terms.{bound_meant, stretch_meant, size_of};

use crate::stretch::{Bound, Stretch};

// The bytes of a low bound and of its flag.
fn low_size(b: Bound) -> usize
    requires { is_writable_bound (bound_meant b) ≡ true }
    ensures { (result ≡ size_of low (bound_meant b)) × (result ≤ 57) }
{
    match b {
        Bound::Unbounded => 24,
        Bound::Open(_) => 57,
        Bound::Closed(_) => 56,
    }
}

// The bytes of a high bound and of its flag.
fn high_size(b: Bound) -> usize
    requires { is_writable_bound (bound_meant b) ≡ true }
    ensures { (result ≡ size_of high (bound_meant b)) × (result ≤ 59) }
{
    match b {
        Bound::Unbounded => 25,
        Bound::Open(_) => 59,
        Bound::Closed(_) => 58,
    }
}

// The length of a term: 31 bytes, and its bounds with their flags.
pub fn term_size(s: Stretch) -> usize
    requires { is_writable_stretch (stretch_meant s) ≡ true }
    ensures { result ≡ length (term_text (stretch_meant s)) }
{
    31 + low_size(s.low) + high_size(s.high)
}

// Texts that are one of a few fixed byte strings, after decoding. A value stands at q, with its quotes.
ghost use Rattle.std.specs.Prelude.{◌≡◌, List, ℕ, ◌≤◌, length, drop};
ghost use Rattle.rules.specs.Parsers.{ok};
ghost use Rattle.rules.specs.Markup.{value};
ghost use Rattle.rules.specs.Forms.{is_flavor, is_flag, is_part_type};
ghost use Rattle.form.specs.Words.{is_invalid_flavor, is_unknown_flavor};

use element::value::is;

// Whether a value is a null flavor of an invalid value.
fn is_invalid(s: &[u8], q: usize) -> bool
    requires { q ≤ length s.now }
    ensures { (v after : List ℕ) → value (drop q s.now) ≡ ok v after → result ≡ is_invalid_flavor v }
{
    is(s, q, b"INV")
        | is(s, q, b"DER")
        | is(s, q, b"OTH")
        | is(s, q, b"NINF")
        | is(s, q, b"PINF")
        | is(s, q, b"UNC")
}

// Whether a value is a null flavor of an unknown value.
fn is_unknown(s: &[u8], q: usize) -> bool
    requires { q ≤ length s.now }
    ensures { (v after : List ℕ) → value (drop q s.now) ≡ ok v after → result ≡ is_unknown_flavor v }
{
    is(s, q, b"UNK")
        | is(s, q, b"ASKU")
        | is(s, q, b"NAV")
        | is(s, q, b"NASK")
        | is(s, q, b"QS")
        | is(s, q, b"TRC")
}

// Whether a value is a null flavor.
pub fn is_flavor(s: &[u8], q: usize) -> bool
    requires { q ≤ length s.now }
    ensures { (v after : List ℕ) → value (drop q s.now) ≡ ok v after → result ≡ is_flavor v }
{
    is(s, q, b"NI") | is_invalid(s, q) | is(s, q, b"MSK") | is(s, q, b"NA") | is_unknown(s, q)
}

// Whether a value is a flag.
pub fn is_flag(s: &[u8], q: usize) -> bool
    requires { q ≤ length s.now }
    ensures { (v after : List ℕ) → value (drop q s.now) ≡ ok v after → result ≡ is_flag v }
{
    if is(s, q, b"true") {
        return true;
    }
    is(s, q, b"false")
}

// Whether a value is the type of a part of a name.
pub fn is_part_type(s: &[u8], q: usize) -> bool
    requires { q ≤ length s.now }
    ensures { (v after : List ℕ) → value (drop q s.now) ≡ ok v after → result ≡ is_part_type v }
{
    if is(s, q, b"FAM") {
        return true;
    }
    if is(s, q, b"GIV") {
        return true;
    }
    if is(s, q, b"TITLE") {
        return true;
    }
    is(s, q, b"DEL")
}

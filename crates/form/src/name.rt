// The qualifiers of a part of a name.
ghost use Rattle.std.specs.Prelude.{◌≡◌, List, ℕ, ◌≤◌, length, drop};
ghost use Rattle.rules.specs.Basics.{exists, same, words};
ghost use Rattle.rules.specs.Parsers.{ok};
ghost use Rattle.rules.specs.Markup.{value};
ghost use Rattle.rules.specs.Forms.{is_qualifiers};
ghost use Rattle.form.specs.Words.{along_by, is_qualifier};

use crate::parts::{are_parts, is_word};
use element::value::{next, start};

// How many bytes of w the current word of a text has after one byte more, where it had k before: none after a space; past the end of w if it
// is another word.
fn along(w: &[u8], k: usize, c: u8) -> usize
    ensures { result ≡ along_by w.now k c }
{
    if c == b' ' {
        return 0;
    }
    if w.len() <= k {
        return w.len() + 1;
    }
    if w[k] != c {
        return w.len() + 1;
    }
    k + 1
}

// Whether a word is among those of the value at q, parted by single spaces.
pub fn has_word(s: &[u8], q: usize, w: &[u8]) -> bool
    requires { q ≤ length s.now }
    ensures { (v after : List ℕ) → value (drop q s.now) ≡ ok v after → result ≡ exists (same w.now) (words v) }
{
    let from = start(s, q);
    let mut i = from;
    let mut k = 0;
    while let Some((c, end)) = next(s, i) {
        if (c == b' ') & (k == w.len()) {
            return true;
        }
        k = along(w, k, c);
        i = end;
    }
    k == w.len()
}

// Whether a word is a qualifier.
pub fn is_qualifier(w: &[u8]) -> bool
    ensures { result ≡ is_qualifier w.now }
{
    is_word(w, b"LS AC NB PR HON BR AD SP MID CL IN PFX SFX")
}

// Whether a text is qualifiers, one or more, with single spaces.
pub fn is_qualifiers(t: &[u8]) -> bool
    ensures { result ≡ is_qualifiers t.now }
{
    are_parts(t, b' ', is_qualifier)
}

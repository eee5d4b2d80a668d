// The decoded text of a value.
ghost use Rattle.std.specs.Prelude.{◌≡◌, List, ℕ, ◌≤◌, ◌<◌, length, drop};
ghost use Rattle.rules.specs.Basics.{is_empty, same};
ghost use Rattle.rules.specs.Parsers.{ok, many};
ghost use Rattle.rules.specs.Markup.{value};
ghost use Rattle.text.specs.Reads.{Good};
ghost use Rattle.element.specs.Texts.{is_bare, TextAt, CharOn, Chars};

use markup::scan::{read_byte, skip};
use markup::value::{is_simple, read_char};

// Where the characters of the value at a position stand.
pub fn start(s: &[u8], at: usize) -> usize
    requires { at ≤ length s.now }
    ensures within { result ≤ length s.now }
    ensures tells { (v after : List ℕ) → value (drop at s.now) ≡ ok v after → TextAt s.now result v }
{
    read_byte(s, at, b'"').unwrap_or(at)
}

// Whether a byte is no quote.
fn is_bare(c: u8) -> bool
    ensures { result ≡ is_bare c }
{
    c != b'"'
}

// Where the next quote stands from a position on; the end of the text, if there is none.
fn quote(s: &[u8], at: usize) -> usize
    requires { at ≤ length s.now }
    ensures { Good 0 (many is_bare) s.now at result }
{
    skip(s, at, is_bare)
}

// Where the value at a position ends, past its second quote. A quote within a value is written as a reference, so no character is read.
pub fn end(s: &[u8], at: usize) -> usize
    requires { at ≤ length s.now }
    ensures on_1 { (at < length s.now → at < result) }
    ensures on_2 { result ≤ length s.now }
    ensures tells { (v : List ℕ) (e : ℕ) → e ≤ length s.now → value (drop at s.now) ≡ ok v (drop e s.now) → result ≡ e }
{
    if at < s.len() {
        let i = quote(s, at + 1);
        if i < s.len() {
            return i + 1;
        }
    }
    s.len()
}

// The first of the characters that stand from a position on: the byte that it stands for, and where the others stand; or that there is none.
pub fn next(s: &[u8], at: usize) -> Option<(u8, usize)>
    requires { at ≤ length s.now }
    ensures on { CharOn s.now at result }
    ensures tells { (v : List ℕ) → TextAt s.now at v → Chars s.now v result }
{
    if at < s.len() {
        let c = s[at];
        if is_simple(c) {
            return Some((c, at + 1));
        }
    }
    if let Some(_) = read_byte(s, at, b'"') {
        return None;
    }
    read_char(s, at)
}

// Whether the value at a position is the empty text.
pub fn is_empty(s: &[u8], at: usize) -> bool
    requires { at ≤ length s.now }
    ensures { (v after : List ℕ) → value (drop at s.now) ≡ ok v after → result ≡ is_empty v }
{
    next(s, start(s, at)).is_none()
}

// Whether the value at a position is a given text.
pub fn is(s: &[u8], at: usize, t: &[u8]) -> bool
    requires { at ≤ length s.now }
    ensures { (v after : List ℕ) → value (drop at s.now) ≡ ok v after → result ≡ same v t.now }
{
    let from = start(s, at);
    let mut i = from;
    for b in t {
        let Some((c, end)) = next(s, i) else {
            return false;
        };
        if c != *b {
            return false;
        }
        i = end;
    }
    next(s, i).is_none()
}

// Whether the value at a position of a text and the value at a position of another are the same, decoded.
pub fn is_same(s: &[u8], at: usize, t: &[u8], other: usize) -> bool
    requires fact_1 { at ≤ length s.now }
    requires fact_2 { other ≤ length t.now }
    ensures { (v w after rest : List ℕ) → value (drop at s.now) ≡ ok v after → value (drop other t.now) ≡ ok w rest → result ≡ same v w }
{
    let from = start(s, at);
    let onset = start(t, other);
    let mut i = from;
    let mut j = onset;
    while let Some((c, end)) = next(s, i) {
        let Some((d, other_end)) = next(t, j) else {
            return false;
        };
        if c != d {
            return false;
        }
        i = end;
        j = other_end;
    }
    next(t, j).is_none()
}

// The value of an attribute: its characters, and the quotes around them.
ghost use Rattle.std.specs.Prelude.{◌≡◌, ◌≤◌, length};
ghost use Rattle.rules.specs.Parsers.{one};
ghost use Rattle.rules.specs.Markup.{reference, noncharacter, is_plain, char, value};
ghost use Rattle.text.specs.Reads.{Reads};
ghost use Rattle.markup.specs.Values.{is_simple, stands_for, CharBy, ReadsText, TextOn};

use crate::scan::{read_byte, read_literal};

// The end of U+FFFE or U+FFFF at a position.
fn read_noncharacter(s: &[u8], at: usize) -> Option<usize>
    requires { at ≤ length s.now }
    ensures { Reads 3 noncharacter s.now at result }
{
    if let Some(end) = read_literal(s, at, b"\xEF\xBF\xBE") {
        return Some(end);
    }
    read_literal(s, at, b"\xEF\xBF\xBF")
}

// Whether a byte stands for itself in a value.
fn is_plain(c: u8) -> bool
    ensures { result ≡ is_plain c }
{
    (b' ' <= c) & !(c == b'<') & !(c == b'&')
}

// The byte at a position, if it stands for itself, and where it ends.
fn read_plain(s: &[u8], at: usize) -> Option<(u8, usize)>
    requires { at ≤ length s.now }
    ensures { CharBy (one is_plain) s.now at result }
{
    if at < s.len() {
        let c = s[at];
        if is_plain(c) {
            return Some((c, at + 1));
        }
    }
    None
}

// The reference written t at a position, which stands for c: that byte, and where the reference ends.
fn read_written(s: &[u8], at: usize, t: &[u8], c: u8) -> Option<(u8, usize)>
    requires fact_1 { at ≤ length s.now }
    requires fact_2 { 1 ≤ length t.now }
    ensures { CharBy (stands_for t.now c) s.now at result }
{
    let end = read_literal(s, at, t)?;
    Some((c, end))
}

// The reference at a position.
fn read_reference(s: &[u8], at: usize) -> Option<(u8, usize)>
    requires { at ≤ length s.now }
    ensures { CharBy reference s.now at result }
{
    if let Some(amp) = read_written(s, at, b"&amp;", b'&') {
        return Some(amp);
    }
    if let Some(lt) = read_written(s, at, b"&lt;", b'<') {
        return Some(lt);
    }
    if let Some(gt) = read_written(s, at, b"&gt;", b'>') {
        return Some(gt);
    }
    if let Some(quot) = read_written(s, at, b"&quot;", b'"') {
        return Some(quot);
    }
    read_written(s, at, b"&apos;", b'\'')
}

// The character at a position: the byte that it stands for, and where it ends.
pub fn read_char(s: &[u8], at: usize) -> Option<(u8, usize)>
    requires { at ≤ length s.now }
    ensures { CharBy char s.now at result }
{
    if let Some(_) = read_noncharacter(s, at) {
        return None;
    }
    if let Some(plain) = read_plain(s, at) {
        return Some(plain);
    }
    read_reference(s, at)
}

// Whether a byte is a character by itself, whatever follows it, and is not the quote. Most are letters and digits.
pub fn is_simple(c: u8) -> bool
    ensures { result ≡ is_simple c }
{
    if b'<' < c {
        return c != 0xEF;
    }
    (b' ' <= c) & !(c == b'<') & !(c == b'&') & !(c == b'"')
}

// The end of the simple bytes at a position: the way through a value that most bytes take.
fn skip_simple(s: &[u8], at: usize) -> usize
    requires { at ≤ length s.now }
    ensures { TextOn s.now at result }
{
    let mut i = at;
    while i < s.len() {
        if !is_simple(s[i]) {
            return i;
        }
        i += 1;
    }
    i
}

// The end of the characters from a position on, past the quote that ends them.
fn read_text(s: &[u8], at: usize) -> Option<usize>
    requires { at ≤ length s.now }
    ensures { ReadsText s.now at result }
{
    let mut i = at;
    loop {
        let j = skip_simple(s, i);
        if let Some(end) = read_byte(s, j, b'"') {
            return Some(end);
        }
        let (_, end) = read_char(s, j)?;
        i = end;
    }
}

// The end of the value, with its quotes, at a position.
pub fn read_value(s: &[u8], at: usize) -> Option<usize>
    requires { at ≤ length s.now }
    ensures { Reads 1 value s.now at result }
{
    let from = read_byte(s, at, b'"')?;
    read_text(s, from)
}

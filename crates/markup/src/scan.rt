// White space, names and fixed bytes at a position of a text.
ghost use Rattle.std.specs.Prelude.{◌≡◌, true, false, ◌||◌, ℕ, ◌≤◌, ◌<◌, length, slice_index};
ghost use Rattle.rules.specs.Basics.{is_from};
ghost use Rattle.rules.specs.Parsers.{many, byte, literal};
ghost use Rattle.rules.specs.Markup.{is_space, space, some_space, is_name_start, is_name_byte, name};
ghost use Rattle.text.specs.Reads.{Good, Reads};

// Whether a byte is white space.
fn is_space(c: u8) -> bool
    ensures { result ≡ is_space c }
{
    (c == b' ') | (c == b'\t') | (c == b'\r') | (c == b'\n')
}

// The end of the bytes, if any, at a position that pass a test.
pub fn skip<F: Fn(u8) -> bool>(s: &[u8], at: usize, passes: F) -> usize
    requires position { at ≤ length s.now }
    requires callable { F.IsAlwaysCallable passes }
    ensures within { (at ≤ result) × (result ≤ length s.now) }
    ensures passed { (i : ℕ) → at ≤ i → i < result → F.post passes (slice_index s.now i) true }
    ensures stopped { result < length s.now → F.post passes (slice_index s.now result) false }
{
    let mut i = at;
    while i < s.len() {
        if !passes(s[i]) {
            return i;
        }
        i += 1;
    }
    i
}

// The end of the white space, if any, at a position.
pub fn skip_space(s: &[u8], at: usize) -> usize
    requires { at ≤ length s.now }
    ensures { Good 0 space s.now at result }
{
    skip(s, at, is_space)
}

// The end of the white space at a position, of which there must be some.
pub fn read_some_space(s: &[u8], at: usize) -> Option<usize>
    requires { at ≤ length s.now }
    ensures { Reads 1 some_space s.now at result }
{
    let end = skip_space(s, at);
    (at < end).then_some(end)
}

// Whether a byte is an ASCII letter.
fn is_letter(c: u8) -> bool
    ensures { result ≡ (is_from 65 90 c || is_from 97 122 c) }
{
    c.is_ascii_alphabetic()
}

// Whether a name may begin with a byte.
fn is_name_start(c: u8) -> bool
    ensures { result ≡ is_name_start c }
{
    is_letter(c) | (c == b'_')
}

// Whether a name may go on with a byte. Most are small letters, so that is asked first.
fn is_name_byte(c: u8) -> bool
    ensures { result ≡ is_name_byte c }
{
    if (b'a' <= c) & (c <= b'z') {
        return true;
    }
    ((b'A' <= c) & (c <= b'Z'))
        | (c == b'_')
        | ((b'0' <= c) & (c <= b'9'))
        | (c == b'.')
        | (c == b'-')
        | (c == b':')
}

// The end of the bytes, if any, at a position with which a name may go on.
fn skip_name_bytes(s: &[u8], at: usize) -> usize
    requires { at ≤ length s.now }
    ensures { Good 0 (many is_name_byte) s.now at result }
{
    skip(s, at, is_name_byte)
}

// The end of the name at a position.
pub fn read_name(s: &[u8], at: usize) -> Option<usize>
    requires { at ≤ length s.now }
    ensures { Reads 1 name s.now at result }
{
    if at < s.len() {
        if is_name_start(s[at]) {
            return Some(skip_name_bytes(s, at + 1));
        }
    }
    None
}

// The end of the byte b at a position.
pub fn read_byte(s: &[u8], at: usize, b: u8) -> Option<usize>
    requires { at ≤ length s.now }
    ensures { Reads 1 (byte b) s.now at result }
{
    if at < s.len() {
        if s[at] == b {
            return Some(at + 1);
        }
    }
    None
}

// The end of the bytes of t at a position.
pub fn read_literal(s: &[u8], at: usize, t: &[u8]) -> Option<usize>
    requires { at ≤ length s.now }
    ensures { Reads (length t.now) (literal t.now) s.now at result }
{
    let mut end = at;
    for b in t {
        let Some(next) = read_byte(s, end, *b) else {
            return None;
        };
        end = next;
    }
    Some(end)
}

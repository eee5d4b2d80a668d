// Lines of a table, and words of a line.
ghost use Rattle.std.specs.Prelude.{◌<◌, ◌≤◌, length};

// Where a byte stands first from a position on, or where the text ends.
pub(crate) fn position(s: &[u8], from: usize, byte: u8) -> usize
    requires { from ≤ length s.now }
    ensures { (from ≤ result) × (result ≤ length s.now) }
{
    for i in from..s.len() {
        if s[i] == byte {
            return i;
        }
    }
    s.len()
}

// The byte at a position, or 0 where the text has none.
pub(crate) fn byte(s: &[u8], at: usize) -> u8 {
    if at < s.len() { s[at] } else { 0 }
}

// What stands before the byte that precedes a position (a space, a backslash); the whole text if the position is its end.
pub(crate) fn before(s: &[u8], at: usize) -> &[u8] {
    if s.len() <= at {
        return s;
    }
    if at == 0 {
        return &s[..0];
    }
    between(s, 0, at - 1)
}

// What stands so far behind a position.
pub(crate) fn after(s: &[u8], at: usize, count: usize) -> &[u8]
    requires { at ≤ length s.now }
{
    let start = behind(s, at, count);
    &s[start..]
}

// The position so far behind another, or the last one, if that comes first.
pub(crate) fn behind(s: &[u8], at: usize, count: usize) -> usize
    requires { at ≤ length s.now }
    ensures { (at ≤ result) × (result ≤ length s.now) }
{
    if s.len() - at < count {
        return s.len();
    }
    at + count
}

// The text from a position up to another, nothing if they are out of order.
pub(crate) fn between(s: &[u8], from: usize, to: usize) -> &[u8]
    requires { to ≤ length s.now }
{
    if to < from {
        return &s[..0];
    }
    &s[from..to]
}

// Where the line after the one at a position starts.
pub(crate) fn next_line(s: &[u8], at: usize) -> usize
    requires { at < length s.now }
    ensures { (at < result) × (result ≤ length s.now) }
{
    let e = position(s, at, b'\n');
    if e < s.len() {
        return e + 1;
    }
    s.len()
}

// The line at a position, without its line feed; nothing behind the end.
pub(crate) fn line(s: &[u8], at: usize) -> &[u8] {
    if s.len() < at {
        return &s[..0];
    }
    let e = position(s, at, b'\n');
    &s[at..e]
}

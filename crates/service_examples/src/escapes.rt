// Texts as a table writes them: \n \t \r \\ and \xHH for a byte, and \{COUNT TEXT} for a text that is repeated.
ghost use Rattle.std.specs.Prelude.{◌≡◌, ◌<◌, ◌≤◌, length};
ghost use Rattle.io.specs.Counts.{IsPrefixLen};

use crate::{lines, numbers};

// The byte that a letter after a backslash stands for.
fn control(letter: u8) -> u8 {
    match letter {
        b'n' => b'\n',
        b't' => b'\t',
        b'r' => b'\r',
        _ => letter,
    }
}

// The value of a hexadecimal digit.
fn hex(digit: u8) -> u8
    ensures { result < 16 }
{
    if digit < 58 {
        digit % 16
    } else {
        (digit % 16 + 9) % 16
    }
}

// The byte that a text begins with.
fn first(text: &[u8]) -> u8 {
    let byte = lines::byte(text, 0);
    if byte != b'\\' {
        return byte;
    }
    let letter = lines::byte(text, 1);
    if letter != b'x' {
        return control(letter);
    }
    hex(lines::byte(text, 2)) * 16 + hex(lines::byte(text, 3))
}

// How many characters more than one write the byte that a text begins with.
fn more(text: &[u8]) -> usize {
    if lines::byte(text, 0) != b'\\' {
        return 0;
    }
    if lines::byte(text, 1) != b'x' {
        return 1;
    }
    3
}

// Puts a byte at a position, if there is room, and answers the next position.
fn put_byte(out: &mut [u8], at: usize, byte: u8) -> usize
    requires { at ≤ length out.old }
    ensures { (result ≤ length out.old) × (length out.new ≡ length out.old) }
{
    if at < out.len() {
        out[at] = byte;
        return at + 1;
    }
    at
}

// Puts the bytes that a text writes, which repeats nothing, from a position on, and answers where they end.
fn put(text: &[u8], out: &mut [u8], at: usize) -> usize
    requires { at ≤ length out.old }
    ensures { (result ≤ length out.old) × (length out.new ≡ length out.old) }
{
    let mut n = at;
    let mut i = 0;
    while i < text.len() {
        let rest = &text[i..];
        n = put_byte(out, n, first(rest));
        i = lines::behind(text, i + 1, more(rest));
    }
    n
}

// Puts `COUNT TEXT` in the same way: the text so many times.
fn put_group(group: &[u8], out: &mut [u8], at: usize) -> usize
    requires { at ≤ length out.old }
    ensures { (result ≤ length out.old) × (length out.new ≡ length out.old) }
{
    let space = lines::position(group, 0, b' ');
    let count = numbers::number(lines::between(group, 0, space));
    let text = lines::after(group, space, 1);
    let mut n = at;
    for _ in 0..count {
        n = put(text, out, n);
    }
    n
}

// Puts a text with one that is repeated at its end, without its closing brace, or without such a one.
fn put_part(part: &[u8], out: &mut [u8], at: usize) -> usize
    requires { at ≤ length out.old }
    ensures { (result ≤ length out.old) × (length out.new ≡ length out.old) }
{
    let brace = lines::position(part, 0, b'{');
    let n = put(lines::before(part, brace), out, at);
    put_group(lines::after(part, brace, 1), out, n)
}

// Puts the bytes that a text writes at the start of `out`, and answers how many.
pub(crate) fn decode(text: &[u8], out: &mut [u8]) -> usize
    ensures { IsPrefixLen result out.new }
{
    let mut n = 0;
    for part in text.split(|b| *b == b'}') {
        n = put_part(part, out, n);
    }
    n
}

// Texts: UTF-8 and cutting.
#![tactic(auto)]

ghost use Rattle.std.specs.Prelude.{◌≡◌, true, ◌+◌, ◌≤◌, ◌<◌, length, take, drop, [], ◌∷◌};
ghost use Rattle.rules.specs.Basics.{every, same, begins, is_from};
ghost use Rattle.rules.specs.Utf8.{◌to◌, tail, in_range, is_utf8, cut_length};
ghost use Rattle.text.specs.Characters.{followers, class_followers, fill, char_length, is_ascii, Skips};

pub mod digits;
pub mod words;

// What a lead byte says of the bytes that follow it: none, one, two or three of them; the range of the second byte of a
// character of three or four, from low to high; or that the byte leads nothing.
#[derive(Clone, Copy)]
pub enum Lead {
    Alone,
    Two,
    Three(u8, u8),
    Four(u8, u8),
    Nothing,
}

// The class of a lead byte, by RFC 3629's table.
pub fn lead_class(b: u8) -> Lead
    ensures { class_followers result ≡ followers b }
{
    match b {
        0x00..=0x7F => Lead::Alone,
        0xC2..=0xDF => Lead::Two,
        0xE0 => Lead::Three(0xA0, 0xBF),
        0xE1..=0xEC | 0xEE..=0xEF => Lead::Three(0x80, 0xBF),
        0xED => Lead::Three(0x80, 0x9F),
        0xF0 => Lead::Four(0x90, 0xBF),
        0xF1..=0xF3 => Lead::Four(0x80, 0xBF),
        0xF4 => Lead::Four(0x80, 0x8F),
        _ => Lead::Nothing,
    }
}

// Whether a byte lies in a range.
fn in_range(b: u8, low: u8, high: u8) -> bool
    ensures { result ≡ is_from low high b }
{
    (low <= b) & (b <= high)
}

// Whether a byte may follow a lead byte, in the places that have no range of their own.
fn is_tail(b: u8) -> bool
    ensures { result ≡ in_range b tail }
{
    (0x80 <= b) & (b <= 0xBF)
}

// Whether what follows a lead byte of two stands at a position.
fn follows_two(s: &[u8], at: usize) -> bool
    requires { at ≤ length s.now }
    ensures { result ≡ fill (tail ∷ []) (drop at s.now) }
{
    if s.len() - at < 1 {
        return false;
    }
    is_tail(s[at])
}

// Whether what follows a lead byte of three stands at a position, the first of it from low to high.
fn follows_three(s: &[u8], at: usize, low: u8, high: u8) -> bool
    requires { at ≤ length s.now }
    ensures { result ≡ fill (low to high ∷ tail ∷ []) (drop at s.now) }
{
    if s.len() - at < 2 {
        return false;
    }
    in_range(s[at], low, high) & is_tail(s[at + 1])
}

// Whether what follows a lead byte of four stands at a position, the first of it from low to high.
fn follows_four(s: &[u8], at: usize, low: u8, high: u8) -> bool
    requires { at ≤ length s.now }
    ensures { result ≡ fill (low to high ∷ tail ∷ tail ∷ []) (drop at s.now) }
{
    if s.len() - at < 3 {
        return false;
    }
    in_range(s[at], low, high) & is_tail(s[at + 1]) & is_tail(s[at + 2])
}

// The length of the character at a position, 0 if none stands there.
pub fn char_length(s: &[u8], at: usize) -> usize
    requires { at < length s.now }
    ensures { result ≡ char_length (drop at s.now) }
{
    let class = lead_class(s[at]);
    match class {
        Lead::Alone => 1,
        Lead::Two => if follows_two(s, at + 1) { 2 } else { 0 },
        Lead::Three(low, high) => if follows_three(s, at + 1, low, high) {
            3
        } else {
            0
        },
        Lead::Four(low, high) => if follows_four(s, at + 1, low, high) {
            4
        } else {
            0
        },
        Lead::Nothing => 0,
    }
}

// Whether the bytes of a block, so many from a position on, are ASCII.
fn is_ascii_block(s: &[u8], at: usize, size: usize) -> bool
    requires { at + size ≤ length s.now }
    ensures { result ≡ every is_ascii (take size (drop at s.now)) }
{
    let mut all = true;
    for b in &s[at..at + size] {
        all = all & (*b < 128);
    }
    all
}

// The end of the blocks of ASCII that begin at a position, each of so many bytes.
fn skip_ascii_blocks(s: &[u8], at: usize, size: usize) -> usize
    requires fact_1 { at ≤ length s.now }
    requires fact_2 { 1 ≤ size }
    ensures { Skips s.now at result }
{
    let mut i = at;
    while size <= s.len() - i {
        if !is_ascii_block(s, i, size) {
            return i;
        }
        i += size;
    }
    i
}

// How far to go past an ASCII byte: one byte, and at some positions the blocks that follow it too, large ones and then small ones.
fn after_ascii(s: &[u8], at: usize) -> usize
    requires { at < length s.now }
    ensures { Skips s.now (at + 1) result }
{
    if at % 64 == 0 {
        let end = skip_ascii_blocks(s, at + 1, 128);
        return skip_ascii_blocks(s, end, 32);
    }
    at + 1
}

// Whether a text is UTF-8.
pub fn is_utf8(s: &[u8]) -> bool
    ensures { result ≡ is_utf8 s.now }
{
    let mut i = 0;
    while i < s.len() {
        if s[i] < 128 {
            i = after_ascii(s, i);
        } else {
            let n = char_length(s, i);
            if n == 0 {
                return false;
            }
            i += n;
        }
    }
    true
}

// Whether two texts are the same, byte for byte.
pub fn is_same(a: &[u8], b: &[u8]) -> bool
    ensures { result ≡ same a.now b.now }
{
    if a.len() != b.len() {
        return false;
    }
    for i in 0..a.len() {
        if a[i] != b[i] {
            return false;
        }
    }
    true
}

// Whether a text begins with another.
pub fn begins_with(t: &[u8], prefix: &[u8]) -> bool
    ensures { result ≡ begins prefix.now t.now }
{
    if t.len() < prefix.len() {
        return false;
    }
    for i in 0..prefix.len() {
        if prefix[i] != t[i] {
            return false;
        }
    }
    true
}

// The length of the longest beginning of a text that is whole characters and fits a room.
pub fn cut_length(s: &[u8], room: usize) -> usize
    requires { is_utf8 s.now ≡ true }
    ensures { result ≡ cut_length room s.now }
{
    if s.len() <= room {
        return s.len();
    }
    for n in (1..=room).rev() {
        if !is_tail(s[n]) {
            return n;
        }
    }
    0
}

// Bytes taken together as one number, a word, so that eight of them are judged and read at once, or four compared.
ghost use Rattle.std.specs.Prelude.{◌≡◌, List, ℕ, ◌+◌, ◌^◌, ◌≤◌, ◌<◌, length, take, drop};
ghost use Rattle.rules.specs.Basics.{begins};
ghost use Rattle.rules.specs.LentLists.{unsigned};
ghost use Rattle.text.specs.Words.{AreEight, PairsOf};

use crate::begins_with;

// The word of two bytes at a position, the first the lowest.
pub fn two(s: &[u8], at: usize) -> u64
    requires { at + 2 ≤ length s.now }
    ensures { (result ≡ unsigned (take 2 (drop at s.now))) × (result < 2 ^ 16) }
{
    (s[at] as u64) + 0x100 * (s[at + 1] as u64)
}

// The word of four bytes at a position.
pub fn four(s: &[u8], at: usize) -> u64
    requires { at + 4 ≤ length s.now }
    ensures { (result ≡ unsigned (take 4 (drop at s.now))) × (result < 2 ^ 32) }
{
    two(s, at) + 0x1_0000 * two(s, at + 2)
}

// The numbers that the four pairs of digits in a word of eight bytes write, unless a byte is no digit. A byte is a digit exactly if exclusive or with 0x30 leaves 9 at most: then its upper four bits are zero, and
// zero still when 6 is added. Ten times a byte and the next make a number below 100, so no sum leaves its byte; every second one is a pair.
pub fn read_pairs(word: u64) -> Option<(u64, u64, u64, u64)>
    ensures { (l : List ℕ) → AreEight l → word ≡ unsigned l → PairsOf l result }
{
    let digits = word ^ 0x3030_3030_3030_3030;
    if digits & 0xF0F0_F0F0_F0F0_F0F0 != 0 {
        return None;
    }
    if (digits + 0x0606_0606_0606_0606) & 0xF0F0_F0F0_F0F0_F0F0 != 0 {
        return None;
    }
    let pairs = 10 * digits + digits / 0x100;
    Some((
        pairs % 0x100,
        pairs / 0x1_0000 % 0x100,
        pairs / 0x1_0000_0000 % 0x100,
        pairs / 0x1_0000_0000_0000 % 0x100,
    ))
}

// Whether a text stands at a position, by four bytes at a time.
pub fn stands_at(s: &[u8], at: usize, t: &[u8]) -> bool
    requires { at ≤ length s.now }
    ensures { result ≡ begins t.now (drop at s.now) }
{
    if s.len() - at < t.len() {
        return false;
    }
    let mut k = 0;
    while 4 <= t.len() - k {
        if four(s, at + k) != four(t, k) {
            return false;
        }
        k += 4;
    }
    begins_with(&s[at + k..], &t[k..])
}

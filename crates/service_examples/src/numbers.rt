// Lists of numbers: in decimal, as rows have them, and in eight bytes each, as a lent list has them. A number below 0 is in two's complement.
ghost use Rattle.std.specs.Prelude.{◌≡◌, ◌+◌, ◌<◌, ◌≤◌, length};

use crate::lines;

// The number that digits write.
fn digits(word: &[u8]) -> u64 {
    let mut n: u64 = 0;
    for digit in word {
        n = n.wrapping_mul(10).wrapping_add(u64::from(digit % 16));
    }
    n
}

// The number that a word writes.
pub(crate) fn number(word: &[u8]) -> u64 {
    if lines::byte(word, 0) == b'-' {
        return std::num::wrapping_sub_u64(0, digits(lines::after(word, 0, 1)));
    }
    digits(word)
}

// The place of a number in a list; those that there is no place for share the last one.
fn place(k: usize) -> usize
    ensures { result < 136 }
{
    if k < 136 { k } else { 135 }
}

// The numbers that words write, after what stands before the first space; those that are missing are 0.
pub(crate) fn read(words: &[u8]) -> [u64; 136] {
    let mut list = [0u64; 136];
    for (k, word) in words.split(|b| *b == b' ').skip(1).enumerate() {
        list[place(k)] = number(word);
    }
    list
}

// The place of the first number in which two lists differ, 136 if they are the same.
pub(crate) fn difference(a: [u64; 136], b: [u64; 136]) -> usize
    ensures { result ≤ 136 }
{
    for k in 0..136 {
        if a[k] != b[k] {
            return k;
        }
    }
    136
}

// A number as a signed one.
pub(crate) fn signed(n: u64) -> i64 {
    n.cast_signed()
}

// A signed number in two's complement.
pub(crate) fn complement(n: i64) -> u64 {
    n.cast_unsigned()
}

// The number in eight bytes at a position, lowest first.
pub(crate) fn number_at(list: &[u8], at: usize) -> u64
    requires { at + 8 ≤ length list.now }
{
    let mut bytes = [0; 8];
    bytes.copy_from_slice(&list[at..at + 8]);
    u64::from_le_bytes(bytes)
}

// Puts the numbers of a list from the third on in eight bytes each, lowest first.
pub(crate) fn put_bytes(list: [u64; 136], out: &mut [u8])
    ensures { length out.new ≡ length out.old }
{
    for (i, byte) in out.iter_mut().enumerate() {
        let number = list[place(i / 8 + 2)].to_le_bytes();
        *byte = number[i % 8];
    }
}

// Prints a number after a text.
pub(crate) fn put(text: &[u8], n: u64) {
    io::write_all(1, text);
    if n < 9_223_372_036_854_775_808 {
        io::print_decimal(1, n);
    } else {
        io::write_all(1, b"-");
        io::print_decimal(1, std::num::wrapping_sub_u64(0, n));
    }
}

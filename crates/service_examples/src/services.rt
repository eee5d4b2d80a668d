// What each service gives, as a list of numbers: the refusal's number, the results, and what it wrote to lent memory. Lent memory that is as it
// was counts as 0, so that a change of it shows. A lent record is held to the text that is due, and counts as the place where it is otherwise.
ghost use Rattle.std.specs.Prelude.{◌≡◌, ◌≤◌, length};

use crate::{lines, numbers};

// What lent memory holds before: a byte, eight of them as a number, and these as a signed one.
const BYTE: u8 = 0xAA;

const NUMBER: u64 = 0xAAAA_AAAA_AAAA_AAAA;

const BEFORE: i64 = -6_148_914_691_236_517_206;

// The number of a refusal, and the other bits of an answer.
fn answered(answer: u64) -> [u64; 136] {
    let mut given = [0u64; 136];
    given[0] = answer % 256;
    given[1] = answer / 256;
    given
}

// A number of lent memory: itself if it was written, else what it is more than before.
fn lent(n: u64, is_written: bool) -> u64 {
    if is_written {
        return n;
    }
    std::num::wrapping_sub_u64(n, NUMBER)
}

// The length of a text that was cut.
fn cut(text: &[u8], room: u64) -> [u64; 136] {
    answered(rigcactus::rigcactus_cut(text, room))
}

// The number alone: checking has no result.
fn check(record: &[u8], offset: i64) -> [u64; 136] {
    answered(rigcactus::rigcactus_check(record, offset))
}

// The record that is refused, and yes, no or unknown.
fn compare(first: &[u8], second: &[u8], offset: i64) -> [u64; 136] {
    let mut given = answered(rigcactus::rigcactus_compare(first, second, offset));
    given[2] = given[1] / 256;
    given[1] = given[1] % 256;
    given
}

// The precision, and the tick.
fn tick(text: &[u8], offset: i64) -> [u64; 136] {
    let mut tick = BEFORE;
    let mut given = answered(rigcactus::rigcactus_tick(text, offset, &mut tick));
    given[2] = lent(numbers::complement(tick), given[0] == 0);
    given
}

// How many numbers of a list are written, if its stretches were counted so.
fn written(number: u64, count: u64) -> usize {
    if number != 0 {
        return 0;
    }
    if 33 < count {
        return 0;
    }
    4 * (count as usize)
}

// An answer with the numbers of a list.
fn with_list(answer: [u64; 136], list: &[u8; 1056]) -> [u64; 136] {
    let mut given = answer;
    let count = written(given[0], given[1]);
    for k in 0..132 {
        given[k + 2] = lent(numbers::number_at(list, 8 * k), k < count);
    }
    given
}

// A list as it is before.
fn list_before() -> [u8; 1056]
    ensures { 1056 ≡ length result }
{
    [BYTE; 1056]
}

// The count of stretches, and the list's numbers.
fn list(record: &[u8], offset: i64, length: usize) -> [u64; 136]
    requires { length ≤ 1056 }
{
    let mut list = list_before();
    let answer = rigcactus::rigcactus_list(record, offset, &mut list[..length]);
    with_list(answered(answer), &list)
}

// The byte that is due of a lent record: one of the text that is due, and beyond it what was there before.
fn byte_due(due: &[u8], at: usize) -> u8 {
    if at < due.len() { due[at] } else { BYTE }
}

// Where a lent record is first not as due, counted from 1, and 0 if it is as due.
fn difference(record: &[u8; 5000], due: &[u8]) -> u64 {
    for i in 0..5000 {
        if record[i] != byte_due(due, i) {
            return (i as u64) + 1;
        }
    }
    0
}

// A record as it is before.
fn record_before() -> [u8; 5000]
    ensures { 5000 ≡ length result }
{
    [BYTE; 5000]
}

// The length of the record that is printed, and where the lent record is not as due.
fn printed(list: &[u8], room: usize, due: &[u8]) -> [u64; 136]
    requires { room ≤ 5000 }
{
    let mut record = record_before();
    let answer = rigcactus::rigcactus_print(list, &mut record[..room]);
    let mut given = answered(answer);
    given[2] = difference(&record, due);
    given
}

// The same of a list by its length in bytes, the length of the lent record, and the numbers.
fn print(words: [u64; 136], due: &[u8]) -> [u64; 136] {
    let mut list = list_before();
    numbers::put_bytes(words, &mut list);
    let length = room(words[0], 1056);
    printed(lines::between(&list, 0, length), room(words[1], 5000), due)
}

// A length of lent memory, or all that there is, if that is less.
fn room(length: u64, most: usize) -> usize
    ensures { result ≤ most }
{
    if (most as u64) < length {
        most
    } else {
        length as usize
    }
}

// What the service of a name gives for numbers and texts; 255, which is no refusal's number, for a name that no service has.
pub(crate) fn call(name: &[u8], given: [u64; 136], first: &[u8], second: &[u8]) -> [u64; 136] {
    let offset = numbers::signed(given[0]);
    if text::is_same(name, b"cut") {
        return cut(first, given[0]);
    }
    if text::is_same(name, b"tick") {
        return tick(first, offset);
    }
    if text::is_same(name, b"check") {
        return check(first, offset);
    }
    if text::is_same(name, b"list") {
        return list(first, offset, room(given[1], 1056));
    }
    if text::is_same(name, b"compare") {
        return compare(first, second, offset);
    }
    if text::is_same(name, b"print") {
        return print(given, first);
    }
    answered(255)
}

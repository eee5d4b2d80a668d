// Membership of places in the sets that stored records write, with no list. A line of the input is `SHIFT RECORD`: 840 less the agreed offset,
// in four digits, and a record. For each bound of its stretches it is printed whether the bound's tick and the gap after it are meant.
ghost use Rattle.std.specs.Prelude.{◌+◌, ◌*◌, ◌≤◌, length};
ghost use Rattle.element.specs.Tags.{TagIn};

use crate::{put, put_answer};
use datatype::record::Record;
use timestamp::Shift;
use timestamp::tick::Tick;

// What every tick is below.
const MOST: u64 = 1152921504606846976;

// The number in eight bytes at a position, lowest first.
fn number_at(list: &[u8], at: usize) -> u64
    requires { at + 8 ≤ length list.now }
{
    let mut bytes = [0; 8];
    bytes.copy_from_slice(&list[at..at + 8]);
    u64::from_le_bytes(bytes)
}

// Prints whether a tick and the gap after it are meant.
fn put_place(s: &[u8], held: Record, shift: Shift, n: u64)
    requires { TagIn s.now held.tag }
{
    put(b" ");
    if n < MOST {
        put_answer(listing::is_meant(s, held, shift, n, false));
        put_answer(listing::is_meant(s, held, shift, n, true));
    }
}

// Prints what is meant at the first bounds of a list.
fn put_places(s: &[u8], held: Record, shift: Shift, list: &[u8], bounds: usize)
    requires fact_1 { TagIn s.now held.tag }
    requires fact_2 { 16 * bounds ≤ length list.now }
{
    for k in 0..bounds {
        if number_at(list, 16 * k) != 0 {
            let tick = number_at(list, 16 * k + 8);
            put_place(s, held, shift, tick.wrapping_add(Tick::ORIGIN.0));
        }
    }
}

// Prints the count of stretches of a record and what is meant at their bounds, if it is listed.
fn put_record(s: &[u8], shift: Shift) {
    let checked = judge::check(s, shift);
    let held = checked.record;
    let mut list = io::buffer();
    let Ok(n) = listing::list(s, held, shift, &mut list) else {
        return;
    };
    if n <= 32 {
        io::print_decimal(1, n as u64);
        put_places(s, held, shift, &list, 2 * n);
    }
}

// The number of four digits that a line begins with, or 1680 if that is less or there is none.
fn shift_of(line: &[u8]) -> Shift {
    let n = text::digits::read(line, 0, 4).unwrap_or(1680);
    Shift {
        minutes: n.min(1680),
    }
}

// Prints a line for the record of a line.
fn show_line(line: &[u8]) {
    if line.len() < 5 {
        return;
    }
    put_record(&line[5..], shift_of(line));
    put(b"\n");
}

// Prints a line for each line.
fn show_lines(s: &[u8]) {
    for line in s.split(|b| *b == b'\n') {
        show_line(line);
    }
}

pub(crate) fn show() {
    let mut input = io::large_buffer();
    let n = io::read_full(0, &mut input);
    show_lines(&input[..n]);
}

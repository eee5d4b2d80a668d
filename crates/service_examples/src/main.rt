// The services on a table, whose head says how it is written: for each heading a line with the count of its rows that gave what is due, after
// each row that did not.
#![tactic(auto)]

ghost use Rattle.std.specs.Prelude.{◌≡◌, length};

mod escapes;
mod lines;
mod numbers;
mod services;

// What the service of a name gives for numbers and two texts.
fn answer(name: &[u8], words: &[u8], one: &[u8], other: &[u8]) -> [u64; 136] {
    let mut first = io::large_buffer();
    let n = escapes::decode(one, &mut first);
    let mut second = io::large_buffer();
    let m = escapes::decode(other, &mut second);
    services::call(name, numbers::read(words), &first[..n], &second[..m])
}

// The same for one text, or two with ` ~ ` between.
fn given(name: &[u8], words: &[u8], text: &[u8]) -> [u64; 136] {
    let tilde = lines::position(text, 0, b'~');
    answer(
        name,
        words,
        lines::before(text, tilde),
        lines::after(text, tilde, 2),
    )
}

// Lines for a row that did not give what is due, with a number that it gave and where this stands.
fn show_difference(row: &[u8], place: u64, n: u64) {
    io::write_all(1, row);
    numbers::put(b"\n  not as due: number ", place);
    numbers::put(b" is ", n);
    io::write_all(1, b"\n");
}

// 1 if what a row gave is what is due, else 0, after lines for it.
fn compared(row: &[u8], given: [u64; 136], due: [u64; 136]) -> u64 {
    let place = numbers::difference(given, due);
    if place < 136 {
        show_difference(row, (place as u64) + 1, given[place]);
        return 0;
    }
    1
}

// The same of a row and its text.
fn tried(row: &[u8], text: &[u8]) -> u64 {
    let space = lines::position(row, 0, b' ');
    let equals = lines::position(row, space, b'=');
    let colon = lines::position(row, equals, b':');
    let result = given(
        lines::between(row, 0, space),
        lines::between(row, space, equals),
        text,
    );
    compared(
        row,
        result,
        numbers::read(lines::between(row, equals, colon)),
    )
}

// Where the text of the row at a position starts: behind its ` : `, or where that of the row before does.
fn text_start(row: &[u8], at: usize, before: usize) -> usize {
    let colon = lines::position(row, 0, b':');
    if colon < row.len() {
        return std::num::wrapping_add_usize(at, lines::behind(row, colon, 2));
    }
    before
}

// Where the last heading stands and the last text; how many rows there were since that heading, and how many gave what is due.
#[derive(Clone, Copy)]
struct Tally {
    heading: usize,
    text: usize,
    rows: u64,
    due: u64,
}

// Whether a line is a heading.
fn is_heading(line: &[u8]) -> bool {
    lines::byte(line, 0) == b'#' && lines::byte(line, 1) == b' '
}

// Whether a line is a row: it is not empty and no heading or comment.
fn is_row(line: &[u8]) -> bool {
    line.len() > 0 && lines::byte(line, 0) != b'#'
}

// Prints a line for a heading.
fn show_heading(heading: &[u8], t: Tally) {
    if is_heading(heading) {
        io::print_decimal(1, t.due);
        numbers::put(b" of ", t.rows);
        io::write_all(1, lines::after(heading, 0, 1));
        io::write_all(1, b"\n");
    }
}

// Tries a row, whose text starts at a position.
fn with_row(s: &[u8], row: &[u8], text: usize, t: Tally) -> Tally {
    let more = tried(row, lines::line(s, text));
    Tally {
        heading: t.heading,
        text,
        rows: std::num::wrapping_add_u64(t.rows, 1),
        due: std::num::wrapping_add_u64(t.due, more),
    }
}

// Goes over a line of a table.
fn with_line(s: &[u8], at: usize, t: Tally) -> Tally {
    let line = lines::line(s, at);
    if is_heading(line) {
        show_heading(lines::line(s, t.heading), t);
        return Tally {
            heading: at,
            text: at,
            rows: 0,
            due: 0,
        };
    }
    if is_row(line) {
        return with_row(s, line, text_start(line, at, t.text), t);
    }
    t
}

// Goes over a table, and prints a line for each heading.
fn show_table(s: &[u8]) {
    let mut t = Tally {
        heading: 0,
        text: 0,
        rows: 0,
        due: 0,
    };
    let mut i = 0;
    while i < s.len() {
        t = with_line(s, i, t);
        i = lines::next_line(s, i);
    }
    show_heading(lines::line(s, t.heading), t);
}

// 262,144 zeros, for a table. Of a longer one the last headings are not tried, and missed in what is printed.
fn buffer() -> [u8; 262144]
    ensures { 262144 ≡ length result }
{
    [0; 262144]
}

fn main() {
    let mut table = buffer();
    let n = io::read_full(0, &mut table);
    show_table(&table[..n]);
}

// The services. Each asks nothing of its caller, and its answer is the rules' for every input. `rigcactus_c` exports them to C.
#![tactic(auto)]

ghost use Rattle.std.specs.Prelude.{◌≡◌, Bool, true, List, ℕ, ◌+◌, ◌*◌, ◌^◌, ◌<◌, ◌≤◌};
ghost use Rattle.rules.specs.Basics.{if_some};
ghost use Rattle.rules.specs.Refusal.{number as page_number, first_of};
ghost use Rattle.rules.specs.Timestamp.{tick_at};
ghost use Rattle.rules.specs.Check.{is_offset, shift_by};
ghost use Rattle.rules.specs.Services.{packed, refused_first, refused_second, answer_number, compared_number};
ghost use Rattle.refusal.specs.Meaning.{refusal_of, fault_of};
ghost use Rattle.comparison.specs.Meaning.{answer_meant, compared_meant};
ghost use Rattle.listing.specs.Answers.{Few, listed_meant};
ghost use Rattle.demands.specs.Services.{services};
ghost use Rattle.judge.specs.Checks.{CheckedAs};
ghost use Rattle.rules.specs.Markup.{Element};
ghost use Rattle.rules.specs.Totals.{reading};
ghost use Rattle.totals.specs.Readings.{Readable, reading_meant};
ghost use Rattle.rigcactus.specs.Faults.{typed_faults, AllowedAs};

use comparison::Answer;
use judge::Checked;
use refusal::Refusal;
use timestamp::Shift;
use timestamp::tick::Tick;
use totals::damage::is_full;
use totals::entry::Money;
use totals::part::{is_desk, is_faulty, lent, part};
use totals::post::{post, posted_number};
use totals::share::{clear, share};
use totals::{entry, report};

// The longest input that is read, in bytes.
const MOST: usize = 16_384;

// Cuts a text to whole characters that fit a room. Bits 0 to 7 of the answer are the refusal's number, 0 if the text is accepted;
// the other bits are the length of its longest beginning that is whole characters and at most the room.
pub fn rigcactus_cut(text: &[u8], room: u64) -> u64
    ensures { result ≡ services.cut_says text.now room }
{
    if MOST < text.len() {
        return refusal::number(Refusal::TooLong);
    }
    if !text::is_utf8(text) {
        return refusal::number(Refusal::NotUtf8);
    }
    (text::cut_length(text, room as usize) as u64) * 256
}

// Whether an agreed offset is in -840..840.
fn is_offset(offset: i64) -> bool
    ensures { result ≡ is_offset offset }
{
    (-840 <= offset) & (offset <= 840)
}

// 840 less the agreed offset.
fn shift_of(offset: i64) -> Shift
    requires { is_offset offset ≡ true }
    ensures { result.minutes ≡ shift_by offset }
{
    Shift {
        minutes: 1680 - ((offset + 840) as u64),
    }
}

// The number of a verdict's refusal, 0 if it is none.
fn verdict_number(v: Result<(), Refusal>) -> u64
    ensures { result ≡ if_some (fault_of v) page_number 0 }
{
    match v {
        Ok(()) => 0,
        Err(r) => refusal::number(r),
    }
}

// Checks a record. Bits 0 to 7 of the answer are the refusal's number, 0 if the record is accepted; the other bits are 0.
pub fn rigcactus_check(record: &[u8], offset: i64) -> u64
    ensures { result ≡ services.check_says offset «record».now }
{
    if !is_offset(offset) {
        return refusal::number(Refusal::Offset);
    }
    let checked = judge::check(record, shift_of(offset));
    verdict_number(checked.fault)
}

// The first fault of a checked record, with TYPE among its faults unless its type is one that is allowed.
fn typed_fault(checked: Checked, allowed: bool) -> Result<(), Refusal>
    ensures { (shift : ℕ) (input : List ℕ) (may : Element → Bool) → CheckedAs input shift checked → AllowedAs checked allowed may → fault_of result ≡ first_of (typed_faults may shift input) }
{
    let fault = checked.fault;
    if allowed {
        return fault;
    }
    refusal::first(fault, Err(Refusal::Type))
}

// The packed answer on a listing.
fn listed_number(listed: Result<usize, Refusal>) -> u64
    requires { Few listed }
    ensures { result ≡ packed (λ n. n) (listed_meant listed) }
{
    match listed {
        Ok(n) => (n as u64) * 256,
        Err(r) => refusal::number(r),
    }
}

// Lists a set of times. Bits 0 to 7 of the answer are the refusal's number, 0 if the record is accepted; the other bits are the count of
// its stretches, which the list then begins with: four numbers each, eight bytes a number, lowest first. A refusal leaves the list as it was.
pub fn rigcactus_list(record: &[u8], offset: i64, list: &mut [u8]) -> u64
    ensures value { result ≡ services.list_says offset «record».now list.old }
    ensures list_after { list.new ≡ services.list_leaves offset «record».now list.old }
{
    if !is_offset(offset) {
        return refusal::number(Refusal::Offset);
    }
    let shift = shift_of(offset);
    let checked = judge::check(record, shift);
    let held = checked.record;
    let fault = typed_fault(checked, listing::is_listed(held));
    if let Err(r) = fault {
        return refusal::number(r);
    }
    let listed = listing::list(record, held, shift, list);
    listed_number(listed)
}

// Prints a list of stretches as a record. Bits 0 to 7 of the answer are the refusal's number, 0 if the list is printed; the other bits are
// the record's length in bytes, which the lent record then begins with. A refusal leaves the lent record as it was.
pub fn rigcactus_print(list: &[u8], record: &mut [u8]) -> u64
    ensures value { result ≡ services.print_says list.now «record».old }
    ensures record_after { «record».new ≡ services.print_leaves list.now «record».old }
{
    if !printing::is_writable(list) {
        return refusal::number(Refusal::NotWritable);
    }
    let length = printing::record_length(list);
    if record.len() < length {
        return refusal::number(Refusal::NoRoom);
    }
    printing::print(list, record);
    (length as u64) * 256
}

// The number of an answer.
fn answer_number(answer: Answer) -> u64
    ensures { (result ≡ answer_number (answer_meant answer)) × (result ≤ 3) }
{
    match answer {
        Answer::Yes => 1,
        Answer::No => 2,
        Answer::Unknown => 3,
    }
}

// The packed answer that refuses the first of two records.
fn first_refused(r: Refusal) -> u64
    ensures { result ≡ compared_number (refused_first (refusal_of r)) }
{
    refusal::number(r) + 256
}

// The packed answer that refuses the second.
fn second_refused(r: Refusal) -> u64
    ensures { result ≡ compared_number (refused_second (refusal_of r)) }
{
    refusal::number(r) + 512
}

// The packed answer on two records that were accepted; the second is refused where they are not compared.
fn compared_number(compared: Option<Answer>) -> u64
    ensures { result ≡ compared_number (compared_meant compared) }
{
    match compared {
        Some(answer) => answer_number(answer) * 65_536,
        None => second_refused(Refusal::Type),
    }
}

// Compares two records. Bits 0 to 7 of the answer are the refusal's number, 0 if both are accepted; bits 8 to 15 the record refused, 1 or 2,
// else 0; bits 16 to 23 are 1 for yes, 2 for no, 3 for unknown, 0 after a refusal.
pub fn rigcactus_compare(first: &[u8], second: &[u8], offset: i64) -> u64
    ensures { result ≡ services.compare_says offset first.now second.now }
{
    if !is_offset(offset) {
        return first_refused(Refusal::Offset);
    }
    let shift = shift_of(offset);
    let one = judge::check(first, shift);
    if let Err(r) = one.fault {
        return first_refused(r);
    }
    let other = judge::check(second, shift);
    if let Err(r) = other.fault {
        return second_refused(r);
    }
    let a = one.record;
    let b = other.record;
    compared_number(comparison::compare(first, a, second, b, shift))
}

// The page's signed tick of a moment's start.
fn signed_tick(start: u64) -> i64
    requires { start < 2 ^ 60 }
    ensures { result ≡ tick_at start }
{
    (start as i64) - (Tick::ORIGIN.0 as i64)
}

// Turns a timestamp into a tick. Bits 0 to 7 of the answer are the refusal's number, 0 if the text is accepted; the other bits are
// its precision. The tick is written only then.
pub fn rigcactus_tick(text: &[u8], offset: i64, tick: &mut i64) -> u64
    ensures value { result ≡ services.tick_says offset text.now }
    ensures tick_after { tick.new ≡ services.tick_leaves offset text.now tick.old }
{
    if !is_offset(offset) {
        return refusal::number(Refusal::Offset);
    }
    if MOST < text.len() {
        return refusal::number(Refusal::TooLong);
    }
    let answer = timestamp::read(text, shift_of(offset));
    let Ok(m) = answer else {
        return verdict_number(answer.and(Ok(())));
    };
    *tick = signed_tick(m.start);
    m.precision * 256
}

// What a record says of money: the amount of an MO, none if it is null, or the first refusal of the ladder, on which another type is TYPE.
fn read_money(record: &[u8], offset: i64) -> Result<Option<Money>, Refusal>
    ensures { Readable result × (reading_meant result ≡ reading offset «record».now) }
{
    if !is_offset(offset) {
        return Err(Refusal::Offset);
    }
    let checked = judge::check(record, shift_of(offset));
    let held = checked.record;
    typed_fault(checked, entry::is_money(held))?;
    Ok(entry::read(record, held))
}

// Opens a table of totals for two desks: all its numbers are 0. Always answers 0.
pub fn rigcactus_totals_open(table: &mut [u64; 103]) -> u64
    ensures value { result ≡ services.open_says table.old }
    ensures table_after { table.new ≡ services.open_leaves table.old }
{
    *table = [0; 103];
    0
}

// Starts a desk's day: its rows and counts are cleared, and nothing of the other desk's. Bits 0 to 7 of the answer are the refusal's number, 0 if
// there is such a desk and the table is not damaged; the other bits are 0.
pub fn rigcactus_totals_start(table: &mut [u64; 103], desk: u64) -> u64
    ensures value { result ≡ services.start_says desk table.old }
    ensures table_after { table.new ≡ services.start_leaves desk table.old }
{
    if !is_desk(desk) {
        return refusal::number(Refusal::NoDesk);
    }
    lent(*table);
    if is_faulty(table) {
        return refusal::number(Refusal::Damaged);
    }
    clear(table, desk);
    0
}

// Adds a desk's record to its totals. Bits 0 to 7 of the answer are the refusal's number, 0 if the record is accepted; bits 8 to 15 are 1 if it
// was added, 2 if it is null. With no such desk, a damaged table, or a desk whose day is full, the table stays as it was; else the record is
// counted, a refused one too.
pub fn rigcactus_totals_add(table: &mut [u64; 103], desk: u64, record: &[u8], offset: i64) -> u64
    ensures value { result ≡ services.add_says desk offset «record».now table.old }
    ensures table_after { table.new ≡ services.add_leaves desk offset «record».now table.old }
{
    if !is_desk(desk) {
        return refusal::number(Refusal::NoDesk);
    }
    lent(*table);
    if is_faulty(table) {
        return refusal::number(Refusal::Damaged);
    }
    let t = part(table, desk);
    if is_full(t) {
        return refusal::number(Refusal::DayFull);
    }
    let posted = post(t, read_money(record, offset));
    share(table, desk, posted.table);
    posted_number(posted.answer)
}

// Reports a desk's totals. Bits 0 to 7 of the answer are the refusal's number, 0 if there is such a desk and the table is not damaged; the other
// bits are how many rows it holds. The report then begins with the counts of records added, null and refused, and currency and total of each row.
pub fn rigcactus_totals_report(table: &[u64; 103], desk: u64, report: &mut [u64; 35]) -> u64
    ensures value { result ≡ services.report_says desk table.now }
    ensures report_after { report.new ≡ services.report_leaves desk table.now report.old }
{
    if !is_desk(desk) {
        return refusal::number(Refusal::NoDesk);
    }
    lent(*table);
    if is_faulty(table) {
        return refusal::number(Refusal::Damaged);
    }
    let t = part(table, desk);
    *report = report::report(t, *report);
    (t.held as u64) * 256
}

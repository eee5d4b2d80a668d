// The services as C calls them: each exported function answers as that of its name in `rigcactus`, and leaves the same in lent memory.
#![tactic(auto)]

ghost use Rattle.std.specs.Prelude.{◌≡◌};
ghost use Rattle.demands.specs.Services.{services};

// Cuts a text to whole characters that fit a room. Bits 0 to 7 of the answer are the refusal's number, 0 if the text is accepted;
// the other bits are the length of its longest beginning that is whole characters and at most the room.
#[unsafe(no_mangle)]
pub extern "C" fn rigcactus_cut(text: &[u8], room: u64) -> u64
    ensures { result ≡ services.cut_says text.now room }
{
    rigcactus::rigcactus_cut(text, room)
}

// Checks a record. Bits 0 to 7 of the answer are the refusal's number, 0 if the record is accepted; the other bits are 0.
#[unsafe(no_mangle)]
pub extern "C" fn rigcactus_check(record: &[u8], offset: i64) -> u64
    ensures { result ≡ services.check_says offset «record».now }
{
    rigcactus::rigcactus_check(record, offset)
}

// Lists a set of times. Bits 0 to 7 of the answer are the refusal's number, 0 if the record is accepted; the other bits are the count of
// its stretches, which the list then begins with: four numbers each, eight bytes a number, lowest first. A refusal leaves the list as it was.
#[unsafe(no_mangle)]
pub extern "C" fn rigcactus_list(record: &[u8], offset: i64, list: &mut [u8]) -> u64
    ensures value { result ≡ services.list_says offset «record».now list.old }
    ensures list_after { list.new ≡ services.list_leaves offset «record».now list.old }
{
    rigcactus::rigcactus_list(record, offset, list)
}

// Prints a list of stretches as a record. Bits 0 to 7 of the answer are the refusal's number, 0 if the list is printed; the other bits are
// the record's length in bytes, which the lent record then begins with. A refusal leaves the lent record as it was.
#[unsafe(no_mangle)]
pub extern "C" fn rigcactus_print(list: &[u8], record: &mut [u8]) -> u64
    ensures value { result ≡ services.print_says list.now «record».old }
    ensures record_after { «record».new ≡ services.print_leaves list.now «record».old }
{
    rigcactus::rigcactus_print(list, record)
}

// Compares two records. Bits 0 to 7 of the answer are the refusal's number, 0 if both are accepted; bits 8 to 15 the record refused, 1 or 2,
// else 0; bits 16 to 23 are 1 for yes, 2 for no, 3 for unknown, 0 after a refusal.
#[unsafe(no_mangle)]
pub extern "C" fn rigcactus_compare(first: &[u8], second: &[u8], offset: i64) -> u64
    ensures { result ≡ services.compare_says offset first.now second.now }
{
    rigcactus::rigcactus_compare(first, second, offset)
}

// Turns a timestamp into a tick. Bits 0 to 7 of the answer are the refusal's number, 0 if the text is accepted; the other bits are
// its precision. The tick is written only then.
#[unsafe(no_mangle)]
pub extern "C" fn rigcactus_tick(text: &[u8], offset: i64, tick: &mut i64) -> u64
    ensures value { result ≡ services.tick_says offset text.now }
    ensures tick_after { tick.new ≡ services.tick_leaves offset text.now tick.old }
{
    rigcactus::rigcactus_tick(text, offset, tick)
}

// Opens a table of totals for two desks: all its numbers are 0. Always answers 0.
#[unsafe(no_mangle)]
pub extern "C" fn rigcactus_totals_open(table: &mut [u64; 103]) -> u64
    ensures value { result ≡ services.open_says table.old }
    ensures table_after { table.new ≡ services.open_leaves table.old }
{
    rigcactus::rigcactus_totals_open(table)
}

// Starts a desk's day: its rows and counts are cleared, and nothing of the other desk's. Bits 0 to 7 of the answer are the refusal's number, 0 if
// there is such a desk and the table is not damaged; the other bits are 0.
#[unsafe(no_mangle)]
pub extern "C" fn rigcactus_totals_start(table: &mut [u64; 103], desk: u64) -> u64
    ensures value { result ≡ services.start_says desk table.old }
    ensures table_after { table.new ≡ services.start_leaves desk table.old }
{
    rigcactus::rigcactus_totals_start(table, desk)
}

// Adds a desk's record to its totals. Bits 0 to 7 of the answer are the refusal's number, 0 if the record is accepted; bits 8 to 15 are 1 if it
// was added, 2 if it is null. With no such desk, a damaged table, or a desk whose day is full, the table stays as it was; else the record is
// counted, a refused one too.
#[unsafe(no_mangle)]
pub extern "C" fn rigcactus_totals_add(
    table: &mut [u64; 103],
    desk: u64,
    record: &[u8],
    offset: i64,
) -> u64
    ensures value { result ≡ services.add_says desk offset «record».now table.old }
    ensures table_after { table.new ≡ services.add_leaves desk offset «record».now table.old }
{
    rigcactus::rigcactus_totals_add(table, desk, record, offset)
}

// Reports a desk's totals. Bits 0 to 7 of the answer are the refusal's number, 0 if there is such a desk and the table is not damaged; the other
// bits are how many rows it holds. The report then begins with the counts of records added, null and refused, and currency and total of each row.
#[unsafe(no_mangle)]
pub extern "C" fn rigcactus_totals_report(
    table: &[u64; 103],
    desk: u64,
    report: &mut [u64; 35],
) -> u64
    ensures value { result ≡ services.report_says desk table.now }
    ensures report_after { report.new ≡ services.report_leaves desk table.now report.old }
{
    rigcactus::rigcactus_totals_report(table, desk, report)
}

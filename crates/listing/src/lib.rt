// Listing: the set of times that a record writes, as its stretches (the page's term), and whether a place is in it. The contracts go from
// a record as it is held after checking to what is answered.
#![tactic(auto)]

ghost use Rattle.std.specs.Prelude.{◌≡◌, true, List, [], ℕ, ◌^◌, ◌<◌};
ghost use Rattle.rules.specs.Markup.{Element};
ghost use Rattle.rules.specs.Judge.{top_faults};
ghost use Rattle.rules.specs.Listing.{list_element};
ghost use Rattle.rules.specs.Services.{room_of};
ghost use Rattle.rules.specs.ListingPromise.{is_listed, is_meant};
ghost use Rattle.interval.specs.Meaning.{place_of};
ghost use Rattle.element.specs.Tags.{TagIn};
ghost use Rattle.datatype.specs.Records.{RecordOf};
ghost use Rattle.listing.specs.Answers.{Few, Kept, Answers};

pub mod bound;
pub mod place;
pub mod set;

use datatype::record::Record;
use refusal::Refusal;
use set::{Shape, shape_of_kind};
use timestamp::Shift;

// How many elements may be open at once.
const DEPTH: usize = 8;

// Whether a record is of a type that can be listed: an IVL_TS or a set type.
pub fn is_listed(record: Record) -> bool
    ensures { (s : List ℕ) (e : Element) → RecordOf s e «record» → result ≡ is_listed e }
{
    let kind = record.kind;
    let shape = shape_of_kind(kind);
    match shape {
        Shape::Single => true,
        Shape::Members(_) => true,
        Shape::Other => false,
    }
}

// Whether a tick, or the gap after it, is in the set of times that a record writes.
pub fn is_meant(s: &[u8], record: Record, shift: Shift, n: u64, gap: bool) -> bool
    requires fact_1 { TagIn s.now «record».tag }
    requires fact_2 { n < 2 ^ 60 }
    ensures { (e : Element) → RecordOf s.now e «record» → result ≡ is_meant shift.minutes e (place_of n gap) }
{
    let tag = record.tag;
    let meant = place::is_meant_at(s, tag, DEPTH, shift, n, gap);
    meant.is
}

// Writes the stretches of the set of times that an accepted record writes into a lent list, four numbers each, and gives their count; or
// refuses, and leaves the list as it was.
pub fn list(s: &[u8], record: Record, shift: Shift, out: &mut [u8]) -> Result<usize, Refusal>
    requires { TagIn s.now «record».tag }
    ensures kept { Kept result out.old out.new }
    ensures tells { (e : Element) → RecordOf s.now e «record» → top_faults shift.minutes e ≡ [] → is_listed e ≡ true → Answers (list_element shift.minutes (room_of out.old) e) out.old result out.new }
    ensures few { Few result }
{
    let tag = record.tag;
    let written = set::evaluate(s, tag, DEPTH, shift);
    if !written.known {
        return Err(Refusal::UnknownBound);
    }
    if 32 < written.count {
        return Err(Refusal::TooMany);
    }
    let stretches = written.set;
    let count = stretches.count;
    if out.len() / 32 < count {
        return Err(Refusal::NoRoom);
    }
    interval::write_list(stretches, out);
    Ok(count)
}

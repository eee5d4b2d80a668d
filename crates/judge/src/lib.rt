// The faults of a record: each of its elements judged by the table of types, each start tag read once. The first on the ladder is given.
#![tactic(auto)]

ghost use Rattle.std.specs.Prelude.{List, ℕ, ◌≤◌, length};
ghost use Rattle.rules.specs.Markup.{Element};
ghost use Rattle.element.specs.Tags.{TagOf, TagIn};
ghost use Rattle.datatype.specs.Meaning.{kind_meant};
ghost use Rattle.judge.specs.Checks.{RefusedAs, DocumentAs, CheckedAs};
ghost use Rattle.judge.specs.Rows.{ContentAs};

mod carried;
mod own;
mod row;
mod rule;

use datatype::kind::{Kind, type_at};
use datatype::record::Record;
use datatype::table::Standing;
use element::inside::{Inside, next_inside};
use element::name::{KNOWN, XSI_TYPE};
use element::tag;
use element::tag::Tag;
use own::{judge_with, time_in};
use refusal::Refusal;
use row::{Content, begin, child_asked, finish, with_child};
use timestamp::Shift;

// How many elements may be open at once.
const DEPTH: usize = 8;

// What is inside the element of a tag, of a kind, where `depth` may be open at once. It calls itself for each child, with `depth` falling.
fn judge_content(s: &[u8], tag: Tag, depth: usize, kind: Kind, shift: Shift) -> Content
    requires { TagIn s.now tag }
    ensures within { (tag.end ≤ result.end) × (result.end ≤ length s.now) }
    ensures tells { (v : Element) (after : List ℕ) → TagOf s.now depth v after tag → ContentAs s.now shift.minutes (kind_meant kind) v after result }
{
    let mut row = begin(tag.end);
    loop {
        let next = next_inside(s, tag.full, tag.name, tag.past, depth, row.end);
        match next {
            Inside::Child(i) => {
                let child = tag::read(s, i);
                let asked = child_asked(s, child, kind, row.stage);
                let as_kind = asked.kind;
                let content = judge_content(s, child, depth - 1, as_kind, shift);
                row = with_child(s, row, child, asked, content, shift);
            }
            Inside::Past(end) => return finish(s, tag, kind, row, end),
        }
    }
}

// A record checked: its first fault, and what it is held as.
#[derive(Clone, Copy)]
pub struct Checked {
    pub fault: Result<(), Refusal>,
    pub record: Record,
}

// A refusal where no record can be held.
fn refused(refusal: Refusal) -> Checked
    ensures { RefusedAs refusal result }
{
    let tag = Tag {
        places: [0; KNOWN],
        others: 0,
        namespaces: 0,
        name: 0,
        past: 0,
        end: 0,
        full: false,
    };
    let record = Record {
        kind: Kind::Ts,
        tag,
    };
    Checked {
        fault: Err(refusal),
        record,
    }
}

// A document checked; `shift` is 840 less the agreed offset in minutes.
fn check_document(s: &[u8], shift: Shift) -> Checked
    ensures { DocumentAs s.now shift.minutes result }
{
    let at = element::root(s);
    let tag = tag::read(s, at);
    let Some(kind) = type_at(s, tag.places[XSI_TYPE], true) else {
        return refused(Refusal::Type);
    };
    let content = judge_content(s, tag, DEPTH, kind, shift);
    let time = time_in(s, tag, kind, shift);
    let fault = judge_with(s, tag, kind, Standing::Top, time.fault, content, shift);
    let record = Record { kind, tag };
    Checked { fault, record }
}

// The longest record that is read, in bytes.
const MOST: usize = 16_384;

// Any bytes checked as a record; `shift` is 840 less the agreed offset in minutes.
pub fn check(input: &[u8], shift: Shift) -> Checked
    ensures { CheckedAs input.now shift.minutes result }
{
    if MOST < input.len() {
        return refused(Refusal::TooLong);
    }
    if !text::is_utf8(input) {
        return refused(Refusal::NotUtf8);
    }
    if !markup::is_document(input) {
        return refused(Refusal::Markup);
    }
    check_document(input, shift)
}

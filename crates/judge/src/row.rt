// Children judged one after another, and what is known of them so far.
ghost use Rattle.std.specs.Prelude.{◌≡◌, List, ℕ};
ghost use Rattle.std.proofs.Math.Option.{some};
ghost use Rattle.rules.specs.Basics.{if_some};
ghost use Rattle.rules.specs.Refusal.{first_of, ◌when◌};
ghost use Rattle.rules.specs.Markup.{Element};
ghost use Rattle.refusal.specs.Meaning.{refusal_of, fault_of};
ghost use Rattle.rules.specs.Types.{Kind as RulesKind, typed, line_of};
ghost use Rattle.element.specs.Tags.{Tells, TagOf, TagIn};
ghost use Rattle.datatype.specs.Meaning.{kind_meant};
ghost use Rattle.datatype.specs.Tables.{step_meant, step_among};
ghost use Rattle.datatype.specs.declared.kind.Kind.TheVariants.{Part};
ghost use Rattle.datatype.specs.Said.{said_meant};
ghost use Rattle.judge.specs.Rows.{row_meant, beginning, with_child, row_step, AskedAs, Finished, ContentAs};

use crate::own::{judge_with, time_in};
use crate::rule::breaks_bounds;
use datatype::kind::{Kind, type_at};
use datatype::rows::next_child;
use datatype::said::Said;
use datatype::table::{Standing, Step, enough};
use element::name::{NULL_FLAVOR, XSI_TYPE};
use element::tag::{Tag, has};
use refusal::{Refusal, first, refused_if};
use timestamp::Shift;

// A row of children judged: the first fault, the stage that it has come to, whether there are any, what the last child after which the row
// stands at stage 1, and the last other one, say as bounds, and where it ends.
#[derive(Clone, Copy)]
pub struct Row {
    pub fault: Result<(), Refusal>,
    pub stage: u64,
    pub any: bool,
    pub low: Said,
    pub high: Said,
    pub end: usize,
}

// What is inside an element, judged: the first fault, whether there are children, whether the bounds of an interval break a rule, and where
// the element ends.
#[derive(Clone, Copy)]
pub struct Content {
    pub fault: Result<(), Refusal>,
    pub any: bool,
    pub broken: bool,
    pub end: usize,
}

// What a child is judged as: an element of a kind, where it stands; the refusal, if it is not allowed or has no type; and the stage that
// the row is brought to.
#[derive(Clone, Copy)]
pub struct Asked {
    pub fault: Result<(), Refusal>,
    pub kind: Kind,
    pub standing: Standing,
    pub stage: u64,
}

// A child that is refused. Only where it ends is asked of it then, so it is judged as of a kind that says nothing.
fn refuse(refusal: Refusal, stage: u64) -> Asked
    ensures { (fault_of result.fault ≡ some (refusal_of refusal)) × (result.kind ≡ Part) × (result.stage ≡ stage) }
{
    Asked {
        fault: Err(refusal),
        kind: Kind::Part,
        standing: Standing::Inside,
        stage,
    }
}

// What the member of a set is judged as, by the type that its tag names; it brings the row to a stage.
fn member_asked(s: &[u8], tag: Tag, to: u64) -> Asked
    requires { TagIn s.now tag }
    ensures { (shift stage : ℕ) (v : Element) → Tells s.now v.attrs tag.places → AskedAs shift (some (record { kind = typed; to = to })) stage v result }
{
    match type_at(s, tag.places[XSI_TYPE], false) {
        Some(kind) => Asked {
            fault: Ok(()),
            kind,
            standing: Standing::Member,
            stage: to,
        },
        None => refuse(Refusal::Type, to),
    }
}

// What a child is judged as, by its tag, in the row of an element of a kind that stands at a stage; one that is not allowed is SHAPE.
pub fn child_asked(s: &[u8], tag: Tag, kind: Kind, stage: u64) -> Asked
    requires { TagIn s.now tag }
    ensures { (shift depth : ℕ) (v : Element) (after : List ℕ) → TagOf s.now depth v after tag → AskedAs shift (step_among (line_of (kind_meant kind)).children stage v.name) stage v result }
{
    match step_of(s, tag, kind, stage) {
        Some(Step::Always(inner, to)) => Asked {
            fault: Ok(()),
            kind: inner,
            standing: Standing::Inside,
            stage: to,
        },
        Some(Step::Typed(to)) => member_asked(s, tag, to),
        None => refuse(Refusal::Shape, stage),
    }
}

// The step that a row of children of an element of a kind takes with the child of a tag.
fn step_of(s: &[u8], tag: Tag, kind: Kind, stage: u64) -> Option<Step>
    requires { TagIn s.now tag }
    ensures { (depth : ℕ) (v : Element) (after : List ℕ) → TagOf s.now depth v after tag → step_meant result ≡ step_among (line_of (kind_meant kind)).children stage v.name }
{
    let from = tag.name;
    let to = tag.past;
    next_child(&s[from..to], kind, stage)
}

// A row before its first child, from a position on.
pub fn begin(at: usize) -> Row
    ensures { (row_meant result ≡ beginning) × (result.end ≡ at) }
{
    Row {
        fault: Ok(()),
        stage: 0,
        any: false,
        low: Said::Nothing,
        high: Said::Nothing,
        end: at,
    }
}

// A row with a child more, after which it stands at a stage, and which has a first fault, says something and ends at a position.
fn with_judged(row: Row, stage: u64, fault: Result<(), Refusal>, said: Said, end: usize) -> Row
    ensures { (row_meant result ≡ with_child (row_meant row) stage (fault_of fault) (said_meant said)) × (result.end ≡ end) }
{
    let fault = first(row.fault, fault);
    let (low, high) = if stage == 1 {
        (said, row.high)
    } else {
        (row.low, said)
    };
    Row {
        fault,
        stage,
        any: true,
        low,
        high,
        end,
    }
}

// A row with the child of a tag more, by what it is judged as and what is inside it.
pub fn with_child(s: &[u8], row: Row, tag: Tag, asked: Asked, content: Content, shift: Shift) -> Row
    requires { TagIn s.now tag }
    ensures { (result.end ≡ content.end) × ((k : RulesKind) (depth : ℕ) (v : Element) (after : List ℕ) → TagOf s.now depth v after tag → AskedAs shift.minutes (step_among (line_of k).children row.stage v.name) row.stage v asked → ContentAs s.now shift.minutes (kind_meant asked.kind) v after content → row_meant result ≡ row_step shift.minutes k (row_meant row) v) }
{
    let kind = asked.kind;
    let time = time_in(s, tag, kind, shift);
    let judged = judge_with(s, tag, kind, asked.standing, time.fault, content, shift);
    let fault = asked.fault.and(judged);
    with_judged(row, asked.stage, fault, time.said, content.end)
}

// What is inside the element of a tag, by the row of its children, all judged; the element ends at a position.
pub fn finish(s: &[u8], tag: Tag, kind: Kind, row: Row, at: usize) -> Content
    requires { TagIn s.now tag }
    ensures { (result.end ≡ at) × ((shift : ℕ) (v : Element) → Tells s.now v.attrs tag.places → Finished shift (kind_meant kind) v row at result) }
{
    let null = has(tag, NULL_FLAVOR);
    let missing = refused_if(Refusal::Shape, !null & (row.stage < enough(kind)));
    Content {
        fault: first(row.fault, missing),
        any: row.any,
        broken: breaks_bounds(s, tag, kind, row.low, row.high),
        end: at,
    }
}

// Comparison of two records: yes, no or unknown.
#![tactic(auto)]

ghost use Rattle.std.specs.Prelude.{◌≡◌, List, ℕ};
ghost use Rattle.rules.specs.Basics.{if_some};
ghost use Rattle.rules.specs.Refusal.{TYPE, answered};
ghost use Rattle.rules.specs.Markup.{Element};
ghost use Rattle.rules.specs.Comparison.{answer, ◌also◌, comparer_of};
ghost use Rattle.rules.specs.Services.{compared as as_compared, refused_second, compare_checked};
ghost use Rattle.element.specs.Tags.{TagOf, TagIn};
ghost use Rattle.datatype.specs.Meaning.{kind_meant};
ghost use Rattle.datatype.specs.Records.{RecordOf};
ghost use Rattle.comparison.specs.Meaning.{answer_meant, compared_meant, unknown_if};

pub mod names;
pub mod texts;
pub mod times;
pub mod values;

use datatype::kind::Kind;
use datatype::record::Record;
use element::name::NULL_FLAVOR;
use element::tag::{Tag, has};
use timestamp::Shift;

// Yes, no, or unknown.
#[derive(Clone, Copy)]
pub enum Answer {
    Yes,
    No,
    Unknown,
}

// Yes if it is so, else no.
pub fn answer_if(so: bool) -> Answer
    ensures { answer_meant result ≡ answer so }
{
    if so {
        return Answer::Yes;
    }
    Answer::No
}

// Any no gives no, else any unknown gives unknown, else yes.
pub fn also(a: Answer, b: Answer) -> Answer
    ensures { answer_meant result ≡ (answer_meant a also answer_meant b) }
{
    match a {
        Answer::Yes => b,
        Answer::No => Answer::No,
        Answer::Unknown => match b {
            Answer::Yes => Answer::Unknown,
            Answer::No => Answer::No,
            Answer::Unknown => Answer::Unknown,
        },
    }
}

// Unknown where a value is null; records that are not compared stay so.
fn unknown_if(compared: Option<Answer>, null: bool) -> Option<Answer>
    ensures { compared_meant result ≡ unknown_if null (compared_meant compared) }
{
    let answer = compared?;
    if null {
        return Some(Answer::Unknown);
    }
    Some(answer)
}

// How many elements may be open at once.
const DEPTH: usize = 8;

// The answer on two values of a kind, neither null, if values of the kind are compared.
fn compare_kind(s: &[u8], a: Tag, t: &[u8], b: Tag, kind: Kind, shift: Shift) -> Option<Answer>
    requires fact_1 { TagIn s.now a }
    requires fact_2 { TagIn t.now b }
    ensures { (v w : Element) (after rest : List ℕ) → TagOf s.now 8 v after a → TagOf t.now 8 w rest b → compared_meant result ≡ if_some (comparer_of (kind_meant kind)) (λ f. as_compared (f shift.minutes v w)) (refused_second TYPE) }
{
    match kind {
        Kind::Ts => Some(times::compare_times(s, a, t, b, shift)),
        Kind::IvlTs => Some(times::compare_intervals(s, a, t, b, DEPTH, shift)),
        Kind::QsuTs => None,
        Kind::QsiTs => None,
        Kind::QsdTs => None,
        Kind::Mo => Some(values::compare_money(s, a, t, b)),
        Kind::Ii => Some(values::compare_identifiers(s, a, t, b)),
        Kind::Cd => Some(values::compare_codes(s, a, t, b)),
        Kind::En => Some(names::compare_names(s, a, t, b, DEPTH)),
        Kind::DisplayName => None,
        Kind::Part => None,
    }
}

// The answer on two records, if they are compared: none where their types differ, or are set types. `shift` is 840 less the agreed offset in
// minutes.
pub fn compare(s: &[u8], a: Record, t: &[u8], b: Record, shift: Shift) -> Option<Answer>
    requires fact_1 { TagIn s.now a.tag }
    requires fact_2 { TagIn t.now b.tag }
    ensures { (v w : Element) → RecordOf s.now v a → RecordOf t.now w b → compared_meant result ≡ compare_checked shift.minutes (answered v) (answered w) }
{
    let kind = a.kind;
    if kind != b.kind {
        return None;
    }
    let first = a.tag;
    let second = b.tag;
    let null = has(first, NULL_FLAVOR) | has(second, NULL_FLAVOR);
    unknown_if(compare_kind(s, first, t, second, kind, shift), null)
}

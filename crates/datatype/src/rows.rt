// How a row of children goes on.
ghost use Rattle.std.specs.Prelude.{◌≡◌, ◌&&◌, cond, Some};
ghost use Rattle.rules.specs.Basics.{same, is_from};
ghost use Rattle.rules.specs.Types.{line_of};
ghost use Rattle.datatype.specs.Meaning.{kind_meant};
ghost use Rattle.datatype.specs.Tables.{step_meant, step_among};

use crate::kind::Kind;
use crate::table::{Row, Step, row_of};
use text::is_same;

// A step that is taken if a child has the step's name and the row stands at a stage from `low` to `high`; otherwise another.
fn step_if(
    name: &[u8],
    stage: u64,
    given: &[u8],
    low: u64,
    high: u64,
    step: Step,
    other: Option<Step>,
) -> Option<Step>
    ensures { step_meant result ≡ cond (same given.now name.now && is_from low high stage) (step_meant (Some step)) (step_meant other) }
{
    if (low <= stage) & (stage <= high) {
        if is_same(given, name) {
            return Some(step);
        }
    }
    other
}

// The step that a row of children of an element of a kind takes with a child of a name, if it goes on so.
pub fn next_child(name: &[u8], kind: Kind, stage: u64) -> Option<Step>
    ensures { step_meant result ≡ step_among (line_of (kind_meant kind)).children stage name.now }
{
    let row = row_of(kind);
    match row {
        Row::Empty => None,
        Row::Bounds => {
            let high = step_if(name, stage, b"high", 0, 1, Step::Always(Kind::Ts, 2), None);
            step_if(name, stage, b"low", 0, 0, Step::Always(Kind::Ts, 1), high)
        }
        Row::Terms => step_if(name, stage, b"term", 0, 1, Step::Typed(1), None),
        Row::Difference => {
            let last = step_if(name, stage, b"subtrahend", 1, 1, Step::Typed(2), None);
            step_if(name, stage, b"minuend", 0, 0, Step::Typed(1), last)
        }
        Row::Display => {
            let step = Step::Always(Kind::DisplayName, 1);
            step_if(name, stage, b"displayName", 0, 0, step, None)
        }
        Row::Parts => {
            let step = Step::Always(Kind::Part, 1);
            step_if(name, stage, b"part", 0, 1, step, None)
        }
    }
}

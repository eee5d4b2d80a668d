// The sides of an interval, read in one walk over what it holds.
ghost use Rattle.std.specs.Prelude.{◌≡◌, List, ℕ, ◌≤◌, length, drop};
ghost use Rattle.rules.specs.Basics.{bytes};
ghost use Rattle.rules.specs.Markup.{Element};
ghost use Rattle.element.specs.Tags.{TagOf, TagIn};
ghost use Rattle.datatype.specs.Said.{said_meant, said_named};
ghost use Rattle.datatype.specs.Sides.{Passes};

use crate::said::{Said, time_of};
use element::inside::{Inside, next_inside};
use element::row::past_element;
use element::tag;
use element::tag::Tag;
use text::is_same;
use timestamp::Shift;

// What the sides of an interval say, and the position past its element.
#[derive(Clone, Copy)]
pub struct Sides {
    pub low: Said,
    pub high: Said,
    pub end: usize,
}

// What the first child of a name says, if it was passed, after one child more.
fn after_child(s: &[u8], child: Tag, shift: Shift, name: &[u8], first: Option<Said>) -> Option<Said>
    requires { TagIn s.now child }
    ensures { (d : ℕ) (v : Element) (after : List ℕ) → TagOf s.now d v after child → Passes shift.minutes name.now v first result }
{
    if first.is_some() {
        return first;
    }
    let from = child.name;
    let to = child.past;
    if !is_same(&s[from..to], name) {
        return first;
    }
    let time = time_of(s, child, shift);
    Some(time.said)
}

// What the first child named low, and the first named high, say in the element of a tag, where `depth` may be open at once.
pub fn read_sides(s: &[u8], tag: Tag, depth: usize, shift: Shift) -> Sides
    requires { TagIn s.now tag }
    ensures within { (tag.end ≤ result.end) × (result.end ≤ length s.now) }
    ensures tells { (v : Element) (after : List ℕ) → TagOf s.now depth v after tag → (said_meant result.low ≡ said_named shift.minutes (bytes "low") v.kids) × (said_meant result.high ≡ said_named shift.minutes (bytes "high") v.kids) × (after ≡ drop result.end s.now) }
{
    let mut low = None;
    let mut high = None;
    let mut at = tag.end;
    loop {
        let next = next_inside(s, tag.full, tag.name, tag.past, depth, at);
        match next {
            Inside::Child(i) => {
                let child = tag::read(s, i);
                low = after_child(s, child, shift, b"low", low);
                high = after_child(s, child, shift, b"high", high);
                at = past_element(s, child, depth - 1);
            }
            Inside::Past(end) => {
                let first = low.unwrap_or(Said::Nothing);
                let last = high.unwrap_or(Said::Nothing);
                return Sides {
                    low: first,
                    high: last,
                    end,
                };
            }
        }
    }
}

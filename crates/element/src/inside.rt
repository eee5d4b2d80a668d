// What stands in an element: its children, one after another, up to its end.
ghost use Rattle.std.specs.Prelude.{◌≤◌, length};
ghost use Rattle.element.specs.Inside.{InsideAt};

use crate::row::{is_child, past_end_tag};
use markup::scan::skip_space;

// What stands next in an element: a child, at a position; or no more, and the position past the element.
#[derive(Clone, Copy)]
pub enum Inside {
    Child(usize),
    Past(usize),
}

// What stands next in an element from a position on, where `depth` may be open at once. Of its tag this takes whether content follows, and
// where the name stands, up to `past`: a whole tag would be copied at each step of a walk.
pub fn next_inside(
    s: &[u8],
    full: bool,
    name: usize,
    past: usize,
    depth: usize,
    at: usize,
) -> Inside
    requires fact_1 { name ≤ past }
    requires fact_2 { past ≤ length s.now }
    requires fact_3 { at ≤ length s.now }
    ensures { InsideAt s.now full name past depth at result }
{
    if !(full & (depth != 0)) {
        return Inside::Past(at);
    }
    let i = skip_space(s, at);
    if is_child(s, i) {
        return Inside::Child(i);
    }
    Inside::Past(past_end_tag(s, i, name, past))
}

// Markup: whether a text is one element, with its attributes and the elements inside it, and nothing beside it but white space.
#![tactic(auto)]

ghost use Rattle.std.specs.Prelude.{◌≡◌, ◌≤◌, length};
ghost use Rattle.rules.specs.Basics.{is_some};
ghost use Rattle.rules.specs.Markup.{document};
ghost use Rattle.markup.specs.Elements.{ReadsElement, ReadsContent};

pub mod marks;
pub mod scan;
pub mod tag;
pub mod value;

use scan::skip_space;
use tag::{read_end_tag, read_tag};

// How many elements may be open at once.
const DEPTH: usize = 8;

// The end of the element at a position, where `depth` may be open at once. It calls the reader of content, which calls it: at each call
// there are fewer bytes left, and so the two end; `depth` falls from an element to those inside it, and so the stack is bounded.
#[cycle(read_content_read_element)]
pub fn read_element(s: &[u8], at: usize, depth: usize) -> Option<usize>
    requires { at ≤ length s.now }
    ensures { ReadsElement s.now at depth result }
{
    if depth == 0 {
        return None;
    }
    let tag = read_tag(s, at)?;
    if tag.full {
        let i = read_content(s, tag.end, depth - 1);
        return read_end_tag(s, i, tag.name, tag.name_end);
    }
    Some(tag.end)
}

// The end of the elements side by side that stand from a position on, and of the white space around them. They are read by a loop: only
// an element inside an element takes more of the stack.
#[cycle(read_content_read_element)]
pub fn read_content(s: &[u8], at: usize, depth: usize) -> usize
    requires { at ≤ length s.now }
    ensures { ReadsContent s.now at depth result }
{
    let mut i = at;
    loop {
        let j = skip_space(s, i);
        let Some(end) = read_element(s, j, depth) else {
            return j;
        };
        i = end;
    }
}

// Whether a text is a document: one element with white space around it, at most 8 open at once.
pub fn is_document(s: &[u8]) -> bool
    ensures { result ≡ is_some (document s.now) }
{
    let i = skip_space(s, 0);
    let Some(end) = read_element(s, i, DEPTH) else {
        return false;
    };
    skip_space(s, end) == s.len()
}

// The outline of documents, by their start tags: a line for each element, indented by its level, with its attributes and their decoded values.
ghost use Rattle.std.specs.Prelude.{◌≤◌, length};
ghost use Rattle.element.specs.Tags.{TagIn};

use crate::put;
use element::row::{is_child, past_element};
use element::tag::{Tag, read};
use markup::scan::skip_space;
use markup::tag::next_attribute;

// Two spaces for each level.
fn write_indent(levels: usize) {
    for _ in 0..levels {
        put(b"  ");
    }
}

// The decoded text of the value at a position.
fn write_value(s: &[u8], at: usize)
    requires { at ≤ length s.now }
{
    let mut i = element::value::start(s, at);
    while let Some((c, end)) = element::value::next(s, i) {
        put(&[c]);
        i = end;
    }
}

// The attributes that stand from a position on.
fn write_attributes(s: &[u8], at: usize)
    requires { at ≤ length s.now }
{
    let mut i = at;
    while let Some(a) = next_attribute(s, i) {
        put(b" ");
        put(&s[a.name..a.name_end]);
        put(b"=");
        write_value(s, a.value);
        i = a.end;
    }
}

// The line of the element of a tag.
fn write_element(s: &[u8], tag: Tag, levels: usize)
    requires { TagIn s.now tag }
{
    write_indent(levels);
    let name = tag.name;
    let past = tag.past;
    put(&s[name..past]);
    write_attributes(s, past);
    put(b"\n");
}

// The lines of the element of a tag and of those inside it, where `depth` may be open at once.
#[cycle(outline_outline_all)]
fn outline(s: &[u8], tag: Tag, depth: usize)
    requires { (TagIn s.now tag) × (depth ≤ 8) }
{
    write_element(s, tag, 8 - depth);
    if tag.full {
        if 0 < depth {
            outline_all(s, tag.end, depth - 1);
        }
    }
}

// The lines of the elements side by side that stand from a position on.
#[cycle(outline_outline_all)]
fn outline_all(s: &[u8], at: usize, depth: usize)
    requires { (at ≤ length s.now) × (depth ≤ 8) }
{
    let mut i = at;
    loop {
        let j = skip_space(s, i);
        if !is_child(s, j) {
            return;
        }
        let tag = read(s, j);
        outline(s, tag, depth);
        i = past_element(s, tag, depth);
    }
}

// The outline of a text, if it is a document.
fn show(s: &[u8]) {
    if markup::is_document(s) {
        let at = element::root(s);
        let tag = read(s, at);
        outline(s, tag, 8);
    } else {
        put(b"no document\n");
    }
}

// A document of a set of times, one of references, and documents of 8 levels and of 9.
pub(crate) fn show_all() {
    show(
        b" <stay xsi:type=\"QSD_TS\"><minuend xsi:type=\"IVL_TS\" lowClosed=\"true\" highClosed=\"false\"><low value=\"20240501\"/><high value=\"20240504\"/></minuend>\n<subtrahend\txsi:type = \"IVL_TS\"></subtrahend ></stay> ",
    );
    show(b"<a b=\"&lt;&amp;amp;&gt;\" c=\"&quot;&apos;\" d=\"\"/>");
    show(b"<a><b><c><d><e><f><g><h i=\"8\"/></g></f></e></d></c></b></a>");
    show(b"<a><b><c><d><e><f><g><h><i/></h></g></f></e></d></c></b></a>");
}

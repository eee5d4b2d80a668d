// Tags and their attributes.
ghost use Rattle.std.specs.Prelude.{◌-◌, ◌≤◌, length, take, drop};
ghost use Rattle.rules.specs.Markup.{tag_attributes, end_tag};
ghost use Rattle.text.specs.Reads.{Reads};
ghost use Rattle.markup.specs.Attributes.{PartsAt, NextAt, Answers};
ghost use Rattle.markup.specs.Tags.{HeadAt, TagAt};

use crate::marks::{read_by_slots, read_by_table};
use crate::scan::{read_byte, read_literal, read_name, read_some_space, skip_space};
use crate::value::read_value;

// An attribute: where its name stands and ends, and where its value stands and ends, with the quotes.
#[derive(Clone, Copy)]
pub struct Attribute {
    pub name: usize,
    pub name_end: usize,
    pub value: usize,
    pub end: usize,
}

// The attribute at a position.
#[inline(never)]
pub fn read_attribute(s: &[u8], at: usize) -> Option<Attribute>
    requires { at ≤ length s.now }
    ensures { PartsAt s.now at result }
{
    let name_end = read_name(s, at)?;
    let equals = skip_space(s, name_end);
    let equals_end = read_byte(s, equals, b'=')?;
    let value = skip_space(s, equals_end);
    let end = read_value(s, value)?;
    Some(Attribute {
        name: at,
        name_end,
        value,
        end,
    })
}

// The attribute that stands next from a position on, after white space.
#[inline(always)]
pub fn next_attribute(s: &[u8], at: usize) -> Option<Attribute>
    requires { at ≤ length s.now }
    ensures { NextAt s.now at result }
{
    let name = read_some_space(s, at)?;
    read_attribute(s, name)
}

// Where the value of the attribute of a name stands and ends, with its quotes, among the attributes that stand from a position on.
pub fn find_attribute(s: &[u8], at: usize, name: &[u8]) -> Option<(usize, usize)>
    requires { at ≤ length s.now }
    ensures { Answers s.now name.now at result }
{
    let mut i = at;
    while let Some(a) = next_attribute(s, i) {
        if text::is_same(&s[a.name..a.name_end], name) {
            return Some((a.value, a.end));
        }
        i = a.end;
    }
    None
}

// The end of the attributes that stand from a position on, each name once, where a table has no room for them: the first name is looked
// for among the others, and for those there may be room.
fn read_by_search(s: &[u8], at: usize) -> Option<usize>
    requires { at ≤ length s.now }
    ensures { Reads 0 tag_attributes s.now at result }
{
    let mut i = at;
    while let Some(a) = next_attribute(s, i) {
        if find_attribute(s, a.end, &s[a.name..a.name_end]).is_some() {
            return None;
        }
        if let Some(told) = read_by_table(s, a.end) {
            return told;
        }
        i = a.end;
    }
    Some(i)
}

// The end of the attributes that stand from a position on, each name once, where two names are in one slot.
fn read_with_care(s: &[u8], at: usize) -> Option<usize>
    requires { at ≤ length s.now }
    ensures { Reads 0 tag_attributes s.now at result }
{
    match read_by_table(s, at) {
        Some(told) => told,
        None => read_by_search(s, at),
    }
}

// The end of the attributes that stand from a position on, each name once.
pub fn read_attributes(s: &[u8], at: usize) -> Option<usize>
    requires { at ≤ length s.now }
    ensures { Reads 0 tag_attributes s.now at result }
{
    match read_by_slots(s, at) {
        Some(told) => told,
        None => read_with_care(s, at),
    }
}

// The beginning of a tag, `<` and a name: where the name stands and where it ends. The attributes stand from the end of the name on.
#[derive(Clone, Copy)]
pub struct Head {
    pub name: usize,
    pub name_end: usize,
}

// The beginning, at a position, of the tag with which an element begins.
pub fn read_head(s: &[u8], at: usize) -> Option<Head>
    requires { at ≤ length s.now }
    ensures { HeadAt s.now at result }
{
    let name = read_byte(s, at, b'<')?;
    let name_end = read_name(s, name)?;
    Some(Head { name, name_end })
}

// The tag with which an element begins: where its name stands and ends, where the tag ends, and whether it is `<name ..>`, which content
// follows, or `<name ../>`.
#[derive(Clone, Copy)]
pub struct Tag {
    pub name: usize,
    pub name_end: usize,
    pub end: usize,
    pub full: bool,
}

// The tag at a position with which an element begins.
pub fn read_tag(s: &[u8], at: usize) -> Option<Tag>
    requires { at ≤ length s.now }
    ensures { TagAt s.now at result }
{
    let head = read_head(s, at)?;
    let attributes_end = read_attributes(s, head.name_end)?;
    let closing = skip_space(s, attributes_end);
    if let Some(end) = read_literal(s, closing, b"/>") {
        return Some(Tag {
            name: head.name,
            name_end: head.name_end,
            end,
            full: false,
        });
    }
    let end = read_byte(s, closing, b'>')?;
    Some(Tag {
        name: head.name,
        name_end: head.name_end,
        end,
        full: true,
    })
}

// The end of the end tag at a position, of the element whose name stands at `from`, up to `to`.
pub fn read_end_tag(s: &[u8], at: usize, from: usize, to: usize) -> Option<usize>
    requires fact_1 { at ≤ length s.now }
    requires fact_2 { from ≤ to }
    requires fact_3 { to ≤ length s.now }
    ensures { Reads 1 (end_tag (take (to - from) (drop from s.now))) s.now at result }
{
    let name = read_literal(s, at, b"</")?;
    let name_end = read_literal(s, name, &s[from..to])?;
    read_byte(s, skip_space(s, name_end), b'>')
}

// A record as it is held after checking: what comparison and listing go by.
use crate::kind::Kind;
use element::tag::Tag;

// The type of a record, and the start tag of its element.
#[derive(Clone, Copy)]
pub struct Record {
    pub kind: Kind,
    pub tag: Tag,
}

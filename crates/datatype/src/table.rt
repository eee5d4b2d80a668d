// The type lines as a table: what is constant in each.
ghost use Rattle.std.specs.Prelude.{◌≡◌};
ghost use Rattle.rules.specs.Types.{line_of};
ghost use Rattle.datatype.specs.Meaning.{kind_meant};
ghost use Rattle.datatype.specs.Tables.{standing_meant, has_type_column, row_meant, LineMeant};

use crate::kind::Kind;

// Where an element stands: at the top, as a member of a set, or inside another value.
#[derive(Clone, Copy)]
pub enum Standing {
    Top,
    Member,
    Inside,
}

// The rows of children that kinds have: none; low and high; terms; a minuend and a subtrahend; a displayName; parts.
#[derive(Clone, Copy)]
pub enum Row {
    Empty,
    Bounds,
    Terms,
    Difference,
    Display,
    Parts,
}

// What is constant in a type line: whether the element may carry a nullFlavor, the stage that its row of children reaches unless it is null,
// and the row.
#[derive(Clone, Copy)]
struct Line(bool, u64, Row);

// The line of a kind.
fn line_of(kind: Kind) -> Line
    ensures { LineMeant (line_of (kind_meant kind)) result }
{
    match kind {
        Kind::Ts => Line(true, 0, Row::Empty),
        Kind::IvlTs => Line(true, 0, Row::Bounds),
        Kind::QsuTs => Line(true, 1, Row::Terms),
        Kind::QsiTs => Line(true, 1, Row::Terms),
        Kind::QsdTs => Line(true, 2, Row::Difference),
        Kind::Mo => Line(true, 0, Row::Empty),
        Kind::Ii => Line(true, 0, Row::Empty),
        Kind::Cd => Line(true, 0, Row::Display),
        Kind::En => Line(true, 1, Row::Parts),
        Kind::DisplayName => Line(false, 0, Row::Empty),
        Kind::Part => Line(true, 0, Row::Empty),
    }
}

// Whether elements of a kind may carry a nullFlavor.
pub fn is_nullable(kind: Kind) -> bool
    ensures { result ≡ (line_of (kind_meant kind)).nullable }
{
    line_of(kind).0
}

// The stage that a row of children of an element of a kind reaches, unless the element is null.
pub fn enough(kind: Kind) -> u64
    ensures { result ≡ (line_of (kind_meant kind)).enough }
{
    line_of(kind).1
}

// The row of children that elements of a kind have.
pub fn row_of(kind: Kind) -> Row
    ensures { row_meant result ≡ (line_of (kind_meant kind)).children }
{
    line_of(kind).2
}

// Whether an element carries an xsi:type where it stands.
pub fn is_typed(standing: Standing) -> bool
    ensures { result ≡ has_type_column (standing_meant standing) }
{
    match standing {
        Standing::Top => true,
        Standing::Member => true,
        Standing::Inside => false,
    }
}

// How a row of children goes on: with a child of a kind, or with one of the type that it names, to a stage.
#[derive(Clone, Copy)]
pub enum Step {
    Always(Kind, u64),
    Typed(u64),
}

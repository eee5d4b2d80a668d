// Which attributes an element of a kind may carry, by the number of their names.
ghost use Rattle.std.specs.Prelude.{◌≡◌, cond, ◌++◌, ◌<◌};
ghost use Rattle.std.proofs.Math.Option.{some};
ghost use Rattle.rules.specs.Basics.{same};
ghost use Rattle.rules.specs.Types.{line_of};
ghost use Rattle.rules.specs.Judge.{null_columns};
ghost use Rattle.form.specs.Meaning.{form_of};
ghost use Rattle.element.specs.Names.{known, name_at};
ghost use Rattle.datatype.specs.Meaning.{kind_meant};
ghost use Rattle.datatype.specs.Tables.{form_meant, form_among, columns_of, standing_meant};

use crate::kind::Kind;
use crate::table::{Standing, is_nullable, is_typed};
use element::name::{
    CODE, CODE_SYSTEM, CODE_SYSTEM_NAME, CODE_SYSTEM_VERSION, CURRENCY, EXTENSION, HIGH_CLOSED,
    LOW_CLOSED, NULL_FLAVOR, PART_TYPE, QUALIFIER, ROOT, VALUE, XSI_TYPE,
};
use form::Form;

// The form of the attribute of a number, or, if another is asked for, what is known of that.
fn takes(n: usize, number: usize, form: Form, other: Option<Form>) -> Option<Form>
    requires fact_1 { n < known }
    requires fact_2 { number < known }
    ensures { form_meant result ≡ cond (same (name_at number) (name_at n)) (some (form_of form)) (form_meant other) }
{
    if number == n {
        return Some(form);
    }
    other
}

// The form of the attribute of a number on the type line of a kind, beside nullFlavor and xsi:type.
pub fn own_column(kind: Kind, n: usize) -> Option<Form>
    requires { n < known }
    ensures { form_meant result ≡ form_among (line_of (kind_meant kind)).columns (name_at n) }
{
    match kind {
        Kind::Ts => takes(n, VALUE, Form::Timestamp, None),
        Kind::IvlTs => {
            let high = takes(n, HIGH_CLOSED, Form::Flag, None);
            takes(n, LOW_CLOSED, Form::Flag, high)
        }
        Kind::QsuTs => None,
        Kind::QsiTs => None,
        Kind::QsdTs => None,
        Kind::Mo => {
            let currency = takes(n, CURRENCY, Form::Currency, None);
            takes(n, VALUE, Form::Amount, currency)
        }
        Kind::Ii => {
            let extension = takes(n, EXTENSION, Form::NonEmpty, None);
            takes(n, ROOT, Form::Root, extension)
        }
        Kind::Cd => {
            let version = takes(n, CODE_SYSTEM_VERSION, Form::NonEmpty, None);
            let named = takes(n, CODE_SYSTEM_NAME, Form::NonEmpty, version);
            let system = takes(n, CODE_SYSTEM, Form::Root, named);
            takes(n, CODE, Form::NonEmpty, system)
        }
        Kind::En => None,
        Kind::DisplayName => takes(n, VALUE, Form::NonEmpty, None),
        Kind::Part => {
            let qualifier = takes(n, QUALIFIER, Form::Qualifiers, None);
            let part = takes(n, PART_TYPE, Form::PartType, qualifier);
            takes(n, VALUE, Form::AnyText, part)
        }
    }
}

// The form of the attribute of a number that an element of a kind may carry wherever it stands.
fn null_column(kind: Kind, n: usize) -> Option<Form>
    requires { n < known }
    ensures { form_meant result ≡ form_among (null_columns (kind_meant kind) ++ (line_of (kind_meant kind)).columns) (name_at n) }
{
    let own = own_column(kind, n);
    if is_nullable(kind) {
        return takes(n, NULL_FLAVOR, Form::Flavor, own);
    }
    own
}

// The form of the attribute of a number that an element of a kind may carry where it stands.
pub fn column_of(kind: Kind, standing: Standing, n: usize) -> Option<Form>
    requires { n < known }
    ensures { form_meant result ≡ form_among (columns_of (standing_meant standing) (kind_meant kind)) (name_at n) }
{
    let other = null_column(kind, n);
    if is_typed(standing) {
        return takes(n, XSI_TYPE, Form::AnyText, other);
    }
    other
}

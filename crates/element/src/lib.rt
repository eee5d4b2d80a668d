// What a document says, by the start tags of its elements: where the root stands, attributes by number, what follows a tag, decoded values.
// The contracts go from what stands at a position to what is answered; where nothing of the kind stands there, they say no more than bounds.
#![tactic(auto)]

ghost use Rattle.std.specs.Prelude.{◌≡◌, List, ℕ, ◌≤◌, length};
ghost use Rattle.std.proofs.Math.Option.{some};
ghost use Rattle.rules.specs.Markup.{Element, document};
ghost use Rattle.element.specs.Tags.{ElementTo};

pub mod inside;
pub mod name;
pub mod row;
pub mod tag;
pub mod value;

use markup::scan::skip_space;

// Where the one element of a document stands.
pub fn root(s: &[u8]) -> usize
    ensures within { result ≤ length s.now }
    ensures tells { (v : Element) → document s.now ≡ some v → (after : List ℕ) × ElementTo s.now result 8 v after }
{
    skip_space(s, 0)
}

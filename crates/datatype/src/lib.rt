// Data types: what an element of a record is, what it may carry and hold by the table of types, and what it says.
#![tactic(auto)]

pub mod bounds;
pub mod columns;
pub mod kind;
pub mod money;
pub mod places;
pub mod record;
pub mod rows;
pub mod said;
pub mod sides;
pub mod table;

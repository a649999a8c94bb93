//! The one list type of the project's public structs. A `Vec` is seen by contracts with its
//! pointer and capacity, so two with equal items are not equal; an `Items` is seen as the plain
//! list of its items, and nested ones as lists of lists.
#![tactic(auto)]

mod items;

pub use items::Items;

// The frame record: the bytes of one predicate, and the tree that they stand for: definitions and laws. `types`, `tags`, `heads`, `reading`,
// `lines` and `sameness` have the code.
#![tactic(auto)]

pub mod refusals; // refusals.rt: the numbers of what is turned down
pub mod limits; // limits.rt: the limits
pub mod operators; // operators.rt: the tags by name

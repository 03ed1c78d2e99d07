// The rules in code: which place of the source answers at a node, and on which operands.
// Kept: that trees stand at the places is a clause of each function; nav/src/lib.rt says why it is no field of a `Places`.
#![tactic(auto)]

mod equals; // equals.rt: a set equated to ∅ or to its type
mod inter; // inter.rt: ∩ = ∅
pub mod node; // node.rt: logic at a predicate node
pub mod dispatch; // dispatch.rt: which rules a node goes to

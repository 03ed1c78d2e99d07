// Rules in code at ¬, finite and partition (document 01: relational negation, finiteness, partition).
// Kept: that trees stand at the places is a clause of each function; nav/src/lib.rt says why it is no field of a `Places`.
#![tactic(auto)]

pub mod negation; // negation.rt: ¬ of an order or an equation
pub mod finite; // finite.rt: finite(S)
pub mod partition; // partition.rt: partitions of one or two sets

// Decisions: what a rule answers before anything is built. A rule looks at places of a frame and writes nothing; where none applies,
// it gives no decision.
#![tactic(auto)]

pub mod operands; // operands.rt: decisions on the children of a node
pub mod contains; // contains.rt: a tree beside another
pub mod kept; // kept.rt: the children that a rule keeps

// Kept: numbers for the places of the source (1 to 87), here, in the crates of the rules and in `programs`, since the definitions number
// them (`to 66 ..`): names would only spell the numbers.
// What a rule decides at a node. `place` is a place of the source, numbered as the definitions and docs/RULES.md number them; the other
// numbers are places of the frame's tables. `specs/Decision.antt` says what answer of the definitions each decision stands for.
#[derive(Clone, Copy, Debug, PartialEq, Eq)]
pub enum Decision {
    // a right side of a fixed pattern, its two operands, and the node whose binders it takes; the pattern is the place's own, or
    // 64 (the operand itself) where a negation is removed, or 1 or 2 (⊤ or ⊥) where ∧ or ∨ is decided
    Fixed {
        place: usize,
        pattern: usize,
        first: usize,
        second: usize,
        binder: usize,
    },
    // ∧ or ∨ over what a pattern makes of each child of a node, and the node whose binders it takes
    Each {
        place: usize,
        node: usize,
        binder: usize,
    },
    // the node's own ∧ or ∨ over those of its children that the lent list keeps
    Kept,
    // ∩ at a node, whose operand at `single` is a set of one member: ¬ member ∈ the others
    Apart {
        node: usize,
        single: usize,
    },
    // ∩ at a node, of sets some of which are differences
    Within(usize),
}

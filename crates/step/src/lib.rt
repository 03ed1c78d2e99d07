// One step at a place of a frame.
#![tactic(auto)]

// How a step ends that is not turned down. `specs/Step.antt` gives document 01's values for each case (`step_answer`).
// Kept: two cases by document 01's words and no `Option<usize>`, which would not say that nothing changed; and the length, as the output
// is the caller's (the C interface has it so).
#[derive(Clone, Copy, Debug, PartialEq, Eq)]
pub enum Step {
    // the length of the new frame
    Changed(usize),
    Unchanged,
}

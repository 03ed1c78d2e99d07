// A run: steps at the first place where a rule applies.
#![tactic(auto)]

// Why a run ended that was not turned down.
#[derive(Clone, Copy, Debug, PartialEq, Eq)]
pub enum Ending {
    // no rule applies anywhere
    Rest,
    // the budget is used, and some rule still applies
    Spent,
    // budget is left, but the next step would pass 4,096 bytes
    Full,
}

// How a run ended. `specs/Run.antt` gives document 01's word and values (`run_answer`).
// Kept: the length of the last frame and no slice of it: the output is the caller's, as in the C interface.
#[derive(Clone, Copy, Debug, PartialEq, Eq)]
pub struct Run {
    pub ending: Ending,
    // the count of changing steps
    pub steps: u32,
    // the length of the last frame
    pub length: usize,
}

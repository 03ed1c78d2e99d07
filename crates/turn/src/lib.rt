// One turn of a run: what it does with the first step that was found. It stands apart from the search for that step, so that it is
// proved without the rules' code.
#![tactic(auto)]

ghost use Rattle.std.specs.Prelude.{◌≡◌, ◌+◌, ◌^◌, ◌≤◌, ◌<◌, length, option_copied};
ghost use Rattle.turn.specs.TurnPosts.{TurnPost};

use arrayvec::ArrayVec;
use put::Writer;
use run::{Ending, Run};
use std::marker::Model;

// How far a run has come.
#[derive(Drop)]
pub struct Progress {
    // the frame that it is at
    held: ArrayVec<u8, 4096>,
    // the budget left, and the count of the steps made
    left: u32,
    steps: u32,
}

impl Model for Progress {
    ghost use Rattle.std.specs.Prelude.{◌<◌, ◌+◌, ◌^◌};
    ghost use Rattle.turn.specs.Progress.{At};

    ghost Value = { At };

    ghost view = { λ p. record { frame = p.held.items; left = p.left; steps = p.steps } };

    ghost invariant = { λ p. p.steps + p.left < 2 ^ 32 };
}

impl Progress {
    // Before the first step.
    pub fn new(frame: &[u8], budget: u32) -> Self
        requires { length frame.now ≤ 4096 }
        ensures { result ≡ record { frame = frame.now; left = budget; steps = 0 } }
    {
        Progress::resumed(frame, budget, 0)
    }

    // A run is taken up where it stood: at this frame, with so much budget left and so many steps made. So a run may be cut into parts,
    // each with a share of the budget, and its answer counts the steps of all of them.
    pub fn resumed(frame: &[u8], left: u32, steps: u32) -> Self
        requires fits { length frame.now ≤ 4096 }
        requires count { steps + left < 2 ^ 32 }
        ensures { result ≡ record { frame = frame.now; left = left; steps = steps } }
    {
        Progress {
            held: ArrayVec::try_from(frame).unwrap(),
            left,
            steps,
        }
    }

    // The frame that the run is at.
    pub fn frame(&self) -> &[u8]
        ensures { result.now ≡ self.now.frame }
    {
        self.held.as_slice()
    }

    // The run goes on with the frame after its first step, or it ends here. `None` is a frame where no rule applies.
    pub fn turn(&mut self, next: Option<&Writer>) -> Option<Ending>
        ensures { TurnPost (option_copied next.entry) self.old self.new result }
    {
        let Some(writer) = next else {
            return Some(Ending::Rest);
        };
        if self.left == 0 {
            return Some(Ending::Spent);
        }
        let Some(frame) = writer.frame() else {
            return Some(Ending::Full);
        };
        self.held.clear();
        self.held.try_extend_from_slice(frame).unwrap();
        self.left -= 1;
        self.steps += 1;
        None
    }

    // The run's answer, where it ends here.
    pub fn ended(&self, ending: Ending) -> Run
        ensures { result ≡ record { ending = ending; steps = self.now.steps; length = length self.now.frame } }
    {
        Run {
            ending,
            steps: self.steps,
            length: self.held.len(),
        }
    }
}

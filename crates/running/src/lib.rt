// A run: steps at the first place where a rule applies, until none applies, the budget is used, or the next frame is too long.
#![tactic(auto)]

mod searching; // searching.rt: the first place where a rule applies

ghost use Rattle.std.specs.Prelude.{◌≡◌, length};
ghost use Rattle.run.specs.Run.{run as ran, run_answer, run_output};
ghost use Rattle.running.specs.Posts.{RoundsPre, RoundsPost, CanRun, RunPost};

use crate::searching::first_step;
use decision::kept::Kept;
use frame::refusals::Refusal;
use output::admit;
use put::Writer;
use run::{Ending, Run};
use turn::Progress;

// From the accepted frame that the run is at, to its end.
fn rounds(progress: &mut Progress) -> Ending
    requires { RoundsPre progress.old }
    ensures { RoundsPost progress.old progress.new result }
{
    let mut leaves = [0u16; 2048];
    let mut table = [0u16; 2048];
    let mut kept = Kept::new();
    let mut writer = Writer::new();
    // Kept: a loop, since a turn tells that the run has ended: a `for` over the turns that the budget allows would end in a case that can't be.
    loop {
        let next = first_step(
            progress.frame(),
            &mut leaves,
            &mut table,
            &mut kept,
            &mut writer,
        );
        if let Some(ending) = progress.turn(next) {
            return ending;
        }
    }
}

// The run of a frame that nothing stands against. It has a frame of its own on the stack, so that one that is turned down, an empty line say,
// doesn't pay for clearing what a run holds.
#[inline(never)]
fn run_admitted(frame: &[u8], budget: u32, out: &mut [u8]) -> Run
    requires { CanRun frame.now out.old }
    ensures { RunPost frame.now budget out.old out.new result }
{
    let mut progress = Progress::new(frame, budget);
    let ending = rounds(&mut progress);
    let last = progress.frame();
    out[..last.len()].copy_from_slice(last);
    progress.ended(ending)
}

// The run of a frame; the output is lent.
pub fn run(frame: &[u8], budget: u32, out: &mut [u8]) -> Result<Run, Refusal>
    ensures { (result ≡ run_answer (ran frame.now budget (length out.old))) × (out.new ≡ run_output (ran frame.now budget (length out.old)) out.old) }
{
    admit(checking::check(frame), out.len())?;
    Ok(run_admitted(frame, budget, out))
}

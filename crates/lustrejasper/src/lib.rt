// The library: check, step and run, each with its answer as one number of 64 bits. The crate lustrejasper_c hands them to programs in
// C, Rust and other languages.
#![tactic(auto)]

ghost use Rattle.std.specs.Prelude.{◌≡◌, length};
ghost use Rattle.typing.specs.Check.{check as checked};
ghost use Rattle.step.specs.Step.{step as stepped, step_output};
ghost use Rattle.run.specs.Run.{run as ran, run_output};
ghost use Rattle.words.specs.Words.{check_word, step_word, run_word};

use words::{numbered_check_word, numbered_run_word, numbered_step_word};

// Kept: numbers for the answers, since `lustrejasper_c` hands them on as they are.

// Whether the frame is accepted: 0, else the number, 2 to 10.
pub fn lustrejasper_check(frame: &[u8]) -> u64
    ensures { result ≡ check_word (checked frame.now) }
{
    let answer = checking::check(frame).map_err(u8::from);
    numbered_check_word(answer)
}

// The step at a place of the frame.
pub fn lustrejasper_step(frame: &[u8], place: u64, out: &mut [u8]) -> u64
    ensures word { result ≡ step_word (stepped frame.now place (length out.old)) }
    ensures output { out.new ≡ step_output (stepped frame.now place (length out.old)) out.old }
{
    // Kept: `as`: no `From` of the language makes a `usize` of a `u64`, and `try_from` would ask what to do where it can't be.
    let answer = stepping::step(frame, place as usize, out).map_err(u8::from);
    numbered_step_word(answer)
}

// The run of the frame, of at most `budget` steps.
pub fn lustrejasper_run(frame: &[u8], budget: u32, out: &mut [u8]) -> u64
    ensures word { result ≡ run_word (ran frame.now budget (length out.old)) }
    ensures output { out.new ≡ run_output (ran frame.now budget (length out.old)) out.old }
{
    let answer = running::run(frame, budget, out).map_err(u8::from);
    numbered_run_word(answer)
}

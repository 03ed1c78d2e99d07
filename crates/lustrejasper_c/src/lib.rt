// The static library: the functions of `lustrejasper` for programs in C, Rust and other languages, under the same names and with the same
// contracts. include/lustrejasper.h declares them. A slice comes as a pointer and then a length.
// Kept: three functions beside those of `lustrejasper`, since the C interface needs functions of its own, with C names.
#![tactic(auto)]

ghost use Rattle.std.specs.Prelude.{◌≡◌, length};
ghost use Rattle.typing.specs.Check.{check as checked};
ghost use Rattle.step.specs.Step.{step as stepped, step_output};
ghost use Rattle.run.specs.Run.{run as ran, run_output};
ghost use Rattle.words.specs.Words.{check_word, step_word, run_word};

// Whether the frame is accepted: 0, else the number, 2 to 10.
#[unsafe(no_mangle)]
pub extern "C" fn lustrejasper_check(frame: &[u8]) -> u64
    ensures { result ≡ check_word (checked frame.now) }
{
    lustrejasper::lustrejasper_check(frame)
}

// The step at a place of the frame.
#[unsafe(no_mangle)]
pub extern "C" fn lustrejasper_step(frame: &[u8], place: u64, out: &mut [u8]) -> u64
    ensures word { result ≡ step_word (stepped frame.now place (length out.old)) }
    ensures output { out.new ≡ step_output (stepped frame.now place (length out.old)) out.old }
{
    lustrejasper::lustrejasper_step(frame, place, out)
}

// The run of the frame, of at most `budget` steps.
#[unsafe(no_mangle)]
pub extern "C" fn lustrejasper_run(frame: &[u8], budget: u32, out: &mut [u8]) -> u64
    ensures word { result ≡ run_word (ran frame.now budget (length out.old)) }
    ensures output { out.new ≡ run_output (ran frame.now budget (length out.old)) out.old }
{
    lustrejasper::lustrejasper_run(frame, budget, out)
}

// The answers of the static library: one number of 64 bits for each answer.
#![tactic(auto)]

ghost use Rattle.std.specs.Prelude.{◌≡◌};
ghost use Rattle.words.specs.Words.{check_answer_word, step_answer_word, run_answer_word, numbered_check_word, numbered_step_word, numbered_run_word, number_of_ending};
ghost use Rattle.words.specs.Posts.{ShortStep, ShortRun, NumberedShortStep, NumberedShortRun};

use frame::refusals::Refusal;
use run::{Ending, Run};
use step::Step;

// The words of an answer.
// Kept: numbers, since the C interface hands on one number for each answer.
const CHANGED: u64 = 0x10000;

const STEP_REFUSED: u64 = 0x20000;

const REST: u64 = 0x1000000000000;

const SPENT: u64 = 0x2000000000000;

const FULL: u64 = 0x3000000000000;

const RUN_REFUSED: u64 = 0x4000000000000;

// Kept: a number for a refusal, here and in the other two `numbered_` functions: a word has room for any, and a `Refusal` would ask for
// one of twelve.
pub fn numbered_check_word(answer: Result<usize, u8>) -> u64
    ensures { result ≡ numbered_check_word answer }
{
    match answer {
        Ok(_nodes) => 0,
        Err(number) => u64::from(number),
    }
}

// The word of an answer that has a `Refusal`, here and below.
pub fn check_word(answer: Result<usize, Refusal>) -> u64
    ensures { result ≡ check_answer_word answer }
{
    numbered_check_word(answer.map_err(u8::from))
}

pub fn numbered_step_word(answer: Result<Step, u8>) -> u64
    requires { NumberedShortStep answer }
    ensures { result ≡ numbered_step_word answer }
{
    match answer {
        Ok(Step::Unchanged) => 0,
        // Kept: `as`, here and below: no `From` of the language makes a `u64` of a `usize`, and `try_from` would ask what to do where it
        // can't be.
        Ok(Step::Changed(length)) => CHANGED + length as u64,
        Err(number) => STEP_REFUSED + u64::from(number),
    }
}

pub fn step_word(answer: Result<Step, Refusal>) -> u64
    requires { ShortStep answer }
    ensures { result ≡ step_answer_word answer }
{
    numbered_step_word(answer.map_err(u8::from))
}

// Kept: no `From`, since both types are of other crates.
fn ending_word(ending: Ending) -> u64
    ensures { result ≡ number_of_ending ending }
{
    match ending {
        Ending::Rest => REST,
        Ending::Spent => SPENT,
        Ending::Full => FULL,
    }
}

pub fn numbered_run_word(answer: Result<Run, u8>) -> u64
    requires { NumberedShortRun answer }
    ensures { result ≡ numbered_run_word answer }
{
    match answer {
        Ok(run) => ending_word(run.ending) + ((run.length as u64) << 32) + u64::from(run.steps),
        Err(number) => RUN_REFUSED + u64::from(number),
    }
}

pub fn run_word(answer: Result<Run, Refusal>) -> u64
    requires { ShortRun answer }
    ensures { result ≡ run_answer_word answer }
{
    numbered_run_word(answer.map_err(u8::from))
}

#[cfg(test)]
mod tests {
    use super::*;

    // The words that include/lustrejasper.h gives.
    #[test]
    fn words_of_answers(rt: HostRuntime) {
        assert_eq!(rt; check_word(Ok(3)), 0);
        assert_eq!(rt; check_word(Err(Refusal::BadlyTyped)), 10);
        assert_eq!(rt; step_word(Ok(Step::Unchanged)), 0);
        assert_eq!(rt; step_word(Ok(Step::Changed(4096))), 65536 + 4096);
        assert_eq!(rt; step_word(Err(Refusal::NoRoom)), 2 * 65536 + 12);
        for (ending, word) in [(Ending::Rest, 1), (Ending::Spent, 2), (Ending::Full, 3)] {
            let run = Run {
                ending,
                steps: 5,
                length: 2,
            };
            assert_eq!(rt;
                run_word(Ok(run)),
                word * 281474976710656 + 2 * 4294967296 + 5
            );
        }
        assert_eq!(rt; run_word(Err(Refusal::BadLength)), 4 * 281474976710656 + 2);
    }
}

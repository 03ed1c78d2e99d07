// What is printed of an answer, and of an output that shows which of its bytes were written.
use frame::refusals::Refusal;
use run::{Ending, Run};
use std::{fmt, io};
use step::Step;

// What the output holds before the call: bytes that go by their place, so that one that was written or moved is seen.
fn pattern(i: usize) -> u8 {
    // Kept: `as`: no `From` makes a shorter number, and `try_from` would ask what to do where it can't be.
    (i % 251 + 1) as u8
}

pub fn fill(out: &mut [u8]) {
    for (i, b) in out.iter_mut().enumerate() {
        *b = pattern(i);
    }
}

// Whether the output's bytes from `from` on are as they were before the call.
fn kept(out: &[u8], from: usize) -> bool {
    out.iter()
        .enumerate()
        .skip(from)
        .all(|(i, &b)| b == pattern(i))
}

// A run's ending by its word.
// Kept: beside `printing::word_of`, whose bytes a contract gives by the definitions of the program's text; here words are printed alone.
#[derive(Clone, Copy, Debug, PartialEq, Eq)]
struct Word(Ending);

impl fmt::Display for Word {
    fn fmt<W: fmt::Write>(&self, f: &mut fmt::Formatter<W>) -> fmt::Result {
        match self.0 {
            Ending::Rest => write!(f, "REST"),
            Ending::Spent => write!(f, "SPENT"),
            Ending::Full => write!(f, "FULL"),
        }
    }
}

// The frame in the first n bytes of the output; behind that no byte may have been written.
// Kept: the output and a length, since the bytes behind the frame are looked at too.
fn print_output(rt: &impl Print, out: &[u8], n: usize) -> io::Result<()> {
    if let Some(frame) = out.get(..n) {
        let mut text = [0u8; 8192];
        let length = lines::write_line(frame, &mut text);
        if let Some(text) = length.and_then(|length| text.get(..length)) {
            rt.write_all(text)?;
        }
    }
    if !kept(out, n) {
        print!(rt; " TOUCHED")?;
    }
    Ok(())
}

pub fn print_refused(rt: &impl Print, refusal: Refusal, out: &[u8]) -> io::Result<()> {
    let number = u8::from(refusal);
    print!(rt; "REFUSED {number}")?;
    print_output(rt, out, 0)
}

pub fn print_step(rt: &impl Print, answer: Result<Step, Refusal>, out: &[u8]) -> io::Result<()> {
    match answer {
        Ok(Step::Unchanged) => {
            print!(rt; "UNCHANGED")?;
            print_output(rt, out, 0)
        }
        Ok(Step::Changed(n)) => {
            print!(rt; "CHANGED ")?;
            print_output(rt, out, n)
        }
        Err(refusal) => print_refused(rt, refusal, out),
    }
}

// How a run ended: its word, the count of steps, the last frame.
pub fn print_run(rt: &impl Print, answer: Result<Run, Refusal>, out: &[u8]) -> io::Result<()> {
    match answer {
        Ok(run) => {
            let word = Word(run.ending);
            let steps = run.steps;
            print!(rt; "{word} {steps} ")?;
            print_output(rt, out, run.length)
        }
        Err(refusal) => print_refused(rt, refusal, out),
    }
}

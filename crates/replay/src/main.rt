// Reads lines from standard input and prints for each what the library answers. Numbers are in decimal, frames in capital hexadecimal.
// - `F FRAME`: the count of nodes and what the checks say, or REFUSED and the number.
// - `S PLACE LENT FRAME`, a step at that place that is lent so many bytes: CHANGED and the new frame, UNCHANGED, or REFUSED and the number.
// - `R BUDGET LENT FRAME`, a run: REST, SPENT or FULL, the count of steps and the last frame, or REFUSED and the number.
// Where a byte was written that must stay as it was, TOUCHED follows. A line of another form is REFUSED 1.
#![tactic(auto)]

mod shown; // shown.rt: what is printed
mod trials; // trials.rt: lines

use crate::shown::{fill, print_refused, print_run, print_step};
use crate::trials::{LENT_LIMIT, Line, Trial};
use frame::refusals::Refusal;
use std::io;
use std::io::Read;

// The bytes of a large buffer: a loop that moves much data would spend its time on calls of fewer.
const LARGE: usize = 65536;

// The count of nodes, and what the checks answer.
fn print_checks(rt: &impl Print, frame: &[u8], out: &[u8]) -> io::Result<()> {
    let read = match reading::read(frame) {
        Ok(read) => read,
        Err(refusal) => return print_refused(rt, refusal, out),
    };
    let nodes = read.nodes;
    print!(rt; "{nodes}")?;
    match checking::check(frame) {
        Ok(_) => print!(rt; " CHECKED"),
        Err(refusal) => {
            print!(rt; " ")?;
            print_refused(rt, refusal, out)
        }
    }
}

// The output shows which of its bytes a call writes.
fn print_trial(rt: &impl Print, trial: Trial, frame: &[u8]) -> io::Result<()> {
    let mut space = [0u8; LENT_LIMIT];
    let out = &mut space[..trial.lent().min(LENT_LIMIT)];
    fill(out);
    match trial {
        Trial::Checks => print_checks(rt, frame, out),
        Trial::Step { place, .. } => {
            let answer = stepping::step(frame, place, out);
            print_step(rt, answer, out)
        }
        Trial::Run { budget, .. } => match u32::try_from(budget) {
            Ok(budget) => {
                let answer = running::run(frame, budget, out);
                print_run(rt, answer, out)
            }
            Err(_) => print_refused(rt, Refusal::BadLine, out),
        },
    }
}

fn print_line(rt: &impl Print, line: &Line) -> io::Result<()> {
    match line.end() {
        Ok((trial, frame)) => print_trial(rt, trial, frame)?,
        Err(refusal) => print_refused(rt, refusal, b"")?,
    }
    println!(rt)
}

// At a line's end the answer is printed and a new line begins.
fn take(rt: &impl Print, line: &mut Line, piece: &[u8]) -> io::Result<()> {
    for &c in piece {
        if c == b'\n' {
            print_line(rt, line)?;
            line.clear();
        } else {
            line.push(c);
        }
    }
    Ok(())
}

// A proved loop has to end, and nothing says that the input does: no run uses up so many turns.
fn main(rt: HostRuntime) -> io::Result<()> {
    let mut input = rt.stdin();
    let mut piece = [0u8; LARGE];
    let mut line = Line::new();
    for _ in 0..u64::MAX {
        let n = input.read(&mut piece)?;
        if n == 0 {
            break;
        }
        take(&rt, &mut line, &piece[..n])?;
    }
    // Bytes after the last 0A are a line too.
    if !line.is_empty() {
        print_line(&rt, &line)?;
    }
    Ok(())
}

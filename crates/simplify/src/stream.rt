// The input as it comes, in pieces of any size: the lines that end in a piece are answered, and the last goes on. From an
// input to an output both go in large pieces.
ghost use Rattle.std.specs.Prelude.{◌≡◌, ℕ, ◌<◌, ◌≤◌, List, [], ◌++◌, length, take, get_or, OnOk, IfErr, IfSome, MatchOption};
ghost use Rattle.std.specs.Io.KnownBytes.{Appends, Consumes};
ghost use Rattle.lines.specs.LineReads.{Reads};
ghost use Rattle.printing.specs.AnswerPosts.{longest};
ghost use Rattle.printing.specs.Written.{written, behind, Adds};
ghost use Rattle.run.specs.Run.{run as ran};
ghost use Rattle.program.specs.Text.{newline, budget, lent, answer_text, line_text};
ghost use Rattle.program.specs.Pieces.{answers, last_answer};
ghost use Rattle.program.specs.Stream.{simplified};
ghost use Rattle.simplify.specs.Feeding.{NoEnd, Feeds};

use lines::LineReader;
use printing::Text;
use std::fmt;
use std::io::{Read, Write};

// Every line is run with this budget.
const BUDGET: u32 = 65535;

// The bytes of a large buffer: a loop that moves much data would spend its time on calls of fewer.
const LARGE: usize = 65536;

// What stops the program before the end of its input.
#[derive(Clone, Copy, Debug, PartialEq, Eq)]
pub enum Failure {
    Read,
    Write,
}

impl fmt::Display for Failure {
    fn fmt<W: fmt::Write>(&self, f: &mut fmt::Formatter<W>) -> fmt::Result {
        match self {
            Failure::Read => write!(f, "cannot read"),
            Failure::Write => write!(f, "cannot write"),
        }
    }
}

// The line that goes on from piece to piece, and the answers of those before it that wait to be written.
#[derive(Drop)]
pub struct Stream<'a> {
    line: LineReader,
    answers: Text<'a>,
}

// A frame is run, and its answer goes behind those that wait.
fn put_run(frame: &[u8], answers: &mut Text<'_>)
    requires { longest ≤ length (behind answers.old) }
    ensures { Adds answers.old (answer_text (ran frame.now budget lent)) answers.new }
{
    let mut last = [0u8; 4096];
    let answer = running::run(frame, BUDGET, &mut last).map_err(u8::from);
    answers.put_numbered_answer(answer, &last);
}

// Where a line ends in s: at its byte 0A.
fn end_of_line(s: &[u8]) -> Option<usize>
    ensures { MatchOption result (NoEnd s.now) (λ e. (e < length s.now) × (get_or s.now e 0 ≡ newline) × NoEnd (take e s.now)) }
{
    s.iter().position(|&c| c == b'\n')
}

impl<'a> Stream<'a> {
    // No line is begun. The answers go into the lent bytes: what the stream holds as it ends, those have then.
    pub fn new(out: &'a mut [u8]) -> Stream<'a>
        ensures line { Reads result.line [] }
        ensures written { written result.answers ≡ [] }
        ensures behind { behind result.answers ≡ out.old }
        ensures same_reference { result.answers.bytes.ghost_name ≡ out.entry.ghost_name }
    {
        Stream {
            line: LineReader::new(),
            answers: Text::new(out),
        }
    }

    // The answer of the line that ends goes behind those that wait.
    #[tactic(auto, using(printing::proofs::AnswerTexts::refused_short))]
    fn put(&mut self)
        requires { longest ≤ length (behind self.old.answers) }
        ensures adds { (held : List ℕ) → Reads self.old.line held → Adds self.old.answers (line_text held) self.new.answers }
        ensures same_reference { self.new.answers.bytes.ghost_name ≡ self.old.answers.bytes.ghost_name }
    {
        match self.line.frame() {
            Ok(frame) => put_run(frame, &mut self.answers),
            Err(refusal) => self.answers.put_refused(u8::from(refusal)),
        }
    }

    // The line ends, and the next begins.
    fn end_line(&mut self)
        requires { longest ≤ length (behind self.old.answers) }
        ensures line { Reads self.new.line [] }
        ensures adds { (held : List ℕ) → Reads self.old.line held → Adds self.old.answers (line_text held) self.new.answers }
        ensures same_reference { self.new.answers.bytes.ghost_name ≡ self.old.answers.bytes.ghost_name }
    {
        self.put();
        self.line.clear();
    }

    // Takes bytes of a piece of the input, line by line, until none is left or there is no room for one answer more; says how many.
    pub fn feed(&mut self, piece: &[u8]) -> usize
        ensures feeds { Feeds self.old (take result piece.now) self.new }
        ensures within { result ≤ length piece.now }
        ensures some { longest ≤ length (behind self.old.answers) → 0 < length piece.now → 0 < result }
        ensures stops { result < length piece.now → length (behind self.new.answers) < longest }
        ensures same_reference { self.new.answers.bytes.ghost_name ≡ self.old.answers.bytes.ghost_name }
    {
        let mut rest = piece;
        while let Some(end) = end_of_line(rest) {
            if !self.answers.has_room() {
                return piece.len() - rest.len();
            }
            self.line.read(&rest[..end]);
            self.end_line();
            rest = &rest[end + 1..];
        }
        self.line.read(rest);
        piece.len()
    }

    // The input ends: bytes after the last 0A are a line too, if there are any. Nothing is done where there is no room for an
    // answer.
    pub fn finish(&mut self)
        ensures line { longest ≤ length (behind self.old.answers) → (held : List ℕ) → Reads self.old.line held →
            Reads self.new.line [] }
        ensures adds { longest ≤ length (behind self.old.answers) → (held : List ℕ) → Reads self.old.line held →
            Adds self.old.answers (last_answer held) self.new.answers }
        ensures short { length (behind self.old.answers) < longest → self.new ≡ self.old }
        ensures same_reference { self.new.answers.bytes.ghost_name ≡ self.old.answers.bytes.ghost_name }
    {
        if self.line.is_empty() {
            return;
        }
        if !self.answers.has_room() {
            return;
        }
        self.end_line();
    }

    // Writes the answers that wait.
    fn write<W: Write>(&mut self, output: &mut W) -> Result<(), Failure>
        ensures failed { IfErr result (λ failure. failure ≡ Failure.Write) }
        ensures line { self.new.line ≡ self.old.line }
        ensures written { OnOk result (Appends (W.contents output.old) (W.contents output.new) (written self.old.answers)) }
        ensures cleared { OnOk result (written self.new.answers ≡ []) }
        ensures behind { OnOk result (behind self.new.answers ≡ written self.old.answers ++ behind self.old.answers) }
        ensures same_reference { self.new.answers.bytes.ghost_name ≡ self.old.answers.bytes.ghost_name }
    {
        output
            .write_all(self.answers.as_bytes())
            .map_err(|_e| Failure::Write)?;
        self.answers.clear();
        Ok(())
    }
}

// Answers each line of the input. Where reading fails, the line that was begun may not be whole, and gets no answer; where
// the output takes no more, nothing more is read or written. No clause says that an `Err` comes from a read or a write that
// failed: the contracts of `Read` and `Write` have no word for when they fail. A proved loop has to end, and nothing says that
// the input does: no run uses up so many turns, and one that did would say that it cannot read on.
pub fn answer_input<R: Read, W: Write>(input: &mut R, output: &mut W) -> Result<(), Failure>
    ensures whole { OnOk result (IfSome (R.remaining input.old)
        (λ text. Appends (W.contents output.old) (W.contents output.new) (simplified text))) }
    // The lines that ended in what was read before have their answers.
    ensures cannot_read { result ≡ Err Failure.Read → (text : List ℕ)
        × Consumes (R.remaining input.old) (R.remaining input.new) text
        × Appends (W.contents output.old) (W.contents output.new) (answers text []) }
{
    let mut waiting = [0u8; LARGE];
    let mut piece = [0u8; LARGE];
    let mut stream = Stream::new(&mut waiting);
    for _ in 0..u64::MAX {
        let n = input.read(&mut piece).map_err(|_e| Failure::Read)?;
        if n == 0 {
            stream.finish();
            return stream.write(output);
        }
        let mut rest = &piece[..n];
        // Kept: a `while`, since each call says how much of the piece it took.
        while !rest.is_empty() {
            let taken = stream.feed(rest);
            stream.write(output)?;
            rest = &rest[taken..];
        }
    }
    Err(Failure::Read)
}

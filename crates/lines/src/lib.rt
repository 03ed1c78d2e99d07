// Text: one frame a line in capital hexadecimal (document 01, "The frame record"). A line comes in pieces of any size.
#![tactic(auto)]

ghost use Rattle.std.specs.Prelude.{◌≡◌, ℕ, ◌≤◌, ◌<◌, ◌↔◌, List, [], ◌∷◌, ◌++◌, MatchOption, MatchResult, Ok, Err, IsTrue, ⊤};
ghost use Rattle.frame.specs.Lines.{digit_of, digit_for, read_line};
ghost use Rattle.lines.specs.LineReads.{Reads, line_answer, WritePost};

use frame::refusals::Refusal;
use put::Writer;
use std::alloc::AllocError;

// What the characters of a line so far leave for the next.
#[derive(Clone, Copy, Debug, PartialEq, Eq)]
enum Pending {
    // the next is a byte's first digit
    Nothing,
    // the byte's first digit
    High(u8),
    // a character was none of 0-9, A-F
    Malformed,
}

// A line that is read, a piece at a time. `bytes` has those that its digits so far made; they may be too many for a frame, so a line may
// have any length.
// Kept: that the characters so far are cs is a clause of each method and no view of a Model, since the fields don't say which they were:
// of a line that is malformed or too long, nothing is held.
#[derive(Drop)]
pub struct LineReader {
    pending: Pending,
    bytes: Writer,
}

// A clone is the same line so far: it has read what its source has. It is always made.
// Kept: no `Copy`, since `Writer` has none.
impl Clone for LineReader {
    ghost is_clone = { λ line copy. copy ≡ line };

    ghost is_infallible = { λ _. ⊤ };

    fn clone(&self) -> Result<Self, AllocError> {
        Ok(LineReader {
            pending: self.pending,
            bytes: self.bytes.clone()?,
        })
    }
}

// The value of a character 0-9, A-F.
// Kept: the library's `to_digit` takes a-f too, which a frame's text has not.
#[tactic(auto, unfolding(frame::specs::Lines::digit_of))]
fn digit_of(c: u8) -> Option<u8>
    ensures { MatchOption result (15 < digit_of c) (λ d. (d ≡ digit_of c) × (d ≤ 15)) }
{
    match c {
        b'0'..=b'9' => Some(c - b'0'),
        b'A'..=b'F' => Some(c - b'A' + 10),
        _ => None,
    }
}

impl LineReader {
    // A line of which nothing is read.
    #[tactic(auto, using(crate::proofs::LineReading::reads_none))]
    pub fn new() -> LineReader
        ensures { Reads result [] }
    {
        LineReader {
            pending: Pending::Nothing,
            bytes: Writer::new(),
        }
    }

    // Begins another line.
    #[tactic(auto, using(crate::proofs::LineReading::reads_none))]
    pub fn clear(&mut self)
        ensures { Reads self.new [] }
    {
        self.pending = Pending::Nothing;
        self.bytes.clear();
    }

    // One character more.
    pub fn push(&mut self, c: u8)
        ensures { (cs : List ℕ) → Reads self.old cs → Reads self.new (cs ++ c ∷ []) }
    {
        let Some(digit) = digit_of(c) else {
            self.pending = Pending::Malformed;
            return;
        };
        match self.pending {
            Pending::Nothing => self.pending = Pending::High(digit),
            Pending::High(high) => {
                self.bytes.put_byte(high << 4 | digit);
                self.pending = Pending::Nothing;
            }
            Pending::Malformed => {}
        }
    }

    // More characters of the line.
    pub fn read(&mut self, piece: &[u8])
        ensures { (cs : List ℕ) → Reads self.old cs → Reads self.new (cs ++ piece.now) }
    {
        for &c in piece {
            self.push(c);
        }
    }

    // Whether the line has no character yet.
    pub fn is_empty(&self) -> bool
        ensures { (cs : List ℕ) → Reads self.now cs → (IsTrue result ↔ (cs ≡ [])) }
    {
        match self.frame() {
            Ok(frame) => frame.is_empty(),
            Err(_) => false,
        }
    }

    // The line ends: its frame.
    pub fn frame(&self) -> Result<&[u8], Refusal>
        ensures { (cs : List ℕ) → Reads self.now cs → MatchResult result
            (λ f. line_answer (read_line cs) ≡ Ok f.now) (λ r. line_answer (read_line cs) ≡ Err r) }
    {
        match self.pending {
            Pending::Nothing => self.bytes.frame().ok_or(Refusal::BadLength),
            _ => Err(Refusal::BadLine),
        }
    }
}

// The character of a value below 16.
// Kept: the library's `from_digit` gives a-f, where a frame's text has A-F.
#[tactic(auto, unfolding(frame::specs::Lines::digit_for))]
fn digit_for(v: u8) -> u8
    requires { v < 16 }
    ensures { result ≡ digit_for v }
{
    match v {
        0..=9 => b'0' + v,
        _ => b'A' + (v - 10),
    }
}

// Writes the frame's text to the start of out and answers its length; where out is too short, writes nothing.
// Kept: the length and no slice of out, which would stay lent with it.
pub fn write_line(frame: &[u8], out: &mut [u8]) -> Option<usize>
    ensures { WritePost frame.now out.old out.new result }
{
    if out.len() / 2 < frame.len() {
        return None;
    }
    // Kept: tried over `chunks_exact_mut` with `zip`: what the lent pairs leave in out was not proved.
    for (i, &b) in frame.iter().enumerate() {
        out[2 * i] = digit_for(b / 16);
        out[2 * i + 1] = digit_for(b % 16);
    }
    Some(2 * frame.len())
}

// Lines of text that answer lines of frames, written into a lent slice.
#![tactic(auto)]

ghost use Rattle.std.specs.Prelude.{◌≡◌, ◌≤◌, List, [], ◌∷◌, ◌++◌, ◌↔◌, length, drop, IsTrue};
ghost use Rattle.frame.specs.Lines.{write_line};
ghost use Rattle.program.specs.Text.{decimal, ended_text, refused_text};
ghost use Rattle.printing.specs.AnswerPosts.{longest, ending_text, AnswerPre, NumberedAnswerPre};

use frame::refusals::Refusal;
use run::{Ending, Run};

const SPACE: u8 = b' ';

const NEWLINE: u8 = b'\n';

// The bytes of the longest answer.
const LONGEST: usize = 8205;

// Text in lent bytes: the first `end` of them.
// Kept: a slice with an end and no `io::Cursor`, whose writes may be short: what is put here can't fail.
#[derive(Drop)]
pub struct Text<'a> {
    bytes: &'a mut [u8],
    end: usize,
    ghost within: { end ≤ length bytes.now },
}

// Kept: words and numbers as bytes and no `Display`: the contracts say which bytes, and a formatter may fail.
fn word_of(ending: Ending) -> &'static [u8]
    ensures { result.now ≡ ending_text ending }
{
    match ending {
        Ending::Rest => b"REST",
        Ending::Spent => b"SPENT",
        Ending::Full => b"FULL",
    }
}

impl<'a> Text<'a> {
    ghost use Rattle.printing.specs.Written.{written, behind, Adds, AnswerPost, NumberedAnswerPost};

    #[tactic(auto, unfolding(crate::specs::Written::written, crate::specs::Written::behind))]
    pub fn new(bytes: &'a mut [u8]) -> Text<'a>
        ensures written { written result ≡ [] }
        ensures behind { behind result ≡ bytes.old }
        ensures same_reference { result.bytes.ghost_name ≡ bytes.entry.ghost_name }
    {
        Text { bytes, end: 0 }
    }

    // Begins again. What was written is not cleared: it lies behind what will be.
    #[tactic(auto, unfolding(crate::specs::Written::written, crate::specs::Written::behind))]
    pub fn clear(&mut self)
        ensures written { written self.new ≡ [] }
        ensures behind { behind self.new ≡ written self.old ++ behind self.old }
        ensures same_reference { self.new.bytes.ghost_name ≡ self.old.bytes.ghost_name }
    {
        self.end = 0;
    }

    #[tactic(auto, unfolding(crate::specs::Written::written, crate::specs::Written::behind))]
    pub fn as_bytes(&self) -> &[u8]
        ensures { result.now ≡ written self.now }
    {
        &self.bytes[..self.end]
    }

    // Whether there is room for one answer more, whichever it is.
    #[tactic(auto, unfolding(crate::specs::Written::behind))]
    pub fn has_room(&self) -> bool
        ensures { IsTrue result ↔ (longest ≤ length (behind self.now)) }
    {
        LONGEST <= self.bytes.len() - self.end
    }

    #[tactic(auto, unfolding(crate::specs::Written::behind))]
    fn put_text(&mut self, text: &[u8])
        requires { length text.now ≤ length (behind self.old) }
        ensures { Adds self.old text.now self.new }
    {
        let end = self.end + text.len();
        self.bytes[self.end..end].copy_from_slice(text);
        self.end = end;
    }

    fn put_byte(&mut self, b: u8)
        requires { 1 ≤ length (behind self.old) }
        ensures { Adds self.old (b ∷ []) self.new }
    {
        self.put_text(&[b]);
    }

    #[tactic(auto, using(crate::proofs::Texts::decimal_lem))]
    fn put_decimal(&mut self, n: u32)
        requires { length (decimal n) ≤ length (behind self.old) }
        ensures { Adds self.old (decimal n) self.new }
    {
        let mut digits = itoa::Buffer::new();
        self.put_text(digits.format(n).as_bytes());
    }

    // A frame in capital hexadecimal.
    #[tactic(auto, unfolding(crate::specs::Written::behind))]
    fn put_frame(&mut self, frame: &[u8])
        requires { length (write_line frame.now) ≤ length (behind self.old) }
        ensures { Adds self.old (write_line frame.now) self.new }
    {
        let written = lines::write_line(frame, &mut self.bytes[self.end..]);
        self.end += written.unwrap();
    }

    // The answer of a run that ended: its word, the count and the frame.
    #[tactic(auto, using(crate::proofs::Texts::ended_length))]
    fn put_ended(&mut self, word: &[u8], count: u32, frame: &[u8])
        requires { length (ended_text word.now count frame.now) ≤ length (behind self.old) }
        ensures { Adds self.old (ended_text word.now count frame.now) self.new }
    {
        self.put_text(word);
        self.put_byte(SPACE);
        self.put_decimal(count);
        self.put_byte(SPACE);
        self.put_frame(frame);
        self.put_byte(NEWLINE);
    }

    // Kept: room is asked for in a clause, here and above and below, since each text is of another length.
    // REFUSED and the number.
    #[tactic(auto, using(crate::proofs::Texts::refused_length))]
    pub fn put_refused(&mut self, number: u8)
        requires { length (refused_text number) ≤ length (behind self.old) }
        ensures { Adds self.old (refused_text number) self.new }
    {
        self.put_text(b"REFUSED");
        self.put_byte(SPACE);
        self.put_decimal(u32::from(number));
        self.put_byte(NEWLINE);
    }

    // A run's answer; its last frame stands at the start of `last`.
    // Kept: a number for a refusal, as in `put_refused`: any can be printed, and a `Refusal` would ask for one of twelve.
    #[tactic(auto, using(crate::proofs::AnswerTexts::refused_short))]
    pub fn put_numbered_answer(&mut self, answer: Result<Run, u8>, last: &[u8])
        requires { NumberedAnswerPre answer last.now × (longest ≤ length (behind self.old)) }
        ensures { NumberedAnswerPost answer last.now self.old self.new }
    {
        match answer {
            Ok(run) => self.put_ended(word_of(run.ending), run.steps, &last[..run.length]),
            Err(number) => self.put_refused(number),
        }
    }

    // The same of an answer that has a `Refusal`.
    pub fn put_answer(&mut self, answer: Result<Run, Refusal>, last: &[u8])
        requires { AnswerPre answer last.now × (longest ≤ length (behind self.old)) }
        ensures { AnswerPost answer last.now self.old self.new }
    {
        match answer {
            Ok(run) => self.put_numbered_answer(Ok(run), last),
            Err(refusal) => self.put_numbered_answer(Err(u8::from(refusal)), last),
        }
    }
}

#[cfg(test)]
mod tests {
    use super::*;

    // Two lines in the form that docs/FRAMES.md gives.
    #[test]
    fn lines_of_answers(rt: HostRuntime) {
        let last = [0xA0u8; 4096];
        let mut bytes = [0u8; 8205];
        let mut text = Text::new(&mut bytes);
        assert!(rt; text.has_room());
        text.put_answer(Err(Refusal::BytesFollow), &last);
        assert_eq!(rt; text.as_bytes(), b"REFUSED 7\n".as_slice());
        text.clear();
        assert!(rt; text.has_room());
        let run = Run {
            ending: Ending::Spent,
            steps: 12,
            length: 2,
        };
        text.put_answer(Ok(run), &last);
        assert_eq!(rt; text.as_bytes(), b"SPENT 12 A0A0\n".as_slice());
    }
}

// The lines that the program reads, of three forms, a character at a time.
use frame::refusals::Refusal;
use lines::LineReader;

// The most that a line may lend.
pub const LENT_LIMIT: usize = 8192;

// What a line asks for its frame; `lent` is how many bytes the output has.
#[derive(Clone, Copy, Debug, PartialEq, Eq)]
pub enum Trial {
    Checks,
    Step { place: usize, lent: usize },
    Run { budget: usize, lent: usize },
}

impl Trial {
    // How many bytes are lent: the checks write nothing.
    pub fn lent(self) -> usize {
        match self {
            Trial::Checks => 0,
            Trial::Step { lent, .. } | Trial::Run { lent, .. } => lent,
        }
    }
}

// The forms of a line that has numbers: `S PLACE LENT FRAME` and `R BUDGET LENT FRAME`.
#[derive(Clone, Copy, Debug, PartialEq, Eq)]
enum Call {
    Step,
    Run,
}

impl Call {
    fn with(self, number: usize, lent: usize) -> Trial {
        match self {
            Call::Step => Trial::Step {
                place: number,
                lent,
            },
            Call::Run => Trial::Run {
                budget: number,
                lent,
            },
        }
    }
}

// How far a line has come. A number is None before its first digit.
#[derive(Clone, Copy, Debug, PartialEq, Eq)]
enum Part {
    Begun,
    // behind the letter of a line that has no numbers: `F FRAME`
    Checks,
    // behind the letter of one that has
    Letter(Call),
    Number(Call, Option<usize>),
    Lent(Call, usize, Option<usize>),
    Frame(Trial),
}

// The number with the digit c behind it, if c is one and the number is at most `most`.
fn with_digit(number: Option<usize>, c: u8, most: usize) -> Option<usize> {
    let digit = char::from(c).to_digit(10)?;
    number
        .unwrap_or(0)
        .checked_mul(10)?
        .checked_add(usize::try_from(digit).ok()?)
        .filter(|&n| n <= most)
}

impl Part {
    // The part with one character more, if the line can go on so.
    fn next(self, c: u8) -> Option<Part> {
        match (self, c) {
            (Part::Begun, b'F') => Some(Part::Checks),
            (Part::Begun, b'S') => Some(Part::Letter(Call::Step)),
            (Part::Begun, b'R') => Some(Part::Letter(Call::Run)),
            (Part::Checks, b' ') => Some(Part::Frame(Trial::Checks)),
            (Part::Letter(call), b' ') => Some(Part::Number(call, None)),
            (Part::Begun | Part::Checks | Part::Letter(_), _) => None,
            (Part::Number(call, Some(number)), b' ') => Some(Part::Lent(call, number, None)),
            (Part::Number(call, number), _) => {
                Some(Part::Number(call, Some(with_digit(number, c, usize::MAX)?)))
            }
            (Part::Lent(call, number, Some(lent)), b' ') => {
                Some(Part::Frame(call.with(number, lent)))
            }
            (Part::Lent(call, number, lent), _) => {
                Some(Part::Lent(call, number, Some(with_digit(lent, c, LENT_LIMIT)?)))
            }
            (Part::Frame(trial), _) => Some(Part::Frame(trial)),
        }
    }
}

// A line so far; `part` is None where it is of another form.
#[derive(Drop)]
pub struct Line {
    part: Option<Part>,
    frame: LineReader,
}

impl Line {
    pub fn new() -> Line {
        Line {
            part: Some(Part::Begun),
            frame: LineReader::new(),
        }
    }

    // Begins another line.
    pub fn clear(&mut self) {
        self.part = Some(Part::Begun);
        self.frame.clear();
    }

    pub fn is_empty(&self) -> bool {
        self.part == Some(Part::Begun)
    }

    // One character more.
    pub fn push(&mut self, c: u8) {
        if let Some(Part::Frame(_)) = self.part {
            self.frame.push(c);
        }
        self.part = self.part.and_then(|part| part.next(c));
    }

    // The line ends: what it asks, and its frame.
    pub fn end(&self) -> Result<(Trial, &[u8]), Refusal> {
        match self.part {
            Some(Part::Frame(trial)) => Ok((trial, self.frame.frame()?)),
            _ => Err(Refusal::BadLine),
        }
    }
}

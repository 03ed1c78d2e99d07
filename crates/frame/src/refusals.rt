// The numbers of what is turned down (document 01, "Numbers of what is turned down, in checking order").

ghost use Rattle.std.specs.Prelude.{◌≡◌};
ghost use Rattle.frame.specs.Refusals.{number};

// What a frame, a place, a run or a text line is turned down for.
#[derive(Clone, Copy, Debug, PartialEq, Eq)]
pub enum Refusal {
    // "1. A text line has an odd count of characters or one outside 0-9, A-F."
    BadLine,
    // "2. The frame has no byte or more than 4,096."
    BadLength,
    // "3. Reading left to right, the bytes end inside a node or type."
    EndsInside,
    // "4. A tag isn't listed, or a predicate stands where an expression must, or the reverse."
    BadTag,
    // "5. A count is outside its range."
    BadCount,
    // "6. A type byte is above 04, or 64 bytes leave a type unfinished."
    BadType,
    // "7. Bytes follow the root's end."
    BytesFollow,
    // "8. A bound index has no binder, anywhere in the tree."
    NoBinder,
    // "9. One identifier number has two types, or is the number of a given set in some type of the tree and its type isn't the power of that set."
    TwoTypes,
    // "10. A node breaks a typing rule or its type passes 64 bytes."
    BadlyTyped,
    // "11. A step's place is no node, or an expression."
    NoPlace,
    // "12. A step's result passes 4,096 bytes or the lent output; or a run's output has under 4,096 bytes, checked before its first step."
    NoRoom,
}

impl From<Refusal> for u8 {
    ghost from_gives = { λ r n. n ≡ number r };

    // The number of the refusal.
    fn from(refusal: Refusal) -> u8 {
        match refusal {
            Refusal::BadLine => 1,
            Refusal::BadLength => 2,
            Refusal::EndsInside => 3,
            Refusal::BadTag => 4,
            Refusal::BadCount => 5,
            Refusal::BadType => 6,
            Refusal::BytesFollow => 7,
            Refusal::NoBinder => 8,
            Refusal::TwoTypes => 9,
            Refusal::BadlyTyped => 10,
            Refusal::NoPlace => 11,
            Refusal::NoRoom => 12,
        }
    }
}

// The children of an ∧ or an ∨ that stay, in a list of fixed size that the caller lends: no node has more than 255 children.
use arrayvec::ArrayVec;

// A child's place, and a number that tells it from most others.
#[derive(Clone, Copy, Debug, Default, PartialEq, Eq)]
pub struct KeptChild {
    pub place: u16,
    pub key: u8,
}

pub type Kept = ArrayVec<KeptChild, 256>;

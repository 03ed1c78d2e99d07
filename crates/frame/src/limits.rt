// The limits of document 01.

// "A frame is one predicate as bytes, 1 to 4,096."
pub const FRAME_LIMIT: usize = 4096;
// "A type has at most 64 bytes, derived ones too."
pub const TYPE_LIMIT: usize = 64;

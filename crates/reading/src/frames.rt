// Bytes that were read as a frame, for calls that need not look for errors.
ghost use Rattle.std.specs.Prelude.{◌≡◌, IsTrue};
ghost use Rattle.frame.specs.Trees.{Tree};
ghost use Rattle.frame.specs.Reading.{parse, tree};
ghost use Rattle.frame.specs.Spans.{Bytes};
ghost use Rattle.reading.specs.Frames.{is_frame};

// The bytes of a frame: reading them gives a tree. That each is below 256 is said too, since a proof doesn't see it through a struct.
#[derive(Clone, Copy)]
pub struct Frame<'a> {
    pub bytes: &'a [u8],
    ghost in_range: { Bytes bytes.now },
    ghost is_read: { IsTrue (is_frame bytes.now) },
}

impl<'a> Frame<'a> {
    // The frame of bytes that are known to be one.
    pub fn new(bytes: &'a [u8]) -> Self
        requires { (t : Tree) × (parse bytes.now ≡ tree t) }
        ensures { result.bytes.now ≡ bytes.now }
    {
        Frame { bytes }
    }
}

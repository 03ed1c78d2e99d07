// Reading a frame from left to right (document 01, "Numbers of what is turned down", 2 to 7): trees, and the table of node starts.
// Positions count bytes from the frame's start.
#![tactic(auto)]

mod frames; // frames.rt: the bytes of a frame that was read

ghost use Rattle.std.specs.Prelude.{◌≡◌, ◌+◌, ◌<◌, [], ◌∷◌, replicate, Ok};
ghost use Rattle.frame.specs.Trees.{Tree};
ghost use Rattle.tags.specs.TagCodes.{kinds_for};
ghost use Rattle.frame.specs.Reading.{parse};
ghost use Rattle.reading.specs.Post.{Room, TreesPost, filled, frame_answer};

use frame::limits::FRAME_LIMIT;
use frame::refusals::Refusal;
pub use frames::Frame;
use heads::{head_end, read_head};
use tags::Sort;

// How many nodes a frame has, and the table of their starts: zeros past the last node.
// Kept: an array and no `ArrayVec`, since document 01 asks for "a [0; 2048] array of u16 positions by value".
#[derive(Drop)]
pub struct FrameRead {
    pub nodes: usize,
    pub starts: [u16; 2048],
}

impl FrameRead {
    // No node yet.
    fn new() -> FrameRead
        ensures { (result.nodes ≡ 0) × (result.starts ≡ replicate 2048 0) }
    {
        FrameRead {
            nodes: 0,
            starts: [0; 2048],
        }
    }

    // One node more, which starts here.
    fn push(&mut self, at: usize)
        requires { (self.old.nodes < 2048) × (at < 65536) }
        ensures { self.new ≡ filled self.old (at ∷ []) }
    {
        // Kept: `as`: no `From` makes a shorter number, and by `try_from` the proof would be asked the same and the line be longer.
        self.starts[self.nodes] = at as u16;
        self.nodes += 1;
    }
}

// n trees in a row at `at`, the first and the later ones of these sorts: the starts of their nodes are added to those that were
// read, and the answer is where they end. The row gets shorter from its front, and the children of its last tree are the next row.
// Those of a tree before the last are gone over by a call, as the trees behind it may be of another sort.
fn read_trees(
    s: &[u8],
    mut at: usize,
    mut n: usize,
    // Kept: two sorts and no struct of them, since the first is set alone at each turn.
    mut first: Sort,
    mut later: Sort,
    read: &mut FrameRead,
) -> Result<usize, Refusal>
    requires { Room s.now at read.old.nodes }
    ensures { TreesPost s.now (kinds_for n first later) at read.old read.new result }
{
    // Kept: the count of trees that are left is set anew at a row's end, so no `for` or iterator over a range says it.
    while 0 < n {
        let head = read_head(s, at, first)?;
        read.push(at);
        at = head.children;
        n -= 1;
        if n == 0 {
            n = head.count;
            first = head.form.first();
            later = head.form.later();
            continue;
        }
        first = later;
        if head.count == 0 {
            continue;
        }
        at = read_trees(
            s,
            at,
            head.count,
            head.form.first(),
            head.form.later(),
            read,
        )?;
    }
    Ok(at)
}

// The frame: its count of nodes with the table of their starts, or what it is turned down for.
pub fn read(frame: &[u8]) -> Result<FrameRead, Refusal>
    ensures { result ≡ frame_answer (parse frame.now) }
{
    if frame.is_empty() || FRAME_LIMIT < frame.len() {
        return Err(Refusal::BadLength);
    }
    let mut read = FrameRead::new();
    let end = read_trees(frame, 0, 1, Sort::Predicate, Sort::Predicate, &mut read)?;
    if end < frame.len() {
        return Err(Refusal::BytesFollow);
    }
    Ok(read)
}

// What `read` answers, of a frame that was read before: a node's children are the next nodes, so heads are met one after the other.
pub fn read_again(frame: &Frame<'_>) -> FrameRead
    ensures { Ok result ≡ frame_answer (parse frame.now.bytes.now) }
{
    let bytes = frame.bytes;
    let mut again = FrameRead::new();
    let mut at = 0;
    // Kept: the next node starts where this one's head ends, so no `for` over a range says it; an iterator over heads would serve
    // this loop alone, as `identifiers` finds where a head ends while it notes the head's types.
    while at < bytes.len() {
        again.push(at);
        at = head_end(bytes, at);
    }
    again
}

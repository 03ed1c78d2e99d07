// A frame checked: numbers 2 to 10 in their order (document 01, "Numbers of what is turned down, in checking order").
#![tactic(auto)]

ghost use Rattle.std.specs.Prelude.{◌≡◌, ◌+◌, ◌*◌, ◌≤◌, length};
ghost use Rattle.typing.specs.Check.{check as checked, check_answer};
ghost use Rattle.checking.specs.Posts.{LeavesListed, TypedPost, NodesOf, TreePost};

use binding::binding_ok;
use frame::refusals::Refusal;
use identifiers::names_ok;
use reading::Frame;
use synthesis::type_tree;

// Whether every node of a frame's tree is typed; N bytes have room for a type of 64 bytes for each node.
fn typed_in<const N: usize>(frame: &Frame<'_>, leaves: &[u16; 2048]) -> bool
    requires { LeavesListed frame.now.bytes.now leaves.now × (32 * length frame.now.bytes.now + 64 ≤ N) × (N ≤ 131136) }
    ensures { TypedPost frame.now.bytes.now leaves.now result }
{
    let mut types = [0u8; N];
    type_tree(frame.bytes, 0, 0, leaves, &mut types).is_some()
}

// The same, with room for 2,048 nodes; a short frame has few nodes, and bytes take time to clear.
#[tactic(auto, using(reading::proofs::FrameTree::frame_fits))]
fn typing_ok(frame: &Frame<'_>, leaves: &[u16; 2048]) -> bool
    requires { LeavesListed frame.now.bytes.now leaves.now }
    ensures { TypedPost frame.now.bytes.now leaves.now result }
{
    match frame.bytes.len() {
        0..=62 => typed_in::<2048>(frame, leaves),
        63..=254 => typed_in::<8192>(frame, leaves),
        255..=1022 => typed_in::<32768>(frame, leaves),
        _ => typed_in::<131136>(frame, leaves),
    }
}

// Numbers 8, 9 and 10 of a frame with n nodes. Where it is accepted, the table has the types of its bound identifiers.
pub fn check_tree(frame: &Frame<'_>, n: usize, leaves: &mut [u16; 2048]) -> Result<usize, Refusal>
    requires { NodesOf frame.now.bytes.now n }
    ensures { TreePost frame.now.bytes.now leaves.new result }
{
    // Kept: three answers of yes or no, each to one question: which number comes first is said here alone.
    if !binding_ok(frame, leaves) {
        return Err(Refusal::NoBinder);
    }
    if !names_ok(frame) {
        return Err(Refusal::TwoTypes);
    }
    if !typing_ok(frame, leaves) {
        return Err(Refusal::BadlyTyped);
    }
    Ok(n)
}

// Numbers 2 to 7 by reading, then 8, 9 and 10 over the whole tree.
pub fn check(frame: &[u8]) -> Result<usize, Refusal>
    ensures { result ≡ check_answer (checked frame.now) }
{
    let read = reading::read(frame)?;
    let mut leaves = [0u16; 2048];
    check_tree(&Frame::new(frame), read.nodes, &mut leaves)
}

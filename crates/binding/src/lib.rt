// Number 8 (document 01: "A bound index has no binder, anywhere in the tree."). The nodes are gone over in the order
// of the frame, with a list of where the types of the open binders stand; so the types of bound identifiers are found on the way,
// and go into a table by place for typing to read.
#![tactic(auto)]

ghost use Rattle.std.specs.Prelude.{◌≤◌, length};
ghost use Rattle.frame.specs.Reading.{frame_limit};
ghost use Rattle.binding.specs.Bound.{Ready, RowHere, BindersStand, OpenPost, BoundRow, BindingPost};

use heads::{known_head, skip_types};
use reading::Frame;
use tags::Form;

// The n binders whose types stand in a row from `at` on are opened: how many are open then.
fn open_binders(s: &[u8], at: usize, n: usize, binders: &mut [u16], depth: usize) -> usize
    requires { (length s.now ≤ frame_limit) × (depth ≤ at) × (length s.now ≤ length binders.old) × BindersStand s.now at n }
    ensures { OpenPost s.now at n depth binders.old binders.new result }
{
    let mut p = at;
    for inside in depth..depth + n {
        // Kept: `as`: no `From` makes a shorter number, and by `try_from` the proof would be asked the same and the line be longer.
        binders[inside] = p as u16;
        p = skip_types(s, p, 1);
    }
    depth + n
}

// Trees in a row at p, `left` of them, the first at place j: where they end and the place of the next node, or none where an index
// has no binder. The children of a node without binders stand in the context of the node, so they join the trees to come; those
// under binders are gone over by a call.
// Kept: that trees stand there is a clause and no fact of a struct: each turn is at another position.
// Kept: the list of open binders and its depth are no struct, since the depth goes back by itself where a call returns; a struct
// would have to be cut back there by hand.
fn bind_trees(
    s: &[u8],
    mut p: usize,
    mut left: usize,
    binders: &mut [u16],
    depth: usize,
    leaves: &mut [u16; 2048],
    mut j: usize,
) -> Option<(usize, usize)>
    requires { Ready s.now p depth j binders.old leaves.old × RowHere s.now p left depth binders.old }
    ensures { BoundRow s.now p left depth j binders.old leaves.old binders.new leaves.new result }
{
    // Kept: the count of trees that are left also goes up, by the children that join them, so no `for` over a range says it.
    while 0 < left {
        let h = known_head(s, p);
        match h.form {
            Form::BoundIdentifier => {
                if depth <= h.number {
                    return None;
                }
                leaves[j] = binders[depth - 1 - h.number];
                p = h.children;
                left -= 1;
                j += 1;
            }
            Form::QuantifiedPredicate | Form::QuantifiedExpression => {
                let inside = open_binders(s, h.types, h.form.types(h.number), binders, depth);
                (p, j) = bind_trees(s, h.children, h.count, binders, inside, leaves, j + 1)?;
                left -= 1;
            }
            _ => {
                p = h.children;
                left = left - 1 + h.count;
                j += 1;
            }
        }
    }
    Some((p, j))
}

// Whether every bound index of a frame's tree has a binder; if so the table has, by place, where their types stand. The list of
// open binders has room for one to each byte of the frame.
fn bound_within<const N: usize>(frame: &Frame<'_>, leaves: &mut [u16; 2048]) -> bool
    requires { (length frame.now.bytes.now ≤ N) × (N ≤ frame_limit) }
    ensures { BindingPost frame.now.bytes.now leaves.old leaves.new result }
{
    let mut binders = [0u16; N];
    bind_trees(frame.bytes, 0, 1, &mut binders, 0, leaves, 0).is_some()
}

// The same. A small frame doesn't pay for clearing a list that has room for the binders of the longest.
#[tactic(auto, using(reading::proofs::FrameTree::frame_fits))]
pub fn binding_ok(frame: &Frame<'_>, leaves: &mut [u16; 2048]) -> bool
    ensures { BindingPost frame.now.bytes.now leaves.old leaves.new result }
{
    if frame.bytes.len() <= 256 {
        return bound_within::<256>(frame, leaves);
    }
    bound_within::<4096>(frame, leaves)
}

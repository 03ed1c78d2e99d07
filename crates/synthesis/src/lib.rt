// Number 10 and the type of an expression. The nodes are met in prefix order, and those whose operands are still to come are kept on a
// stack. The types of the operands that have come stand in a buffer, one after the other; a node's own operands' types start where
// its record says. (The source's `synthesize_*` go from the children up instead.)
#![tactic(auto)]

mod stack; // stack.rt: the open nodes, a lent slice of records

ghost use Rattle.std.specs.Prelude.{◌≡◌, length};
ghost use Rattle.frame.specs.Tags.{class_of};
ghost use Rattle.synthesis.specs.Turns.{started};
ghost use Rattle.synthesis.specs.TypingPosts.{PutPre, PutPost, own_place, OwnPre, OwnPost, OpenPre, NodePost, TurnsPre, TurnsPost, TypePre, TypePost};

use crate::stack::{OpenNode, pop, push};
use copies::copy_in;
use frame::limits::TYPE_LIMIT;
use heads::{known_head, type_end};
use patterns::judge_types;
use type_rules::{Own, own_of};

// As many as a frame has nodes at most.
const ROOM: usize = 2048;

// A node has been opened: where its first operand stands, where the types end, and its record.
#[derive(Clone, Copy, Debug, PartialEq, Eq)]
struct Opened {
    at: usize,
    end: usize,
    node: OpenNode,
}

// Kept: `types` and `end` as two parameters here and below: the types of operands stand below `end`, at places that the open nodes know, and
// more types are put behind them, so a slice of either part would lack the other.
// The type that stands at p of the frame, into the buffer at `end`: where it ends there. A longer one than the limit is no type of a node.
fn put_type(s: &[u8], p: usize, types: &mut [u8], end: usize) -> Option<usize>
    requires { PutPre s.now p types.old end }
    ensures { PutPost s.now p types.old end types.new result }
{
    let e = type_end(s, p);
    if TYPE_LIMIT < e - p {
        return None;
    }
    copy_in(&s[p..e], types, end);
    Some(end + (e - p))
}

// The type that a node without operands carries, or that its binder has, goes into the buffer in the place of an operand's: where the
// types end then.
fn own_type(
    tag: usize,
    s: &[u8],
    carried: usize,
    leaf: usize,
    types: &mut [u8],
    end: usize,
) -> Option<usize>
    requires { OwnPre (class_of tag) s.now (own_place (class_of tag) carried leaf) types.old end }
    ensures { OwnPost (class_of tag) s.now (own_place (class_of tag) carried leaf) types.old end types.new result }
{
    match own_of(tag) {
        Some(Own::Carried) => put_type(s, carried, types, end),
        Some(Own::Bound) => put_type(s, leaf, types, end),
        None => Some(end),
    }
}

// Kept: the numbers are cast by `as`, since no `From` makes a `u16` or `u32` of a `usize`, nor a `usize` of a `u32`; that they fit is
// proved of each: a head's tag and count are below 65,536, and `from` is at most 131,072, 64 bytes for each of 2,048 nodes.
// The node at `at`, whose bound type stands at `leaf`, is opened; None where its own type passes the limit.
fn open_node(s: &[u8], at: usize, leaf: usize, types: &mut [u8], end: usize) -> Option<Opened>
    requires { OpenPre s.now at leaf types.old end }
    ensures { NodePost s.now at leaf types.old end types.new result }
{
    let h = known_head(s, at);
    let own = own_type(h.tag, s, h.types, leaf, types, end)?;
    Some(Opened {
        at: h.children,
        end: own,
        node: OpenNode {
            tag: h.tag as u16,
            left: h.count as u16,
            from: end as u32,
        },
    })
}

// All turns, from the root that was opened; the next node has the place `first`.
fn turns(
    s: &[u8],
    leaves: &[u16; 2048],
    stack: &mut [OpenNode],
    types: &mut [u8],
    root: Opened,
    first: usize,
) -> Option<usize>
    requires { TurnsPre root.node s.now leaves.now types.old (started root first) × (length stack.old ≡ 2048) }
    ensures { TurnsPost root.node s.now leaves.now types.old (started root first) types.new result }
{
    // How many nodes are open below the one at hand: they stand in the stack, the lowest first.
    let mut top = 0;
    let mut node = root.node;
    let mut at = root.at;
    let mut end = root.end;
    let mut leaves_left = leaves[first..].iter();
    // Kept: a `loop`, since it ends in the midst of a turn, where a node was closed that has none below it.
    loop {
        if node.left == 0 {
            // All its operands have come: its type takes their place.
            end = judge_types(usize::from(node.tag), types, node.from as usize, end)?;
            if top == 0 {
                return Some(end);
            }
            top -= 1;
            node = pop(stack, top);
        } else {
            // The table has an entry for each node, so one is left.
            let leaf = leaves_left.next().unwrap();
            let child = open_node(s, at, usize::from(*leaf), types, end)?;
            let under = OpenNode {
                tag: node.tag,
                left: node.left - 1,
                from: node.from,
            };
            push(stack, top, under);
            top += 1;
            node = child.node;
            at = child.at;
            end = child.end;
        }
    }
}

// The same with the stack lent. This function has a frame of its own, since a root without operands needs no stack.
#[inline(never)]
fn all_turns(
    s: &[u8],
    leaves: &[u16; 2048],
    types: &mut [u8],
    root: Opened,
    first: usize,
) -> Option<usize>
    requires { TurnsPre root.node s.now leaves.now types.old (started root first) }
    ensures { TurnsPost root.node s.now leaves.now types.old (started root first) types.new result }
{
    let mut stack = [OpenNode::default(); ROOM];
    turns(s, leaves, &mut stack, types, root, first)
}

// The type of the tree at `at`, whose root has this place: its bytes stand at the start of `types`, up to here. None is number 10.
pub fn type_tree(
    s: &[u8],
    at: usize,
    place: usize,
    leaves: &[u16; 2048],
    types: &mut [u8],
) -> Option<usize>
    requires { TypePre s.now at place leaves.now types.old }
    ensures { TypePost s.now at place leaves.now types.new result }
{
    let root = open_node(s, at, usize::from(leaves[place]), types, 0)?;
    if root.node.left == 0 {
        return judge_types(
            usize::from(root.node.tag),
            types,
            root.node.from as usize,
            root.end,
        );
    }
    all_turns(s, leaves, types, root, place + 1)
}

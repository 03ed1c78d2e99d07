// The nodes that are open while a tree is typed: a slice of records that the caller lends, and that only push and pop touch. All that
// decides anything has records by value.
ghost use Rattle.std.specs.Prelude.{◌≡◌, ◌<◌, length, get_or, set};
ghost use Rattle.synthesis.specs.OpenNodes.{no_node};

// An open node: its tag, how many operands are to come, where the types of those that have come start. The slice is cleared for each tree
// that is typed, so a record is no wider than these numbers need.
#[derive(Clone, Copy, Debug, Default, PartialEq, Eq)]
pub struct OpenNode {
    pub tag: u16,
    pub left: u16,
    pub from: u32,
}

// Kept: a slice with the count of open nodes beside it and no `ArrayVec`, since document 01 asks for "a lent slice of records (tag,
// operands to come, type start)" and for "thin push and pop functions only".
// An open node is put on the stack, with this many below it.
pub fn push(stack: &mut [OpenNode], top: usize, node: OpenNode)
    requires { top < length stack.old }
    ensures { stack.new ≡ set stack.old top node }
{
    stack[top] = node;
}

// The open node with this many below it is taken from the stack.
pub fn pop(stack: &mut [OpenNode], top: usize) -> OpenNode
    requires { top < length stack.old }
    ensures { (result ≡ get_or stack.old top no_node) × (stack.new ≡ stack.old) }
{
    stack[top]
}

// What a pattern is filled with: the operands and binders as they stand in the frame, and the operands' types.
#![tactic(auto)]

ghost use Rattle.std.specs.Prelude.{◌≡◌, ◌<◌};
ghost use Rattle.nav.specs.AtPlaces.{InTables};
ghost use Rattle.templates.specs.Programs.{template};
ghost use Rattle.filling.specs.Operands.{asks_types, TypeOfPre, WorkFor, TypeOfPost, SubtreePost, BindersPost, FillPre, FillPost};

use arrayvec::ArrayVec;
use nav::Places;
use parts::{OperandBytes, Operands};
use programs::program_of;
use put::Writer;
use synthesis::type_tree;

// The bytes of a type, which has at most 64.
type TypeBytes = ArrayVec<u8, 64>;

// Whether the right side has a type that is made from an operand's.
fn asks_types(pattern: usize) -> bool
    requires { pattern < 88 }
    ensures { result ≡ asks_types (template pattern) }
{
    program_of(pattern).iter().any(|part| part.asks_type())
}

// The type of the subtree at place k; `work` has room for a type of 64 bytes for each of its nodes.
fn type_with(places: &Places<'_>, k: usize, work: &mut [u8]) -> TypeBytes
    requires { TypeOfPre places.now k × WorkFor places.now k work.old }
    ensures { TypeOfPost places.now k result.items }
{
    // The tree was accepted, so each of its subtrees has a type.
    let m = type_tree(places.bytes, places.start_at(k), k, places.leaves, work).unwrap();
    TypeBytes::try_from(&work[..m]).unwrap()
}

// The same, with room for 2,048 nodes; most operands have no operands, a short frame has few nodes, and a buffer takes time to clear.
fn type_of_place(places: &Places<'_>, k: usize) -> TypeBytes
    requires { TypeOfPre places.now k }
    ensures { TypeOfPost places.now k result.items }
{
    // Kept: a buffer of each size, since a larger one takes longer to clear; each is one call. One function for these and for the sizes of
    // `checking` would lend its buffer to a closure, whose clauses would be those of the functions here and there.
    if places.arity_at(k) == 0 {
        return type_with(places, k, &mut [0; 128]);
    }
    if places.bytes.len() <= 62 {
        return type_with(places, k, &mut [0; 2048]);
    }
    if places.bytes.len() <= 254 {
        return type_with(places, k, &mut [0; 8192]);
    }
    if places.bytes.len() <= 1022 {
        return type_with(places, k, &mut [0; 32768]);
    }
    type_with(places, k, &mut [0; 131136])
}

// The bytes of the subtree at place k.
pub fn subtree_at<'a>(places: &Places<'a>, k: usize) -> &'a [u8]
    requires { InTables places.now k }
    ensures { SubtreePost places.now k result.now }
{
    &places.bytes[places.start_at(k)..places.end_at(k)]
}

// What stands behind the tag in the head of the node at place k: of a node with binders their count and types. The head ends where
// the next node starts.
fn behind_tag<'a>(places: &Places<'a>, k: usize) -> &'a [u8]
    requires { InTables places.now k }
    ensures { BindersPost places.now k result.now }
{
    let from = places.start_at(k) + 2;
    if k + 1 < places.count {
        return &places.bytes[from..places.start_at(k + 1)];
    }
    &places.bytes[from..]
}

// Kept: a pattern and three places and no struct: `build` makes them from a decision or, in a row, anew for each child.
// The pattern, filled with the operands at two places and the binders of the node at a third.
pub fn fill(
    places: &Places<'_>,
    pattern: usize,
    first: usize,
    second: usize,
    binder: usize,
    out: &mut Writer,
)
    requires { FillPre places.now pattern first second binder }
    ensures { FillPost places.now pattern first second binder out.old out.new }
{
    let (first_type, second_type) = if asks_types(pattern) {
        (type_of_place(places, first), type_of_place(places, second))
    } else {
        (TypeBytes::new(), TypeBytes::new())
    };
    let operands = Operands {
        first: OperandBytes {
            subtree: subtree_at(places, first),
            own_type: &first_type,
        },
        second: OperandBytes {
            subtree: subtree_at(places, second),
            own_type: &second_type,
        },
        binders: behind_tag(places, binder),
    };
    parts::fill_template(pattern, &operands, out);
}

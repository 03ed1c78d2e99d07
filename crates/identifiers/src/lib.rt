// Number 9 (document 01: "One identifier number has two types, or is the number of a given set in some type of the tree and
// its type isn't the power of that set."). Nodes stand in prefix order, and so do the parts of a type: the frame is gone
// through once from left to right, and a table holds what has been claimed of each identifier number. A frame with a number
// beyond the table is gone through again with a longer one, and at last with a table of all numbers.
#![tactic(auto)]

ghost use Rattle.std.specs.Prelude.{◌≡◌, ℕ, ◌≤◌, ◌<◌, List, length};
ghost use Rattle.frame.specs.Types.{Ty};
ghost use Rattle.frame.specs.Trees.{Tree, Forest};
ghost use Rattle.frame.specs.Tags.{Sort, predicate};
ghost use Rattle.frame.specs.At.{IsAt};
ghost use Rattle.typing.specs.Identifiers.{names_agree};
ghost use Rattle.reading.specs.Post.{Rest};
ghost use Rattle.claims.specs.Table.{Held};
ghost use Rattle.identifiers.specs.Claims.{TypesAt, TypesPost, NodePost, Clear, Decides, Agreed};

use claims::{note_given, note_identifier};
use frame::operators::FREE_IDENT;
use heads::{known_opening, number, type_bytes, type_parts};
use reading::Frame;

// Kept: a byte of a type, as read (types/src/lib.rt).
const GIVEN_SET: u8 = 2;

// Why no more claims are noted: a number has been claimed with another type, or the table has no entry for a number.
#[derive(Clone, Copy, Debug, PartialEq, Eq)]
enum Stop {
    Clashed,
    Beyond,
}

// The given sets in m types that stand at `at`.
fn note_types(s: &[u8], at: usize, m: usize, table: &mut [u16]) -> Result<usize, Stop>
    requires { Held s.now table.old × ((us : List Ty) × (q : ℕ) × TypesAt s.now at m us q) }
    ensures { TypesPost s.now at m table.old table.new result }
{
    let mut p = at;
    let mut left = m;
    // Kept: the count of types that are left goes up at a product and down at a leaf, so no `for` over a range says it; and apart from
    // `heads::skip_types`, which never stops on the way.
    while 0 < left {
        let b = s[p];
        if b == GIVEN_SET {
            let n = number(s, p + 1, 2);
            if table.len() <= n {
                return Err(Stop::Beyond);
            }
            if !note_given(s, n, table) {
                return Err(Stop::Clashed);
            }
        }
        p += type_bytes(b);
        left = left - 1 + type_parts(b);
    }
    Ok(p)
}

// The claims of the node at `at`: those of the given sets in its types, and its own if it is an identifier. A node's children are
// the next nodes, and the next node stands where its types end.
// Kept: that nodes stand there is a clause and no fact of a struct: each call is at another position.
fn note_node(s: &[u8], at: usize, table: &mut [u16]) -> Result<usize, Stop>
    requires { (at < length s.now) × Held s.now table.old × ((ts : Forest) × (es : List Sort) × Rest s.now at ts es) }
    ensures { NodePost s.now at table.old table.new result }
{
    let head = known_opening(s, at);
    let p = note_types(s, head.types, head.form.types(head.number), table)?;
    if head.tag == FREE_IDENT {
        if table.len() <= head.number {
            return Err(Stop::Beyond);
        }
        if !note_identifier(s, head.number, head.types, p, table) {
            return Err(Stop::Clashed);
        }
    }
    Ok(p)
}

// All nodes of the frame, with a table that has no claims yet.
fn note_nodes(frame: &Frame<'_>, table: &mut [u16]) -> Result<(), Stop>
    requires { Clear table.old }
    ensures { (t : Tree) → IsAt frame.now.bytes.now predicate 0 t (length frame.now.bytes.now) → Decides table.old t result }
{
    let bytes = frame.bytes;
    let mut at = 0;
    // Kept: what is noted of a node answers where the next one starts, so no `for` says it; an iterator over heads would find it twice.
    while at < bytes.len() {
        at = note_node(bytes, at, table)?;
    }
    Ok(())
}

// Whether the names of a frame's tree agree, by a table of N numbers; none if the frame has a number beyond it.
fn names_below<const N: usize>(frame: &Frame<'_>) -> Option<bool>
    requires { N ≤ 65536 }
    ensures { (t : Tree) → IsAt frame.now.bytes.now predicate 0 t (length frame.now.bytes.now) → Agreed N t result }
{
    let mut table = [0u16; N];
    match note_nodes(frame, &mut table) {
        Ok(()) => Some(true),
        Err(Stop::Clashed) => Some(false),
        Err(Stop::Beyond) => None,
    }
}

// Whether the names of a frame's tree agree. Nearly all frames have numbers below 256 only, and those with no number from 4,096 on
// don't pay for clearing the table of all numbers. That one has an entry for each two-byte number: so the time grows with the
// frame alone, whichever numbers it has.
pub fn names_ok(frame: &Frame<'_>) -> bool
    ensures { (t : Tree) → IsAt frame.now.bytes.now predicate 0 t (length frame.now.bytes.now) → result ≡ names_agree t }
{
    // Kept: no `or_else`, as each closure would need clauses of its own (logic/src/implication.rt).
    if let Some(agree) = names_below::<256>(frame) {
        return agree;
    }
    if let Some(agree) = names_below::<4096>(frame) {
        return agree;
    }
    names_below::<65536>(frame).unwrap_or(false)
}

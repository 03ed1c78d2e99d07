// What is claimed of each identifier number: an identifier claims its type, a given set in some type the power of that set. A
// table holds the claims, and one of another type clashes (number 9).
#![tactic(auto)]

ghost use Rattle.std.specs.Prelude.{◌≤◌, ◌<◌, length};
ghost use Rattle.frame.specs.Types.{Ty};
ghost use Rattle.frame.specs.Reading.{frame_limit};
ghost use Rattle.claims.specs.Table.{PowerPost, SameType, Held, TypeAt, NamePost, GivenPost, EntrySays};

use heads::number;

// The entry of a number that a given set has claimed. Other entries are one more than the position of an identifier's type,
// at most 4,096, and 0 where nothing has been claimed: so any number above tells it from these.
const GIVEN: u16 = 5000;

// Who claimed a number: an identifier with the type that stands at a position, or a given set.
#[derive(Clone, Copy, Debug, PartialEq, Eq)]
enum Claim {
    Identifier(usize),
    GivenSet,
}

// What an entry of the table says.
// Kept: a table of `Option<Claim>` is at least twice as long, so that of all two-byte numbers would take 128 KiB more of the
// fixed memory at least, to be cleared for each frame that needs it.
fn claim_of(entry: u16) -> Option<Claim>
    ensures { EntrySays entry result }
{
    match entry {
        0 => None,
        GIVEN => Some(Claim::GivenSet),
        _ => Some(Claim::Identifier(usize::from(entry) - 1)),
    }
}

// Whether the type from p up to q stands at e as well.
fn same_type(s: &[u8], p: usize, q: usize, e: usize) -> bool
    requires { (p ≤ q) × (q ≤ length s.now) × (e ≤ length s.now) }
    ensures { SameType s.now p q e result }
{
    let n = q - p;
    e + n <= s.len() && s[p..q] == s[e..e + n]
}

// Whether the type at p is the power of the given set n.
// Kept: by the bytes of types (types/src/lib.rt).
// Kept: here and below n is a number below 65,536 by a clause, as `heads::number` reads it; as a u16 it would be cast at each call.
pub fn is_power(s: &[u8], p: usize, n: usize) -> bool
    requires { (p ≤ length s.now) × (length s.now ≤ frame_limit) × (n < 65536) }
    ensures { PowerPost s.now p n result }
{
    p + 4 <= s.len() && s[p] == 3 && s[p + 1] == 2 && number(s, p + 2, 2) == n
}

// An identifier n whose type stands from p up to q.
// Kept: a bool, here and below: whether the claim agrees with those before. `identifiers` has a reason more to stop.
// Kept: the frame and the table are no struct: one is lent to be read, the other to be written. The contracts leave open what the
// table holds after a clash, so that it holds claims would still be a clause of each call, and no fact of the struct.
pub fn note_identifier(s: &[u8], n: usize, p: usize, q: usize, table: &mut [u16]) -> bool
    requires { (n < 65536) × (n < length table.old) × Held s.now table.old × ((t : Ty) × TypeAt s.now p q t) }
    ensures { NamePost s.now n p q table.old table.new result }
{
    match claim_of(table[n]) {
        None => {
            // Kept: `as`: no `From` makes a shorter number, and by `try_from` the proof would be asked the same and the line be longer.
            table[n] = (p + 1) as u16;
            true
        }
        Some(Claim::GivenSet) => is_power(s, p, n),
        Some(Claim::Identifier(e)) => same_type(s, p, q, e),
    }
}

// A given set n in some type: its number is an identifier's of one type only, the power of that set.
pub fn note_given(s: &[u8], n: usize, table: &mut [u16]) -> bool
    requires { (n < 65536) × (n < length table.old) × Held s.now table.old }
    ensures { GivenPost s.now n table.old table.new result }
{
    match claim_of(table[n]) {
        None => {
            table[n] = GIVEN;
            true
        }
        Some(Claim::GivenSet) => true,
        Some(Claim::Identifier(e)) => is_power(s, e, n),
    }
}

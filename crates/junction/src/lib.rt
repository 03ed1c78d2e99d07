// ∧ and ∨: which children stay. A neutral literal and a repeat go; a literal that decides, or a child beside its opposite,
// makes the whole that literal.
// Kept: that trees stand at the places is a clause of each function; nav/src/lib.rt says why it is no field of a `Places`.
#![tactic(auto)]

mod keys; // keys.rt: keys that tell most children apart

ghost use Rattle.std.specs.Prelude.{◌≡◌};
ghost use Rattle.junction.specs.Junction.{literals_of, settled, CanDiffer, DifferAt, CanBeNew, NewAt, JunctionAt, AbsorbAt, JunctionDone};

use crate::keys::key_at;
use decision::Decision;
use decision::contains::opposite;
use decision::kept::{Kept, KeptChild};
use decision::operands::patterned;
use frame::operators::{BFALSE, BTRUE, LAND};
use nav::Places;

// What an operator drops, what decides it, and the patterns of both: 1 and 2 are those of ⊤ and ⊥.
#[derive(Clone, Copy, Debug, PartialEq, Eq)]
struct Literals {
    neutral: usize,
    neutral_pattern: usize,
    determinant: usize,
    determinant_pattern: usize,
}

// Those of ∧ and of ∨, by the operator's tag.
fn literals_of(tag: usize) -> Literals
    ensures { result ≡ literals_of tag }
{
    if tag == LAND {
        return Literals {
            neutral: BTRUE,
            neutral_pattern: 1,
            determinant: BFALSE,
            determinant_pattern: 2,
        };
    }
    Literals {
        neutral: BFALSE,
        neutral_pattern: 2,
        determinant: BTRUE,
        determinant_pattern: 1,
    }
}

// Whether a child is another tree than one that is kept; nothing where that is its opposite.
fn differs(places: &Places<'_>, one: KeptChild, child: KeptChild) -> Option<bool>
    requires { CanDiffer places.now one child }
    ensures { DifferAt places.now one child result }
{
    if one.key != child.key {
        return Some(true);
    }
    let p = usize::from(one.place);
    let c = usize::from(child.place);
    if opposite(places, p, c) {
        return None;
    }
    Some(!places.same_at(p, c))
}

// Whether a child is new beside those kept; nothing where one of them is its opposite, which decides. It is compared with all of
// them even after it was found to be a repeat: an opposite decides all the same.
fn is_new(places: &Places<'_>, kept: &Kept, child: KeptChild) -> Option<bool>
    requires { CanBeNew places.now kept.now.items child }
    ensures { NewAt places.now kept.now.items child result }
{
    let mut new = true;
    for &one in kept.iter() {
        new &= differs(places, one, child)?;
    }
    Some(new)
}

// The children that stay go into the lent list; nothing where one of them decides.
fn absorb(places: &Places<'_>, k: usize, literals: Literals, kept: &mut Kept) -> Option<()>
    requires { JunctionAt places.now k }
    ensures { AbsorbAt places.now k literals kept.new.items result }
{
    kept.clear();
    for c in places.children(k) {
        let tag = places.tag_at(c);
        if tag == literals.determinant {
            return None;
        }
        if tag != literals.neutral {
            // Kept: `as`: no `From` makes a shorter number, and the proof knows c < 2048; by `try_from` four answers need an equation.
            let child = KeptChild {
                place: c as u16,
                key: key_at(places, c),
            };
            if is_new(places, kept, child)? {
                kept.push(child);
            }
        }
    }
    Some(())
}

// What comes of those kept, of n children of the node at place k. The operand of a literal is not looked at.
fn settle(kept: &[KeptChild], k: usize, n: usize, neutral_pattern: usize) -> Option<Decision>
    ensures { result ≡ settled kept.now k n neutral_pattern }
{
    match kept {
        [] => patterned(63, neutral_pattern, k, k),
        [only] => patterned(64, 64, usize::from(only.place), k),
        _ => {
            if kept.len() == n {
                return None;
            }
            Some(Decision::Kept)
        }
    }
}

// The rule at an ∧ or an ∨.
pub fn simplify_assoc_pred(places: &Places<'_>, k: usize, kept: &mut Kept) -> Option<Decision>
    requires { JunctionAt places.now k }
    ensures { JunctionDone places.now k kept.new.items result }
{
    let literals = literals_of(places.tag_at(k));
    if absorb(places, k, literals, kept).is_none() {
        return patterned(62, literals.determinant_pattern, k, k);
    }
    settle(kept, k, places.arity_at(k), literals.neutral_pattern)
}

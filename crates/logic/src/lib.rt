// ⇔ (75 to 81) and ¬ (82 to 84), and the negation of an operand.
// Kept: that trees stand at the places is a clause of each function; nav/src/lib.rt says why it is no field of a `Places`.
#![tactic(auto)]

pub mod implication; // implication.rt: ⇒
pub mod quantified; // quantified.rt: ∀ and ∃

ghost use Rattle.std.specs.Prelude.{◌≡◌, ◌<◌};
ghost use Rattle.rules.specs.Simplify.{simplify_eqv, simplify_not};
ghost use Rattle.decision.specs.Decides.{negated_at};
ghost use Rattle.decision.specs.AtPlaces.{HereAt, HereBoth, DecidesOneAt, DecidesTwoAt};

use decision::Decision;
use decision::contains::negates;
use decision::operands::{fixed, patterned};
use frame::operators::{BFALSE, BTRUE, NOT};
use nav::Places;

// ¬ of the tree at place p, whose tag is given: what a negation negates, or a new negation.
pub fn make_neg(place: usize, tag: usize, p: usize) -> Option<Decision>
    requires { p < 2048 }
    ensures { result ≡ negated_at place tag p }
{
    if tag == NOT {
        return patterned(place, 64, p + 1, p);
    }
    fixed(place, p, p, p)
}

// ⇔ of the predicates at places a and b.
pub fn equivalence_at(places: &Places<'_>, a: usize, b: usize) -> Option<Decision>
    requires { HereBoth places.now a b }
    ensures { DecidesTwoAt simplify_eqv places.now a b result }
{
    let left = places.tag_at(a);
    let right = places.tag_at(b);
    if right == BTRUE {
        return fixed(75, a, a, a);
    }
    if left == BTRUE {
        return fixed(76, b, b, b);
    }
    if places.same_at(a, b) {
        return fixed(77, a, a, a);
    }
    if right == BFALSE {
        return make_neg(78, left, a);
    }
    if left == BFALSE {
        return make_neg(79, right, b);
    }
    if negates(places, b, a) {
        return fixed(80, a, a, a);
    }
    if negates(places, a, b) {
        return fixed(81, a, a, a);
    }
    None
}

// ¬ of the predicate at place k.
pub fn negation_at(places: &Places<'_>, k: usize) -> Option<Decision>
    requires { HereAt places.now k }
    ensures { DecidesOneAt simplify_not places.now k result }
{
    let tag = places.tag_at(k);
    let nested = k + 1;
    match tag {
        BTRUE => fixed(82, k, k, k),
        BFALSE => fixed(83, k, k, k),
        NOT => fixed(84, nested, nested, k),
        _ => None,
    }
}

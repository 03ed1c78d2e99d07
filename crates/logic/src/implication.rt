// ⇒ (66 to 74), on two operands.
ghost use Rattle.rules.specs.Simplify.{simplify_imp};
ghost use Rattle.decision.specs.RulesAt.{imp_first, imp_and, imp_last};
ghost use Rattle.decision.specs.AtPlaces.{HereBoth, DecidesTwoAt};

use decision::Decision;
use decision::contains::{negates, opposite};
use decision::operands::fixed;
use frame::operators::{BFALSE, BTRUE, LAND};
use nav::Places;

// The predicates at places a and b: ⊤, ⊥ and sameness.
fn implication_first_at(places: &Places<'_>, a: usize, b: usize) -> Option<Decision>
    requires { HereBoth places.now a b }
    ensures { DecidesTwoAt imp_first places.now a b result }
{
    let left = places.tag_at(a);
    let right = places.tag_at(b);
    if left == BTRUE {
        return fixed(66, b, b, b);
    }
    if left == BFALSE {
        return fixed(67, a, a, a);
    }
    if right == BTRUE {
        return fixed(68, a, a, a);
    }
    if right == BFALSE {
        return crate::make_neg(69, left, a);
    }
    if places.same_at(a, b) {
        return fixed(70, a, a, a);
    }
    None
}

// The first is ∧: the second, or its negation, is among its operands.
fn implication_and_at(places: &Places<'_>, a: usize, b: usize) -> Option<Decision>
    requires { HereBoth places.now a b }
    ensures { DecidesTwoAt imp_and places.now a b result }
{
    let left = places.tag_at(a);
    if left != LAND {
        return None;
    }
    if places.children(a).any(|c| places.same_at(c, b)) {
        return fixed(71, a, a, a);
    }
    if places.children(a).any(|c| opposite(places, c, b)) {
        return fixed(72, a, a, a);
    }
    None
}

// One is ¬ of the other.
fn implication_last_at(places: &Places<'_>, a: usize, b: usize) -> Option<Decision>
    requires { HereBoth places.now a b }
    ensures { DecidesTwoAt imp_last places.now a b result }
{
    if negates(places, a, b) {
        return fixed(73, b, b, b);
    }
    if negates(places, b, a) {
        return fixed(74, b, b, b);
    }
    None
}

// ⇒ of the predicates at places a and b: the tests in the source's order.
// Kept: no `or_else`: tried, and the proof knows nothing of a closure's answer unless it repeats the called function's clauses.
pub fn implication_at(places: &Places<'_>, a: usize, b: usize) -> Option<Decision>
    requires { HereBoth places.now a b }
    ensures { DecidesTwoAt simplify_imp places.now a b result }
{
    if let Some(first) = implication_first_at(places, a, b) {
        return Some(first);
    }
    if let Some(within) = implication_and_at(places, a, b) {
        return Some(within);
    }
    implication_last_at(places, a, b)
}

// finite(S) by the tag of S (1 to 13).
ghost use Rattle.decision.specs.AtPlaces.{HereAt, HereBoth, DecidesAt, DecidesTwoAt};
ghost use Rattle.decision.specs.RulesAt.{finite_restricted};
ghost use Rattle.predicates.specs.FiniteSet.{SetAt, SetDecides};
ghost use Rattle.rules.specs.Finite.{rewrite_finite};

use decision::Decision;
use decision::operands::fixed;
use frame::operators::{
    BOOL, BUNION, CONVERSE, CPROD, CSET, DOMRES, EMPTYSET, INTEGER, KID_GEN, KPRJ1_GEN, KPRJ2_GEN,
    MAPSTO, NATURAL, NATURAL1, POW, SETEXT, UPTO,
};
use nav::Places;

// finite(a ◁ b), where b is id, prj1 or prj2.
fn finite_restricted_at(places: &Places<'_>, a: usize, b: usize) -> Option<Decision>
    requires { HereBoth places.now a b }
    ensures { DecidesTwoAt finite_restricted places.now a b result }
{
    let tag = places.tag_at(b);
    match tag {
        KID_GEN | KPRJ1_GEN | KPRJ2_GEN => fixed(12, a, a, a),
        _ => None,
    }
}

// finite of the comprehension set at place k, {x · P ∣ E ↦ F}: as finite as {x · P ∣ E} where F is a function of E.
fn finite_set_at(places: &Places<'_>, k: usize) -> Option<Decision>
    requires { SetAt places.now k }
    ensures { SetDecides places.now k result }
{
    let value = places.second_of(k);
    if places.tag_at(value) != MAPSTO {
        return None;
    }
    let left = value + 1;
    let right = places.second_of(value);
    let n = functional::binders_at(places, k);
    if functional::functional_check(places, left, right, n) {
        return fixed(11, k + 1, left, k);
    }
    None
}

// finite of the set at place k.
#[tactic(auto, using(crate::proofs::FiniteTurns::finite_none))]
pub fn rewrite_finite(places: &Places<'_>, k: usize) -> Option<Decision>
    requires { HereAt places.now k }
    ensures { DecidesAt rewrite_finite places.now k result }
{
    let tag = places.tag_at(k);
    let a = k + 1;
    let b = places.second_of(k);
    match tag {
        EMPTYSET => fixed(1, k, k, k),
        NATURAL | NATURAL1 | INTEGER => fixed(2, k, k, k),
        BOOL => fixed(3, k, k, k),
        KID_GEN => fixed(4, k, k, k),
        SETEXT => fixed(5, k, k, k),
        BUNION => decision::operands::each(6, k),
        POW => fixed(7, a, a, k),
        CPROD => fixed(8, a, b, k),
        CONVERSE => fixed(9, a, a, k),
        UPTO => fixed(10, k, k, k),
        CSET => finite_set_at(places, k),
        DOMRES => finite_restricted_at(places, a, b),
        KPRJ1_GEN | KPRJ2_GEN => fixed(13, k, k, k),
        _ => None,
    }
}

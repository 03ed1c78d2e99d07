// A set equated to the type expression of its elements (24 to 35), or to ∅ (36 to 61): the set's tag says the place.
// `empty_by_tag` has the tags that say the operands too (the node, its children, or none), and reads nothing of the set.
pub mod own_type; // own_type.rt: an expression that is a type
pub mod equality; // equality.rt: which of the rules = and ⊆ go to

ghost use Rattle.std.specs.Prelude.{◌<◌};
ghost use Rattle.rules.specs.EqualsType.{rewrite_equals_type};
ghost use Rattle.rules.specs.EqualsEmptySet.{rewrite_equals_empty_set};
ghost use Rattle.decision.specs.Decides.{ByTag, Unlike};
ghost use Rattle.decision.specs.AtPlaces.{HereAt, DecidesAt};
ghost use Rattle.decision.specs.RulesAt.{looked_up};

use decision::Decision;
use decision::operands::fixed;
use frame::operators::{
    BCOMP, BINTER, BUNION, CONVERSE, CPROD, DOMRES, DOMSUB, DPROD, FCOMP, KDOM, KID_GEN, KINTER,
    KPRJ1_GEN, KPRJ2_GEN, KRAN, KUNION, NATURAL, NATURAL1, OVR, POW, POW1, PPROD, QINTER, QUNION,
    RANRES, RANSUB, RELIMAGE, SETEXT, SETMINUS, SREL, STREL, UPTO,
};
use nav::Places;

// The set at place k equals the type expression of its elements.
#[tactic(auto, using(crate::proofs::TypeTurns::type_none))]
pub fn rewrite_equals_type(places: &Places<'_>, k: usize) -> Option<Decision>
    requires { HereAt places.now k }
    ensures { DecidesAt rewrite_equals_type places.now k result }
{
    let tag = places.tag_at(k);
    let a = k + 1;
    let b = places.second_of(k);
    match tag {
        BINTER => decision::operands::each(24, k),
        SETMINUS => fixed(25, a, b, k),
        CPROD => fixed(26, a, b, k),
        UPTO => fixed(27, a, b, k),
        DOMRES => fixed(28, a, b, k),
        DOMSUB => fixed(29, a, b, k),
        RANRES => fixed(30, a, b, k),
        RANSUB => fixed(31, a, b, k),
        DPROD | PPROD => fixed(32, a, b, k),
        KINTER => fixed(33, a, a, k),
        CONVERSE => fixed(34, a, a, k),
        QINTER => fixed(35, a, b, k),
        _ => None,
    }
}

// The set equals ∅, of a tag that says the place and the operands by itself: they are the node, its children, or none.
#[tactic(auto, using(crate::proofs::EmptyTurns::empty_none))]
fn empty_by_tag(tag: usize, k: usize) -> Option<Decision>
    requires { (k < 2048) × Unlike tag looked_up }
    ensures { ByTag rewrite_equals_empty_set tag k result }
{
    let a = k + 1;
    match tag {
        SETEXT => fixed(36, k, k, k),
        BUNION => decision::operands::each(39, k),
        POW => fixed(52, a, a, k),
        POW1 => fixed(53, a, a, k),
        KUNION => fixed(54, a, a, k),
        KDOM | KRAN | CONVERSE => fixed(55, a, a, k),
        OVR => decision::operands::each(58, k),
        NATURAL | NATURAL1 => fixed(60, k, k, k),
        KID_GEN | KPRJ1_GEN | KPRJ2_GEN => fixed(61, k, k, k),
        _ => None,
    }
}

// The set at place k equals ∅. An intersection has a function of its own.
pub fn rewrite_equals_empty_set(places: &Places<'_>, k: usize) -> Option<Decision>
    requires { HereAt places.now k }
    ensures { DecidesAt rewrite_equals_empty_set places.now k result }
{
    let tag = places.tag_at(k);
    let a = k + 1;
    let b = places.second_of(k);
    let m = places.arity_at(k);
    match tag {
        BINTER => crate::inter::decide_inter(places, k),
        SETMINUS => fixed(40, a, b, k),
        CPROD => fixed(41, a, b, k),
        UPTO => fixed(42, a, b, k),
        SREL => fixed(43, a, b, k),
        STREL => fixed(44, a, b, k),
        DOMRES => fixed(45, a, b, k),
        DOMSUB => fixed(46, a, b, k),
        RANRES => fixed(47, a, b, k),
        RANSUB => fixed(48, a, b, k),
        RELIMAGE => fixed(49, a, b, k),
        DPROD => fixed(50, a, b, k),
        PPROD => fixed(51, a, b, k),
        FCOMP => decision::operands::fixed_if_two(m, 56, a, b, k),
        BCOMP => decision::operands::fixed_if_two(m, 57, a, b, k),
        QUNION => fixed(59, a, b, k),
        _ => empty_by_tag(tag, k),
    }
}

// Quantifiers over ∧, ∨ and ⇒ (85 to 87).
ghost use Rattle.decision.specs.AtPlaces.{HereAt, DecidesAt};
ghost use Rattle.decision.specs.RulesAt.{forall_of, exists_of};

use decision::Decision;
use decision::operands::fixed;
use frame::operators::{EXISTS, FORALL, LAND, LIMP, LOR};
use nav::Places;

// ∀ at place k.
pub fn forall_at(places: &Places<'_>, k: usize) -> Option<Decision>
    requires { HereAt places.now k }
    ensures { DecidesAt forall_of places.now k result }
{
    let tag = places.tag_at(k);
    if tag != FORALL {
        return None;
    }
    let a = k + 1;
    let body = places.tag_at(a);
    if body == LAND {
        return decision::operands::each_under(85, a, k);
    }
    None
}

// ∃ at place k.
pub fn exists_at(places: &Places<'_>, k: usize) -> Option<Decision>
    requires { HereAt places.now k }
    ensures { DecidesAt exists_of places.now k result }
{
    let tag = places.tag_at(k);
    if tag != EXISTS {
        return None;
    }
    let a = k + 1;
    let body = places.tag_at(a);
    if body == LOR {
        return decision::operands::each_under(86, a, k);
    }
    if body == LIMP {
        let b = places.second_of(a);
        return fixed(87, a + 1, b, k);
    }
    None
}

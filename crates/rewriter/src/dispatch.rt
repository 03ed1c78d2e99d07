// Which rules a node goes to: logic first, then those of its tag.
ghost use Rattle.decision.specs.AtPlaces.{HereAt, DispatchAt};

use decision::Decision;
use decision::kept::Kept;
use frame::operators::{EQUAL, FINITE, NOT, PARTITION, SUBSETEQ};
use nav::Places;

// What the rules decide at place k. The places of the children that an ∧ or an ∨ keeps go into the lent list.
// Kept: no `or_else`: tried in `equal_at` (equals/equality.rt), where the proof knows nothing of a closure's answer.
pub fn decide(places: &Places<'_>, k: usize, kept: &mut Kept) -> Option<Decision>
    requires { HereAt places.now k }
    ensures { DispatchAt places.now k kept.new.items result }
{
    if let Some(logic) = crate::node::simplify_predicate_node(places, k, kept) {
        return Some(logic);
    }
    let tag = places.tag_at(k);
    let a = k + 1;
    let b = places.second_of(k);
    match tag {
        NOT => predicates::negation::rewrite_not(places, k),
        FINITE => predicates::finite::rewrite_finite(places, a),
        PARTITION => predicates::partition::rewrite_partition(places, k),
        EQUAL => crate::equals::equality::equal_at(places, a, b),
        SUBSETEQ => crate::equals::equality::subset_at(places, a, b),
        _ => None,
    }
}

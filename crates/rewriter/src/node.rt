// Logic, by a predicate node's tag (62 to 87): the arms of the source's `simplify_predicate_node`, in its order.
ghost use Rattle.decision.specs.AtPlaces.{HereAt, NodeAt};

use decision::Decision;
use decision::kept::Kept;
use frame::operators::{EXISTS, FORALL, LAND, LEQV, LIMP, LOR, NOT};
use nav::Places;

// What logic decides at place k. The places of the children that an ∧ or an ∨ keeps go into the lent list.
#[tactic(auto, using(crate::proofs::NodeTurns::to_none))]
pub fn simplify_predicate_node(places: &Places<'_>, k: usize, kept: &mut Kept) -> Option<Decision>
    requires { HereAt places.now k }
    ensures { NodeAt places.now k kept.new.items result }
{
    let tag = places.tag_at(k);
    let a = k + 1;
    let b = places.second_of(k);
    match tag {
        LAND | LOR => junction::simplify_assoc_pred(places, k, kept),
        LIMP => logic::implication::implication_at(places, a, b),
        LEQV => logic::equivalence_at(places, a, b),
        NOT => logic::negation_at(places, a),
        FORALL => logic::quantified::forall_at(places, k),
        EXISTS => logic::quantified::exists_at(places, k),
        _ => None,
    }
}

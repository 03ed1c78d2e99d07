// Whether an expression is the type expression of its own elements. The nodes alone say so: BOOL, integers, a given set, and
// powers and products of these.
ghost use Rattle.decision.specs.AtPlaces.{HereAt};
ghost use Rattle.rewriter.specs.AtPlaces.{IdentAt, NamedAt, OwnTypeAt};

use frame::operators::{BOOL, CPROD, FREE_IDENT, INTEGER, POW};
use nav::Places;

// Whether the identifier at place k is a given set: its type is the power of the set of its own number.
fn is_given_at(places: &Places<'_>, k: usize) -> bool
    requires { IdentAt places.now k }
    ensures { NamedAt places.now k result }
{
    let at = places.start_at(k);
    let n = heads::number(places.bytes, at + 2, 2);
    claims::is_power(places.bytes, at + 4, n)
}

// Whether the expression at place k is the type expression of its own elements.
pub fn own_type_at(places: &Places<'_>, k: usize) -> bool
    requires { HereAt places.now k }
    ensures { OwnTypeAt places.now k result }
{
    match places.tag_at(k) {
        BOOL | INTEGER => true,
        FREE_IDENT => is_given_at(places, k),
        POW => own_type_at(places, k + 1),
        CPROD => own_type_at(places, k + 1) && own_type_at(places, places.next_at(k + 1)),
        _ => false,
    }
}

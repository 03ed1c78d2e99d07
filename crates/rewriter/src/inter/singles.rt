// Sets of one member among the operands of ∩: how many there are, and where the first is.
ghost use Rattle.nav.specs.AtPlaces.{AtPlace};
ghost use Rattle.rewriter.specs.AtPlaces.{SingleHere, InterAt, CountAt, FirstAt};

use frame::operators::SETEXT;
use nav::Places;

// Whether the expression at place k is a set of one member, {a}.
fn is_single(places: &Places<'_>, k: usize) -> bool
    requires { AtPlace places.now k }
    ensures { SingleHere places.now k result }
{
    places.tag_at(k) == SETEXT && places.arity_at(k) == 1
}

// How many children of the node at place k are sets of one member.
pub fn count_singles(places: &Places<'_>, k: usize) -> usize
    requires { InterAt places.now k }
    ensures { CountAt places.now k result }
{
    places.count_children(k, |c| is_single(places, c))
}

// Where the first of them is.
pub fn first_single(places: &Places<'_>, k: usize) -> Option<usize>
    requires { InterAt places.now k }
    ensures { FirstAt places.now k result }
{
    places.children(k).find(|&c| is_single(places, c))
}

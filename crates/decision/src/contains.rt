// Whether a tree is another or its negation.
ghost use Rattle.frame.specs.Trees.{one};
ghost use Rattle.frame.specs.Operators.{#Not};
ghost use Rattle.nav.specs.AtPlaces.{AtBoth};
ghost use Rattle.rules.specs.Simplify.{make_neg};
ghost use Rattle.decision.specs.AtPlaces.{ComparedAt};

use frame::operators::NOT;
use nav::Places;

// Whether the predicate at place a is ¬ of the one at place b.
pub fn negates(places: &Places<'_>, a: usize, b: usize) -> bool
    requires { AtBoth places.now a b }
    ensures { ComparedAt (one #Not) places.now a b result }
{
    if places.tag_at(a) != NOT {
        return false;
    }
    places.same_at(a + 1, b)
}

// Whether it is what `make_neg` makes of the one at place b: what ¬ stands before, or b under a ¬.
pub fn opposite(places: &Places<'_>, a: usize, b: usize) -> bool
    requires { AtBoth places.now a b }
    ensures { ComparedAt make_neg places.now a b result }
{
    if places.tag_at(b) == NOT {
        return places.same_at(a, b + 1);
    }
    negates(places, a, b)
}

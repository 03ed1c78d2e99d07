// ¬ of an order or an equation (16 to 23). Logic has its own rules of ¬ (logic/src/lib.rt).
ghost use Rattle.rules.specs.Negation.{rewrite_not};
ghost use Rattle.decision.specs.AtPlaces.{HereAt, HereBoth, DecidesOneAt, DecidesTwoAt};
ghost use Rattle.decision.specs.RulesAt.{unequal};

use decision::Decision;
use decision::operands::fixed;
use frame::operators::{EQUAL, FALSE, GE, GT, LE, LT, NOT, TRUE};
use nav::Places;

// ¬ a = b, where a or b is TRUE or FALSE.
fn unequal_at(places: &Places<'_>, a: usize, b: usize) -> Option<Decision>
    requires { HereBoth places.now a b }
    ensures { DecidesTwoAt unequal places.now a b result }
{
    let right = places.tag_at(b);
    if right == FALSE {
        return fixed(20, a, a, a);
    }
    if right == TRUE {
        return fixed(21, a, a, a);
    }
    let left = places.tag_at(a);
    if left == FALSE {
        return fixed(22, b, b, a);
    }
    if left == TRUE {
        return fixed(23, b, b, a);
    }
    None
}

// ¬ at place k.
pub fn rewrite_not(places: &Places<'_>, k: usize) -> Option<Decision>
    requires { HereAt places.now k }
    ensures { DecidesOneAt rewrite_not places.now k result }
{
    if places.tag_at(k) != NOT {
        return None;
    }
    let inner = k + 1;
    let tag = places.tag_at(inner);
    let a = inner + 1;
    let b = places.second_of(inner);
    match tag {
        LE => fixed(16, a, b, inner),
        GE => fixed(17, a, b, inner),
        GT => fixed(18, a, b, inner),
        LT => fixed(19, a, b, inner),
        EQUAL => unequal_at(places, a, b),
        _ => None,
    }
}

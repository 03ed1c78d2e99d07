// = and ⊆ between two sets, where one side is ∅, or the type expression of its own elements.
ghost use Rattle.rules.specs.Dispatch.{empty_rules, equal_rules, subset_rules};
ghost use Rattle.decision.specs.AtPlaces.{HereBoth, DecidesPairAt};
ghost use Rattle.decision.specs.RulesAt.{type_right};

use decision::Decision;
use frame::operators::EMPTYSET;
use nav::Places;

// The set at place a is within the one at place b: the empty rules, where that is ∅.
pub fn subset_at(places: &Places<'_>, a: usize, b: usize) -> Option<Decision>
    requires { HereBoth places.now a b }
    ensures { DecidesPairAt subset_rules places.now a b result }
{
    if places.tag_at(b) != EMPTYSET {
        return None;
    }
    crate::equals::rewrite_equals_empty_set(places, a)
}

// The sets at places a and b are equal: the empty rules on one of them, where the other is ∅. The right side is looked at first.
fn empty_rules_at(places: &Places<'_>, a: usize, b: usize) -> Option<Decision>
    requires { HereBoth places.now a b }
    ensures { DecidesPairAt empty_rules places.now a b result }
{
    let right = places.tag_at(b);
    if right == EMPTYSET {
        return crate::equals::rewrite_equals_empty_set(places, a);
    }
    let left = places.tag_at(a);
    if left == EMPTYSET {
        return crate::equals::rewrite_equals_empty_set(places, b);
    }
    None
}

// The type rules on the set at place a, where the one at place b is the type expression of its own elements.
fn type_rule_at(places: &Places<'_>, a: usize, b: usize) -> Option<Decision>
    requires { HereBoth places.now a b }
    ensures { DecidesPairAt type_right places.now a b result }
{
    if crate::equals::own_type::own_type_at(places, b) {
        return crate::equals::rewrite_equals_type(places, a);
    }
    None
}

// = of the expressions at places a and b.
// Kept: no `or_else`: tried, and the proof knows nothing of a closure's answer unless it repeats the called function's clauses.
pub fn equal_at(places: &Places<'_>, a: usize, b: usize) -> Option<Decision>
    requires { HereBoth places.now a b }
    ensures { DecidesPairAt equal_rules places.now a b result }
{
    if let Some(empty) = empty_rules_at(places, a, b) {
        return Some(empty);
    }
    if let Some(left) = type_rule_at(places, a, b) {
        return Some(left);
    }
    type_rule_at(places, b, a)
}

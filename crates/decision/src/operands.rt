// Decisions with a fixed pattern, on a node or on its children.
ghost use Rattle.std.specs.Prelude.{◌≡◌, eqb};
ghost use Rattle.frame.specs.Tags.{pick};
ghost use Rattle.decision.specs.declared.Decision.TheVariants.{Fixed, Each};

use crate::Decision;

// The place's own pattern. Where it has no second operand, none at all, or no binder, any place may stand there: it is not looked at.
pub fn fixed(place: usize, first: usize, second: usize, binder: usize) -> Option<Decision>
    ensures { result ≡ Some (Fixed place place first second binder) }
{
    Some(Decision::Fixed {
        place: place,
        pattern: place,
        first: first,
        second: second,
        binder: binder,
    })
}

// Kept: apart from `fixed`: with one function for both, each caller would give the pattern or the operand twice. All these answer an
// `Option`, as they are the values of arms some of which decide nothing.
// Another pattern, on one operand.
pub fn patterned(place: usize, pattern: usize, operand: usize, binder: usize) -> Option<Decision>
    ensures { result ≡ Some (Fixed place pattern operand operand binder) }
{
    Some(Decision::Fixed {
        place: place,
        pattern: pattern,
        first: operand,
        second: operand,
        binder: binder,
    })
}

// An operator that takes any number of operands, at which the place wants just two; m is their number.
pub fn fixed_if_two(
    m: usize,
    place: usize,
    first: usize,
    second: usize,
    binder: usize,
) -> Option<Decision>
    ensures { result ≡ pick (eqb m 2) (Some (Fixed place place first second binder)) None }
{
    if m == 2 {
        return fixed(place, first, second, binder);
    }
    None
}

// The place's pattern for each child of the node, with the binders of another.
pub fn each_under(place: usize, node: usize, binder: usize) -> Option<Decision>
    ensures { result ≡ Some (Each place node binder) }
{
    Some(Decision::Each {
        place: place,
        node: node,
        binder: binder,
    })
}

// The same, with the node's own binders.
pub fn each(place: usize, node: usize) -> Option<Decision>
    ensures { result ≡ Some (Each place node node) }
{
    each_under(place, node, node)
}

// ∩ = ∅ (37, 38): operands that are sets of one member, or differences.
pub mod singles; // singles.rt: sets of one member among operands

ghost use Rattle.std.specs.Prelude.{◌≡◌};
ghost use Rattle.nav.specs.AtPlaces.{AtPlace};
ghost use Rattle.rewriter.specs.Inter.{apart_when};
ghost use Rattle.rewriter.specs.AtPlaces.{MinusAt, InterAt, AnyMinusAt, ApartAt, InterDone};

use decision::Decision;
use frame::operators::SETMINUS;
use nav::Places;

// Kept: apart from `is_single`, which also counts the children; with that in common, these would be counted here for nothing.
// Whether the expression at place k is a difference, A ∖ B.
fn is_minus(places: &Places<'_>, k: usize) -> bool
    requires { AtPlace places.now k }
    ensures { MinusAt places.now k result }
{
    places.tag_at(k) == SETMINUS
}

// Whether some child of the node at place k is a difference.
fn any_minus(places: &Places<'_>, k: usize) -> bool
    requires { InterAt places.now k }
    ensures { AnyMinusAt places.now k result }
{
    places.children(k).any(|c| is_minus(places, c))
}

// Whether the rule for a set of one member applies to n operands, of which m are such sets. The others must be just one, or
// have no such set among them.
fn is_apart(n: usize, m: usize) -> bool
    ensures { result ≡ apart_when n m }
{
    m != 0 && (n == 2 || m == 1)
}

// The operand that the rule for a set of one member takes apart: the first such set.
fn apart_at(places: &Places<'_>, k: usize) -> Option<usize>
    requires { InterAt places.now k }
    ensures { ApartAt places.now k result }
{
    let single = crate::inter::singles::first_single(places, k)?;
    let n = places.arity_at(k);
    let m = crate::inter::singles::count_singles(places, k);
    if is_apart(n, m) {
        return Some(single);
    }
    None
}

// The intersection at place k equals ∅.
pub fn decide_inter(places: &Places<'_>, k: usize) -> Option<Decision>
    requires { InterAt places.now k }
    ensures { InterDone places.now k result }
{
    if let Some(single) = apart_at(places, k) {
        return Some(Decision::Apart {
            node: k,
            single: single,
        });
    }
    if any_minus(places, k) {
        return Some(Decision::Within(k));
    }
    None
}

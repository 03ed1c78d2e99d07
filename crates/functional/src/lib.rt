// Whether a comprehension set of maplets is a function, as its form shows it (`functional_check`, document 000): each of its
// binders that the right side of the maplet uses stands on the left side at a pattern position. A set of binders is a mask of
// 32 bits ("`HashSet` of binder indices becomes a 32-bit mask"): bit i stands for the binder with index i.
// Kept: a mask and no set, since the project uses no heap and the document asks for a mask.
// Kept: that trees stand at the places is a clause of each function; nav/src/lib.rt says why it is no field of a `Places`.
#![tactic(auto)]

ghost use Rattle.std.specs.Prelude.{◌≡◌, ◌*◌, ◌≤◌};
ghost use Rattle.nav.specs.AtPlaces.{AtPlace, TreeAt};
ghost use Rattle.functional.specs.Functional.{is_binder, BindersAt, OwnAt, NamedAt, AtTwo, FunctionalAt};

use frame::operators::{BOUND_IDENT, CSET, EXISTS, FORALL, MAPSTO, QINTER, QUNION};
use nav::Places;

fn is_binder(tag: usize) -> bool
    ensures { result ≡ is_binder tag }
{
    matches!(tag, QUNION | QINTER | CSET | FORALL | EXISTS)
}

// How many binders the node at place k has around its children.
pub fn binders_at(places: &Places<'_>, k: usize) -> usize
    requires { AtPlace places.now k }
    ensures { BindersAt places.now k result × (result ≤ 32) }
{
    if !is_binder(places.tag_at(k)) {
        return 0;
    }
    heads::number(places.bytes, places.start_at(k) + 2, 1)
}

// The binder that the node at place k itself names, of n binders that have d others between them and place k.
fn own_at(places: &Places<'_>, k: usize, d: usize, n: usize) -> u32
    requires { AtPlace places.now k × (n ≤ 32) }
    ensures { OwnAt places.now k d n result }
{
    if places.tag_at(k) != BOUND_IDENT {
        return 0;
    }
    let x = heads::number(places.bytes, places.start_at(k) + 2, 1);
    if x < d {
        return 0;
    }
    if n <= x - d {
        return 0;
    }
    1 << (x - d)
}

// The binders that the tree at place k names, of n binders that have d others between them and place k. It goes on to the children
// of nodes whose tags pass the test.
fn named_at<F: Fn(usize) -> bool>(
    places: &Places<'_>,
    k: usize,
    d: usize,
    n: usize,
    goes_on: &F,
) -> u32
    requires callable { F.IsAlwaysCallable goes_on.now }
    requires tree { TreeAt places.now k }
    requires between { d ≤ 32 * k }
    requires few { n ≤ 32 }
    ensures { NamedAt (F.post goes_on.now) places.now k d n result }
{
    let own = own_at(places, k, d, n);
    if !goes_on(places.tag_at(k)) {
        return own;
    }
    let inner = d + binders_at(places, k);
    let mut named = own;
    for c in places.children(k) {
        named |= named_at(places, c, inner, n, goes_on);
    }
    named
}

// Whether each of the n binders nearest to both places that the tree at `right` uses is recovered by the tree at `left`: a binder is
// used wherever it is named, and recovered by leaves of maplets.
pub fn functional_check(places: &Places<'_>, left: usize, right: usize, n: usize) -> bool
    requires { AtTwo places.now left right × (n ≤ 32) }
    ensures { FunctionalAt places.now left right n result }
{
    let used = named_at(places, right, 0, n, &|_tag| true);
    let recovered = named_at(places, left, 0, n, &|tag| tag == MAPSTO);
    used & !recovered == 0
}

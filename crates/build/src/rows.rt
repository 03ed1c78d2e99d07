// Subtrees of the frame, one after the other.
ghost use Rattle.std.specs.Prelude.{Some};
ghost use Rattle.nav.specs.AtPlaces.{InTables};
ghost use Rattle.build.specs.Rows.{CopyPost, ShareAt, minuend_bytes, subtrahend_bytes, Sharing, RowPre, RowPost, MinusRowPost, KeptPre, KeptPost};

use decision::kept::Kept;
use filling::subtree_at;
use frame::operators::SETMINUS;
use nav::Places;
use put::Writer;

// The subtree at place k.
pub fn copy_at(places: &Places<'_>, k: usize, out: &mut Writer)
    requires { InTables places.now k }
    ensures { CopyPost places.now k out.old out.new }
{
    out.put_copy(subtree_at(places, k));
}

// Of a difference A ∖ B at place c the place of its A, else c.
pub fn minuend_of(places: &Places<'_>, c: usize) -> usize
    requires { InTables places.now c }
    ensures { ShareAt minuend_bytes places.now c (Some result) }
{
    if places.tag_at(c) == SETMINUS {
        return c + 1;
    }
    c
}

// Of a difference A ∖ B at place c the place of its B.
pub fn subtrahend_of(places: &Places<'_>, c: usize) -> Option<usize>
    requires { InTables places.now c }
    ensures { ShareAt subtrahend_bytes places.now c result }
{
    if places.tag_at(c) == SETMINUS {
        return Some(places.second_of(c));
    }
    None
}

// For each child of the node at place k the subtree at the place that `share` answers of the child's place, if it answers one.
pub fn put_row<F: Fn(usize) -> Option<usize>>(
    places: &Places<'_>,
    k: usize,
    share: F,
    out: &mut Writer,
)
    requires callable { (c : _) → InTables places.now c → F.pre share c }
    requires shares { Sharing (F.post share) places.now }
    requires node { RowPre places.now k }
    ensures { RowPost (F.post share) places.now k out.old out.new }
{
    for c in places.children(k) {
        if let Some(place) = share(c) {
            copy_at(places, place, out);
        }
    }
}

// How many children of the node at place k are differences.
pub fn count_minus(places: &Places<'_>, k: usize) -> usize
    requires { RowPre places.now k }
    ensures { MinusRowPost places.now k result }
{
    places.count_children(k, |c| places.tag_at(c) == SETMINUS)
}

// The subtrees at the places that the lent list has.
pub fn put_kept(places: &Places<'_>, kept: &Kept, out: &mut Writer)
    requires { KeptPre places.now kept.now.items }
    ensures { KeptPost places.now kept.now.items out.old out.new }
{
    for child in kept.as_slice() {
        copy_at(places, usize::from(child.place), out);
    }
}

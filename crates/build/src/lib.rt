// The new subtree by the kind of the decision.
// Kept: that trees stand at the places is a clause of each function; nav/src/lib.rt says why it is no field of a `Places`.
#![tactic(auto)]

mod rows; // rows.rt: subtrees of the frame, one after the other
pub mod splicing; // splicing.rt: the new frame

ghost use Rattle.std.specs.Prelude.{◌≡◌, ◌≤◌, ◌<◌};
ghost use Rattle.put.specs.Out.{Puts};
ghost use Rattle.decision.specs.Decision.{joint as jointOf};
ghost use Rattle.build.specs.Subtree.{many_bytes, joined_bytes, FillRowPre, FillRowPost, BuildPre, BuildPost, OfEach, OfKept, OfApart, OfWithin, OfDecision};

use crate::rows::{copy_at, count_minus, minuend_of, put_kept, put_row, subtrahend_of};
use decision::Decision;
use decision::kept::Kept;
use filling::fill;
use frame::operators::{BINTER, BUNION, IN, LAND, LOR, NOT, SUBSETEQ};
use nav::Places;
use put::Writer;

// Kept: `places` and `out` as two parameters, here and below: the one is shared by all, the other is written by one at a time.
// The pattern for each child of the node at place k.
fn fill_row(places: &Places<'_>, pattern: usize, k: usize, binder: usize, out: &mut Writer)
    requires { FillRowPre places.now pattern k binder }
    ensures { FillRowPost places.now pattern k binder out.old out.new }
{
    for c in places.children(k) {
        fill(places, pattern, c, c, binder, out);
    }
}

// ∨ at place 86, else ∧.
// Kept: by the place, as the definitions have it.
fn joint(place: usize) -> usize
    ensures { result ≡ jointOf place }
{
    if place == 86 {
        return LOR;
    }
    LAND
}

// The head of an operator over m operands.
fn put_many(tag: usize, m: usize, out: &mut Writer)
    requires { (tag < 65536) × (m ≤ 255) }
    ensures { Puts out.old out.new (many_bytes tag m) }
{
    out.put_word(tag);
    // Kept: `as`: no `From` makes a shorter number, and by `try_from` the proof would be asked the same and the line be longer.
    out.put_byte(m as u8);
}

// The same, but that one operand stands alone.
fn put_joined(tag: usize, m: usize, out: &mut Writer)
    requires { (tag < 65536) × (m ≤ 255) }
    ensures { Puts out.old out.new (joined_bytes tag m) }
{
    if m != 1 {
        put_many(tag, m, out);
    }
}

fn build_each(places: &Places<'_>, place: usize, node: usize, binder: usize, out: &mut Writer)
    requires { BuildPre (OfEach place node binder) places.now }
    ensures { BuildPost (OfEach place node binder) places.now out.old out.new }
{
    let m = places.arity_at(node);
    put_many(joint(place), m, out);
    fill_row(places, place, node, binder, out);
}

fn build_kept(places: &Places<'_>, k: usize, kept: &Kept, out: &mut Writer)
    requires { BuildPre (OfKept k kept.now.items) places.now }
    ensures { BuildPost (OfKept k kept.now.items) places.now out.old out.new }
{
    let tag = places.tag_at(k);
    put_many(tag, kept.len(), out);
    put_kept(places, kept, out);
}

// ¬ member ∈ the other operands.
fn build_apart(places: &Places<'_>, node: usize, single: usize, out: &mut Writer)
    requires { BuildPre (OfApart node single) places.now }
    ensures { BuildPost (OfApart node single) places.now out.old out.new }
{
    let m = places.arity_at(node);
    out.put_word(NOT);
    out.put_word(IN);
    copy_at(places, single + 1, out);
    put_joined(BINTER, m - 1, out);
    put_row(places, node, |c| (c != single).then_some(c), out);
}

// The operands without what they subtract ⊆ what they subtract.
fn build_within(places: &Places<'_>, node: usize, out: &mut Writer)
    requires { BuildPre (OfWithin node) places.now }
    ensures { BuildPost (OfWithin node) places.now out.old out.new }
{
    let m = places.arity_at(node);
    out.put_word(SUBSETEQ);
    put_joined(BINTER, m, out);
    put_row(places, node, |c| Some(minuend_of(places, c)), out);
    let d = count_minus(places, node);
    put_joined(BUNION, d, out);
    put_row(places, node, |c| subtrahend_of(places, c), out);
}

// The new subtree that the decision at place k stands for.
pub fn build(places: &Places<'_>, k: usize, kept: &Kept, decision: Decision, out: &mut Writer)
    requires { BuildPre (OfDecision k kept.now.items decision) places.now }
    ensures { BuildPost (OfDecision k kept.now.items decision) places.now out.old out.new }
{
    match decision {
        Decision::Fixed {
            pattern,
            first,
            second,
            binder,
            ..
        } => fill(places, pattern, first, second, binder, out),
        Decision::Each {
            place,
            node,
            binder,
        } => build_each(places, place, node, binder, out),
        Decision::Kept => build_kept(places, k, kept, out),
        Decision::Apart { node, single } => build_apart(places, node, single, out),
        Decision::Within(node) => build_within(places, node, out),
    }
}

// From place to place. `starts` is the reader's table of node starts; `nexts` says for each place which place follows its
// subtree. With both, children and ends are found without reading the bytes between.
#![tactic(auto)]

mod siblings; // siblings.rt: the children of a node, one after the other

ghost use Rattle.std.specs.Prelude.{◌≡◌, ◌+◌, ◌<◌, get_or};
ghost use Rattle.nav.specs.PlaceTables.{Rooted, ChildrenPost, hops, HopsIn, NextsPre, NextsPost, EarlyPre, EarlyPost};
ghost use Rattle.nav.specs.AtPlaces.{AtPlace, InTables, TagAt, ArityAt, EndAt, SortAt, AtBoth, SameAt, TreeAt, ChildrenAt, CountedAt};

pub use siblings::Children;
use tags::Sort;

// A frame with its tables: its bytes, how many places it has, where each starts, which place follows each subtree, and the binders of the
// bound identifiers. No answer rests on entries from `count` on.
// Kept: that a tree stands at a place is a clause of each function and no ghost field here: a field could say that there is some tree, and
// each proof would have to show anew that two calls speak of the same one; and it would ask for all tables where a tag is read by one.
// Kept: three tables and a count: document 01 asks for "a fixed table of 2,048 node starts", and each table is filled by another crate.
#[derive(Clone, Copy)]
pub struct Places<'a> {
    pub bytes: &'a [u8],
    pub count: usize,
    pub starts: &'a [u16; 2048],
    pub nexts: &'a [u16; 2048],
    pub leaves: &'a [u16; 2048],
}

// The tags from the first to the last of these are those of nodes with two operands.
// Kept: by the tag and not by its form, since trees are told apart by this before the form is looked up.
const FIRST_BINARY: usize = 101;

const LAST_BINARY: usize = 252;

// How many children the node that starts at `at` has: its tag says it, or the count byte behind the tag.
fn children_at(s: &[u8], at: usize) -> usize
    requires { Rooted s.now at }
    ensures { ChildrenPost s.now at result }
{
    let opening = heads::known_opening(s, at);
    opening.form.children(opening.number)
}

// The place after m subtrees, of which the first is at place c.
fn hop(nexts: &[u16; 2048], c: usize, m: usize) -> usize
    requires { HopsIn nexts.now m c }
    ensures { result ≡ hops nexts.now m c }
{
    let mut d = c;
    for _ in 0..m {
        d = usize::from(nexts[d]);
    }
    d
}

// Kept: no method, since a Places holds this table filled; and no FrameRead, since a public function asks no more than before.
// The table of the places that follow subtrees, of a frame with n nodes. From the last place to the first: the children of a
// node come after it, so their entries stand already.
pub fn nexts(s: &[u8], n: usize, starts: &[u16; 2048], table: &mut [u16; 2048])
    requires { NextsPre s.now n starts.now table.old }
    ensures { NextsPost s.now n starts.now table.new }
{
    for k in (0..n).rev() {
        let m = children_at(s, usize::from(starts[k]));
        let c = hop(table, k + 1, m);
        // Kept: `as`: no `From` makes a shorter number, and by `try_from` the proof would be asked the same and the line be longer.
        table[k] = c as u16;
    }
}

// Whether the trees at x and y, both with this tag, differ in their first six bytes. A node with two operands has that many: so most
// trees that differ are told apart without their heads being read.
fn differ_early(s: &[u8], x: usize, y: usize, tag: usize) -> bool
    requires { EarlyPre s.now x y tag }
    ensures { EarlyPost s.now x y result }
{
    if !(FIRST_BINARY..=LAST_BINARY).contains(&tag) {
        return false;
    }
    s[x + 2..x + 6] != s[y + 2..y + 6]
}

impl<'a> Places<'a> {
    // Kept: an index with its bound, here and below, as the library's own tables ask for one.
    // Where the node at place k starts.
    pub fn start_at(&self, k: usize) -> usize
        requires { k < 2048 }
        ensures { (result ≡ get_or self.now.starts.now k 0) × (result < 65536) }
    {
        usize::from(self.starts[k])
    }

    // The place after the subtree at place k: the next sibling's, if there is one.
    pub fn next_at(&self, k: usize) -> usize
        requires { k < 2048 }
        ensures { (result ≡ get_or self.now.nexts.now k 0) × (result < 65536) }
    {
        usize::from(self.nexts[k])
    }

    // Where the subtree at place k ends: where the next place starts, or at the frame's end.
    pub fn end_at(&self, k: usize) -> usize
        requires { InTables self.now k }
        ensures { EndAt self.now k result }
    {
        let j = self.next_at(k);
        if j < self.count {
            return self.start_at(j);
        }
        self.bytes.len()
    }

    // The tag of the node at place k.
    pub fn tag_at(&self, k: usize) -> usize
        requires { AtPlace self.now k }
        ensures { TagAt self.now k result }
    {
        heads::number(self.bytes, self.start_at(k), 2)
    }

    // How many children the node at place k has: their places are k + 1, and from each the next.
    pub fn arity_at(&self, k: usize) -> usize
        requires { AtPlace self.now k }
        ensures { ArityAt self.now k result }
    {
        children_at(self.bytes, self.start_at(k))
    }

    // Whether the subtree at place k is an expression: its tag says so.
    pub fn is_expression_at(&self, k: usize) -> bool
        requires { AtPlace self.now k }
        ensures { SortAt self.now k result }
    {
        tags::form_of(self.tag_at(k)).sort() == Sort::Expression
    }

    // Whether the subtrees at places a and b are the same. Trees with the same tag are of the same sort.
    pub fn same_at(&self, a: usize, b: usize) -> bool
        requires { AtBoth self.now a b }
        ensures { SameAt self.now a b result }
    {
        let x = self.start_at(a);
        let y = self.start_at(b);
        let tag = heads::number(self.bytes, x, 2);
        if tag != heads::number(self.bytes, y, 2) {
            return false;
        }
        if differ_early(self.bytes, x, y, tag) {
            return false;
        }
        sameness::same_tree(self.bytes, x, y).is_some()
    }

    // The place of the second child of the node at place k, if it has two: looked up before the tag is known. Zero for the last place that
    // there can be, which has no child.
    pub fn second_of(&self, k: usize) -> usize
        requires { k < 2048 }
        ensures { result ≡ get_or self.now.nexts.now (k + 1) 0 }
    {
        let nexts = self.nexts;
        nexts.get(k + 1).map_or(0, |&next| usize::from(next))
    }

    // The places of the children of the node at place k, in their order.
    pub fn children(&self, k: usize) -> Children<'_>
        requires { TreeAt self.now k }
        ensures { ChildrenAt self.now k result }
    {
        siblings::row(self.nexts, k + 1, self.arity_at(k))
    }

    // How many children of the node at place k pass the test.
    pub fn count_children<F: Fn(usize) -> bool>(&self, k: usize, passes: F) -> usize
        requires callable { (c : _) → TreeAt self.now c → F.pre passes c }
        requires tree { TreeAt self.now k }
        ensures { CountedAt (F.post passes) self.now k result }
    {
        // Kept: tried as filter and count, whose lemmas take a function that says the test's every answer, also where no node is.
        let mut m = 0;
        for c in self.children(k) {
            m += usize::from(passes(c));
        }
        m
    }
}

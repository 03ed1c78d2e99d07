// Sameness of two trees of one frame (document 01: "the same tag, payload and types"; "comparing them is two functions that
// call each other over a falling byte count"). Equal trees have equal bytes, so heads are compared as bytes.
#![tactic(auto)]

ghost use Rattle.frame.specs.Tags.{Sort, predicate, expression};
ghost use Rattle.sameness.specs.Compared.{BothStand, BothStandAll, SamePost, SameAllPost, HeadsPost, kinds};

use heads::{known_head, number};

// Two heads that are the same: where the children of each start, how many they are, and the sorts of the first and of the later ones.
#[derive(Clone, Copy)]
struct Alike {
    left: usize,
    right: usize,
    count: usize,
    first: tags::Sort,
    later: tags::Sort,
}

// The heads at a and b, if they are the same. Most trees that differ differ in their tags, so these are looked at before a head is
// read. The head at b needs no reading: with the bytes of the one at a it is the same head. Inlined, as `same_kids` is, so that a
// child costs one call and one frame of the stack.
#[inline(always)]
fn same_heads(s: &[u8], a: usize, b: usize) -> Option<Alike>
    requires { (e : Sort) × BothStand s.now e a b }
    ensures { (e : Sort) → HeadsPost s.now e a b result }
{
    if s[a] != s[b] {
        return None;
    }
    if s[a + 1] != s[b + 1] {
        return None;
    }
    // Kept: a length and `!=`: `starts_with` goes from element to element, and was slower where it was tried (patterns/src/lib.rt).
    let h = known_head(s, a);
    let n = h.children - a;
    if s.len() - b < n {
        return None;
    }
    if s[a..h.children] != s[b..b + n] {
        return None;
    }
    Some(Alike {
        left: h.children,
        right: b + n,
        count: h.count,
        first: h.form.first(),
        later: h.form.later(),
    })
}

// Kept: two functions, which differ in the sort alone: document 01 has two that call each other.
// The predicates at a and b: if they are the same, where each ends.
#[cycle(same_expr_same_kids_same_pred)]
pub fn same_pred(s: &[u8], a: usize, b: usize) -> Option<(usize, usize)>
    requires { BothStand s.now predicate a b }
    ensures { SamePost s.now predicate a b result }
{
    let predicates = same_heads(s, a, b)?;
    same_kids(s, predicates)
}

// The expressions at a and b: if they are the same, where each ends.
#[cycle(same_expr_same_kids_same_pred)]
pub fn same_expr(s: &[u8], a: usize, b: usize) -> Option<(usize, usize)>
    requires { BothStand s.now expression a b }
    ensures { SamePost s.now expression a b result }
{
    let expressions = same_heads(s, a, b)?;
    same_kids(s, expressions)
}

// The children of two heads that are the same: if they are the same too, where the last of each ends.
#[inline(always)]
#[cycle(same_expr_same_kids_same_pred)]
fn same_kids(s: &[u8], alike: Alike) -> Option<(usize, usize)>
    requires { BothStandAll s.now (kinds alike) alike.left alike.right }
    ensures { SameAllPost s.now (kinds alike) alike.left alike.right result }
{
    let mut p = alike.left;
    let mut q = alike.right;
    let mut sort = alike.first;
    for _ in 0..alike.count {
        let ends = match sort {
            tags::Sort::Predicate => same_pred(s, p, q),
            tags::Sort::Expression => same_expr(s, p, q),
        };
        (p, q) = ends?;
        sort = alike.later;
    }
    Some((p, q))
}

// The trees at a and b, of whatever sort: if they are the same, where each ends.
pub fn same_tree(s: &[u8], a: usize, b: usize) -> Option<(usize, usize)>
    requires { (e : Sort) × BothStand s.now e a b }
    ensures { (e : Sort) → SamePost s.now e a b result }
{
    match tags::form_of(number(s, a, 2)).sort() {
        tags::Sort::Predicate => same_pred(s, a, b),
        tags::Sort::Expression => same_expr(s, a, b),
    }
}

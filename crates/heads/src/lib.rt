// Heads of a frame, read from left to right (document 01, "Numbers of what is turned down", 3 to 6), and types and heads passed over
// again once they were read. Positions count bytes from the frame's start.
#![tactic(auto)]

ghost use Rattle.std.specs.Prelude.{◌≡◌, ◌+◌, ◌≤◌, length, IfOk};
ghost use Rattle.frame.specs.Tags.{class_of, types_of, width};
ghost use Rattle.tags.specs.TagCodes.{form_code, meant, sort_for};
ghost use Rattle.frame.specs.Reading.{number_at};
ghost use Rattle.heads.specs.HeadPost.{answered, head_there, headed, TypesStand, SkipPost, lead_of, parts_of, HeadStands, HeadEnd, OpeningPost, KnownPost};
ghost use Rattle.heads.specs.TypeEnds.{TypeAt, EndOf};

use frame::refusals::Refusal;
use tags::{Form, Sort, form_of};
use types::read_types;

// How a head begins: its tag and the tag's form, the number behind the tag, and where its types start.
#[derive(Clone, Copy, Debug, PartialEq, Eq)]
pub struct Opening {
    pub tag: usize,
    pub form: Form,
    pub number: usize,
    pub types: usize,
}

// A head: how it begins, where its children start, and how many they are. The form says the sorts of these, and whether the number
// is a payload.
// Kept: the four fields of an Opening and no Opening within, since callers ask a head for its tag, its form and its number by name.
#[derive(Clone, Copy, Debug, PartialEq, Eq)]
pub struct Head {
    pub tag: usize,
    pub form: Form,
    pub number: usize,
    pub types: usize,
    pub children: usize,
    pub count: usize,
}

impl Opening {
    // How many types stand before the children.
    pub fn many_types(self) -> usize
        ensures { result ≡ types_of (meant self.form).layout (meant self.form).carried self.number }
    {
        self.form.types(self.number)
    }

    // The head that begins so, with children from here on.
    fn with_children(self, children: usize) -> Head
        ensures { result ≡ headed self children }
    {
        Head {
            tag: self.tag,
            form: self.form,
            number: self.number,
            types: self.types,
            children,
            count: self.form.children(self.number),
        }
    }
}

// The number in the w bytes at `at`, high byte first.
// Kept: the library's `from_be_bytes` takes an array, and other libraries' readers one byte or more; w is 0, 1, 2 or 8 as the form says.
pub fn number(s: &[u8], at: usize, w: usize) -> usize
    requires { (at + w ≤ length s.now) × (w ≤ 8) }
    ensures { result ≡ number_at w s.now at }
{
    let mut x: usize = 0;
    for &b in &s[at..at + w] {
        x = x * 256 + usize::from(b);
    }
    x
}

// The head at `at` of a tree of this sort. Its number is what stands behind the tag, also where that is no payload (binders, parts).
pub fn read_head(s: &[u8], at: usize, sort: Sort) -> Result<Head, Refusal>
    requires { at ≤ length s.now }
    ensures answer { answered result ≡ head_there s.now at (sort_for sort) }
    ensures form { IfOk result (λ h. h.form ≡ form_code (class_of h.tag)) }
    ensures number { IfOk result (λ h. h.number ≡ number_at (width (meant h.form).layout) s.now (at + 2)) }
{
    if s.len() < at + 2 {
        return Err(Refusal::EndsInside);
    }
    let tag = number(s, at, 2);
    let form = form_of(tag);
    if !form.is_listed() || form.sort() != sort {
        return Err(Refusal::BadTag);
    }
    let w = form.width();
    if s.len() < at + 2 + w {
        return Err(Refusal::EndsInside);
    }
    let x = number(s, at + 2, w);
    if !form.in_range(x) {
        return Err(Refusal::BadCount);
    }
    let opening = Opening {
        tag,
        form,
        number: x,
        types: at + 2 + w,
    };
    let children = read_types(s, opening.types, opening.many_types())?;
    Ok(opening.with_children(children))
}

// How many bytes of a type stand before its parts: a given set has its number behind the type byte.
// Kept: here and below by the byte, which was read before (types/src/lib.rt).
pub fn type_bytes(b: u8) -> usize
    ensures { result ≡ lead_of b }
{
    if b == 2 { 3 } else { 1 }
}

// How many parts a type has: a power one, a product two.
pub fn type_parts(b: u8) -> usize
    ensures { result ≡ parts_of b }
{
    if b < 3 { 0 } else { usize::from(b) - 2 }
}

// Where m types in a row end that were read before.
pub fn skip_types(s: &[u8], at: usize, m: usize) -> usize
    requires { TypesStand s.now at m }
    ensures { SkipPost s.now at m result }
{
    let mut p = at;
    // Kept: the count of types that are left goes up at a product and down at a leaf, so no `for` over a range says it; an iterator over
    // a type's bytes would have the same count within.
    let mut left = m;
    while 0 < left {
        let b = s[p];
        p += type_bytes(b);
        left = left - 1 + type_parts(b);
    }
    p
}

// Where the type at `at` ends that was read before.
pub fn type_end(s: &[u8], at: usize) -> usize
    requires { TypeAt s.now at }
    ensures { EndOf s.now at result }
{
    skip_types(s, at, 1)
}

// Kept: that a head stands there is a clause of these three and no fact of a struct: each call is at another position.
// How the head begins of a tree that was read before: nothing of it is checked again.
pub fn known_opening(s: &[u8], at: usize) -> Opening
    requires { HeadStands s.now at }
    ensures { OpeningPost s.now at result }
{
    let tag = number(s, at, 2);
    let form = form_of(tag);
    let w = form.width();
    Opening {
        tag,
        form,
        number: number(s, at + 2, w),
        types: at + 2 + w,
    }
}

// Where the head ends of a tree that was read before.
pub fn head_end(s: &[u8], at: usize) -> usize
    requires { HeadStands s.now at }
    ensures { HeadEnd s.now at result }
{
    let opening = known_opening(s, at);
    skip_types(s, opening.types, opening.many_types())
}

// The head of a tree that was read before.
pub fn known_head(s: &[u8], at: usize) -> Head
    requires { HeadStands s.now at }
    ensures { KnownPost s.now at result }
{
    let opening = known_opening(s, at);
    let children = skip_types(s, opening.types, opening.many_types());
    opening.with_children(children)
}

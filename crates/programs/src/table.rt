// The parts of each right side, by what the place's left side is; the formulas are in templates/specs/Programs.antt.
#![tactic(auto, unfolding(templates::specs::Programs::template, templates::specs::Programs::find_row, templates::specs::Programs::templates, templates::specs::Programs::among))]

ghost use Rattle.std.specs.Prelude.{◌≡◌, ◌≤◌};
ghost use Rattle.templates.specs.Programs.{template};
ghost use Rattle.programs.specs.Parts.{parts_of};

use crate::Made::{Domain, Element, Elements, Range, Source, Whole};
use crate::Operand::{First, Second};
use crate::Part;
use crate::Part::{Binders, Count, Empty, Expression, Full, Subtree, Tag, Type};
use frame::operators::{
    BFALSE, BINTER, BTRUE, CSET, DOMRES, EMPTYSET, EQUAL, EXISTS, FALSE, FINITE, FORALL, GE, GT,
    KDOM, KRAN, LAND, LE, LEQV, LIMP, LOR, LT, NOT, SETEXT, SUBSETEQ, TRUE,
};

// Where the left side is finite(S).
pub fn of_finite(place: usize) -> &'static [Part]
    requires { place ≤ 13 }
    ensures { parts_of result.now ≡ template place }
{
    match place {
        1 | 3 | 5 | 10 => &[Tag(BTRUE)],
        2 => &[Tag(BFALSE)],
        4 | 13 => &[Tag(FINITE), Expression(Source, First)],
        6 | 7 | 9 | 12 => &[Tag(FINITE), Subtree(First)],
        8 => &[
            Tag(LOR),
            Count(3),
            Empty(First),
            Empty(Second),
            Tag(LAND),
            Count(2),
            Tag(FINITE),
            Subtree(First),
            Tag(FINITE),
            Subtree(Second),
        ],
        11 => &[
            Tag(FINITE),
            Tag(CSET),
            Binders,
            Subtree(First),
            Subtree(Second),
        ],
        _ => &[],
    }
}

// Where it is a partition or ¬P.
pub fn of_partition_or_not(place: usize) -> &'static [Part]
    requires { (14 ≤ place) × (place ≤ 23) }
    ensures { parts_of result.now ≡ template place }
{
    match place {
        14 => &[Empty(First)],
        15 => &[Tag(EQUAL), Subtree(First), Subtree(Second)],
        16 => &[Tag(GT), Subtree(First), Subtree(Second)],
        17 => &[Tag(LT), Subtree(First), Subtree(Second)],
        18 => &[Tag(LE), Subtree(First), Subtree(Second)],
        19 => &[Tag(GE), Subtree(First), Subtree(Second)],
        20 => &[Tag(EQUAL), Subtree(First), Tag(TRUE)],
        21 => &[Tag(EQUAL), Subtree(First), Tag(FALSE)],
        22 => &[Tag(EQUAL), Tag(TRUE), Subtree(First)],
        23 => &[Tag(EQUAL), Tag(FALSE), Subtree(First)],
        _ => &[],
    }
}

// Where it is S = Ty.
pub fn of_equals_type(place: usize) -> &'static [Part]
    requires { (24 ≤ place) × (place ≤ 35) }
    ensures { parts_of result.now ≡ template place }
{
    match place {
        24 | 34 => &[Full(First)],
        25 => &[Tag(LAND), Count(2), Full(First), Empty(Second)],
        26 | 28 | 32 => &[Tag(LAND), Count(2), Full(First), Full(Second)],
        27 => &[Tag(BFALSE)],
        29 => &[Tag(LAND), Count(2), Empty(First), Full(Second)],
        30 => &[Tag(LAND), Count(2), Full(Second), Full(First)],
        31 => &[Tag(LAND), Count(2), Empty(Second), Full(First)],
        33 => &[
            Tag(EQUAL),
            Subtree(First),
            Tag(SETEXT),
            Count(1),
            Expression(Elements, First),
        ],
        35 => &[
            Tag(FORALL),
            Binders,
            Tag(LIMP),
            Subtree(First),
            Full(Second),
        ],
        _ => &[],
    }
}

// Where it is S = ∅, S an enumeration, a set operator, an interval or a set of relations.
pub fn of_equals_empty_set(place: usize) -> &'static [Part]
    requires { (36 ≤ place) × (place ≤ 44) }
    ensures { parts_of result.now ≡ template place }
{
    match place {
        36 => &[Tag(BFALSE)],
        39 => &[Empty(First)],
        40 => &[Tag(SUBSETEQ), Subtree(First), Subtree(Second)],
        41 => &[Tag(LOR), Count(2), Empty(First), Empty(Second)],
        42 => &[Tag(GT), Subtree(First), Subtree(Second)],
        43 => &[Tag(LAND), Count(2), Empty(First), Tag(NOT), Empty(Second)],
        44 => &[Tag(LEQV), Empty(First), Tag(NOT), Empty(Second)],
        _ => &[],
    }
}

// Where it is S = ∅, S a restriction.
pub fn of_equals_empty_restriction(place: usize) -> &'static [Part]
    requires { (45 ≤ place) × (place ≤ 48) }
    ensures { parts_of result.now ≡ template place }
{
    match place {
        45 => &[
            Tag(EQUAL),
            Tag(BINTER),
            Count(2),
            Tag(KDOM),
            Subtree(Second),
            Subtree(First),
            Tag(EMPTYSET),
            Type(Domain, Second),
        ],
        46 => &[Tag(SUBSETEQ), Tag(KDOM), Subtree(Second), Subtree(First)],
        47 => &[
            Tag(EQUAL),
            Tag(BINTER),
            Count(2),
            Tag(KRAN),
            Subtree(First),
            Subtree(Second),
            Tag(EMPTYSET),
            Type(Range, First),
        ],
        48 => &[Tag(SUBSETEQ), Tag(KRAN), Subtree(First), Subtree(Second)],
        _ => &[],
    }
}

// Where it is S = ∅, S an image, a product of relations, or an operator over one set or relation.
pub fn of_equals_empty_relation(place: usize) -> &'static [Part]
    requires { (49 ≤ place) × (place ≤ 55) }
    ensures { parts_of result.now ≡ template place }
{
    match place {
        49 => &[
            Tag(EQUAL),
            Tag(DOMRES),
            Subtree(Second),
            Subtree(First),
            Tag(EMPTYSET),
            Type(Whole, First),
        ],
        50 => &[
            Tag(EQUAL),
            Tag(BINTER),
            Count(2),
            Tag(KDOM),
            Subtree(First),
            Tag(KDOM),
            Subtree(Second),
            Tag(EMPTYSET),
            Type(Domain, First),
        ],
        51 => &[Tag(LOR), Count(2), Empty(First), Empty(Second)],
        52 => &[Tag(BFALSE)],
        53 | 55 => &[Empty(First)],
        54 => &[
            Tag(SUBSETEQ),
            Subtree(First),
            Tag(SETEXT),
            Count(1),
            Tag(EMPTYSET),
            Type(Element, First),
        ],
        _ => &[],
    }
}

// Where it is S = ∅, S a composition, an overriding, a union or an atom.
pub fn of_equals_empty_other(place: usize) -> &'static [Part]
    requires { (56 ≤ place) × (place ≤ 61) }
    ensures { parts_of result.now ≡ template place }
{
    match place {
        56 => &[
            Tag(EQUAL),
            Tag(BINTER),
            Count(2),
            Tag(KRAN),
            Subtree(First),
            Tag(KDOM),
            Subtree(Second),
            Tag(EMPTYSET),
            Type(Range, First),
        ],
        57 => &[
            Tag(EQUAL),
            Tag(BINTER),
            Count(2),
            Tag(KRAN),
            Subtree(Second),
            Tag(KDOM),
            Subtree(First),
            Tag(EMPTYSET),
            Type(Range, Second),
        ],
        58 => &[Empty(First)],
        59 => &[
            Tag(FORALL),
            Binders,
            Tag(LIMP),
            Subtree(First),
            Empty(Second),
        ],
        60 | 61 => &[Tag(BFALSE)],
        _ => &[],
    }
}

// Where it is a connective or a quantifier.
pub fn of_connective(place: usize) -> &'static [Part]
    requires { (62 ≤ place) × (place ≤ 87) }
    ensures { parts_of result.now ≡ template place }
{
    match place {
        64 | 66 | 73 | 74 | 75 | 76 | 84 => &[Subtree(First)],
        67 | 68 | 70 | 71 | 77 | 83 => &[Tag(BTRUE)],
        69 | 72 | 78 | 79 => &[Tag(NOT), Subtree(First)],
        80 | 81 | 82 => &[Tag(BFALSE)],
        85 => &[Tag(FORALL), Binders, Subtree(First)],
        86 => &[Tag(EXISTS), Binders, Subtree(First)],
        87 => &[
            Tag(LIMP),
            Tag(FORALL),
            Binders,
            Subtree(First),
            Tag(EXISTS),
            Binders,
            Subtree(Second),
        ],
        _ => &[],
    }
}

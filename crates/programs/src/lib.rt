// Right sides that are built by a fixed pattern: what each is put together from, by the place of the source (docs/RULES.md).
#![tactic(auto)]

mod table; // table.rt: the parts by place

ghost use Rattle.std.specs.Prelude.{◌≡◌, ◌<◌};
ghost use Rattle.templates.specs.Programs.{template};
ghost use Rattle.programs.specs.Parts.{asks_type, parts_of};

// One of the operands of a place's left side.
#[derive(Clone, Copy, Debug, PartialEq, Eq)]
pub enum Operand {
    First,
    Second,
}

// A type that is made from an operand's: that type itself; the type of its domain or range; of its elements, or of their elements;
// of what its pairs begin with.
#[derive(Clone, Copy, Debug, PartialEq, Eq)]
pub enum Made {
    Whole,
    Domain,
    Range,
    Element,
    Elements,
    Source,
}

// A part of a right side's bytes.
#[derive(Clone, Copy, Debug, PartialEq, Eq)]
pub enum Part {
    Tag(usize),
    // How many children there are, in a byte.
    Count(u8),
    // An operand, as it stands.
    Subtree(Operand),
    // A type that is made from an operand's, and the nodes of such a type's expression.
    Type(Made, Operand),
    Expression(Made, Operand),
    // The binders: their count and types.
    Binders,
    // That an operand is ∅, and that it is the type of its elements: it has all of them.
    Empty(Operand),
    Full(Operand),
}

impl Part {
    // Whether it needs the type of an operand.
    pub fn asks_type(&self) -> bool
        ensures { result ≡ asks_type self.now }
    {
        matches!(
            self,
            Part::Type(..) | Part::Expression(..) | Part::Empty(_) | Part::Full(_)
        )
    }
}

// The parts of a place's right side, in order.
pub fn program_of(place: usize) -> &'static [Part]
    requires { place < 88 }
    ensures { parts_of result.now ≡ template place }
{
    match place {
        0..=13 => table::of_finite(place),
        14..=23 => table::of_partition_or_not(place),
        24..=35 => table::of_equals_type(place),
        36..=44 => table::of_equals_empty_set(place),
        45..=48 => table::of_equals_empty_restriction(place),
        49..=55 => table::of_equals_empty_relation(place),
        56..=61 => table::of_equals_empty_other(place),
        _ => table::of_connective(place),
    }
}

// A right side is put together from its parts: from the operands, their types and the binders.
#![tactic(auto)]

mod type_bytes; // type_bytes.rt: the bytes of a type, and those of the types that are made from it

ghost use Rattle.std.specs.Prelude.{◌≡◌, ◌<◌};
ghost use Rattle.frame.specs.Encoding.{enc_ty};
ghost use Rattle.programs.specs.Parts.{number_of, parts_of};
ghost use Rattle.templates.specs.Programs.{template};
ghost use Rattle.parts.specs.Types.{IsType};
ghost use Rattle.parts.specs.Holds.{bytes_of, type_of, PartReady, PartPut, Ready, Fillable, Filled};

use frame::operators::{EMPTYSET, EQUAL};
use programs::{Made, Operand, Part, program_of};
use put::Writer;
use type_bytes::TypeBytes;

// An operand as it stands in the frame: its bytes, and those of its type.
#[derive(Clone, Copy)]
pub struct OperandBytes<'a> {
    pub subtree: &'a [u8],
    pub own_type: &'a [u8],
}

// What a right side is filled with: the operands, and the binders' count and types.
#[derive(Clone, Copy)]
pub struct Operands<'a> {
    pub first: OperandBytes<'a>,
    pub second: OperandBytes<'a>,
    pub binders: &'a [u8],
}

impl<'a> Operands<'a> {
    fn bytes_of(&self, which: Operand) -> &OperandBytes<'a>
        ensures { result.now ≡ bytes_of self.now (number_of which) }
    {
        match which {
            Operand::First => &self.first,
            Operand::Second => &self.second,
        }
    }

    fn type_of(&self, which: Operand) -> TypeBytes<'a>
        requires { IsType (type_of self.now (number_of which)) }
        ensures { type_of self.now (number_of which) ≡ enc_ty result }
    {
        TypeBytes::of(self.bytes_of(which).own_type)
    }
}

fn put_part(part: Part, operands: &Operands<'_>, out: &mut Writer)
    requires { PartReady part operands.now }
    ensures { PartPut part operands.now out.old out.new }
{
    // Kept: by the part, which is data: no caller chooses a step by it.
    match part {
        Part::Tag(tag) => out.put_word(tag),
        Part::Count(count) => out.put_byte(count),
        Part::Subtree(which) => out.put_copy(operands.bytes_of(which).subtree),
        Part::Type(made, which) => operands.type_of(which).put(made, out),
        Part::Expression(made, which) => operands.type_of(which).put_expression(made, out),
        Part::Binders => out.put_copy(operands.binders),
        Part::Empty(which) => {
            out.put_word(EQUAL);
            out.put_copy(operands.bytes_of(which).subtree);
            out.put_word(EMPTYSET);
            operands.type_of(which).put(Made::Whole, out);
        }
        Part::Full(which) => {
            out.put_word(EQUAL);
            out.put_copy(operands.bytes_of(which).subtree);
            operands.type_of(which).put_expression(Made::Element, out);
        }
    }
}

// The parts, one after the other.
fn run_program(program: &[Part], operands: &Operands<'_>, out: &mut Writer)
    requires { Ready (parts_of program.now) operands.now }
    ensures { Filled (parts_of program.now) operands.now out.old out.new }
{
    for &part in program {
        put_part(part, operands, out);
    }
}

// The right side of a place, filled.
pub fn fill_template(place: usize, operands: &Operands<'_>, out: &mut Writer)
    requires { (place < 88) × Fillable (template place) operands.now }
    ensures { Filled (template place) operands.now out.old out.new }
{
    run_program(program_of(place), operands, out);
}

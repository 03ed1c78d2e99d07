// The bytes of a type, and those of the types that are made from it.
ghost use Rattle.std.specs.Prelude.{◌≡◌};
ghost use Rattle.frame.specs.Types.{Ty, bool};
ghost use Rattle.frame.specs.Encoding.{enc_ty, enc};
ghost use Rattle.typing.specs.Typing.{element};
ghost use Rattle.typing.specs.TypeExpression.{to_expression};
ghost use Rattle.put.specs.Out.{Puts};
ghost use Rattle.programs.specs.Parts.{mode_of};
ghost use Rattle.parts.specs.Types.{IsType, type_in, type_code, side_of, inner, powered, type_made};

use frame::operators::POW;
use heads::type_end;
use programs::{Made, Operand};
use put::Writer;
use put::type_expression::to_expression;
use std::marker::Model;

// The first bytes of a power and of a product.
// Kept: an enum that is read from a byte would be no plainer: two tests ask for these numbers, and `put` writes one of them.
const POWER: u8 = 3;

const PRODUCT: u8 = 4;

// The bytes of one type.
#[derive(Drop)]
pub struct TypeBytes<'a> {
    bytes: &'a [u8],
}

impl<'a> Model for TypeBytes<'a> {
    ghost Value = { Ty };

    ghost coded = { type_code };

    ghost view = { λ t. type_in t.bytes.now };

    ghost invariant = { λ t. t.bytes.now ≡ enc_ty (type_in t.bytes.now) };
}

impl<'a> TypeBytes<'a> {
    // The type that has these bytes.
    pub fn of(bytes: &'a [u8]) -> Self
        requires { IsType bytes.now }
        ensures { bytes.now ≡ enc_ty result }
    {
        TypeBytes { bytes }
    }

    // BOOL, which is the part of a type that has no such part, as in the definitions of typing.
    fn boolean() -> Self
        ensures { result ≡ bool }
    {
        TypeBytes { bytes: &[0] }
    }

    // The type of its elements.
    fn element(&self) -> Self
        ensures { result ≡ element self.now }
    {
        if self.bytes[0] == POWER {
            return TypeBytes {
                bytes: &self.bytes[1..],
            };
        }
        TypeBytes::boolean()
    }

    // The first or the second type of a product.
    fn side(&self, which: Operand) -> Self
        ensures { result ≡ side_of which self.now }
    {
        if self.bytes[0] != PRODUCT {
            return TypeBytes::boolean();
        }
        let end = type_end(self.bytes, 1);
        let bytes = match which {
            Operand::First => &self.bytes[1..end],
            Operand::Second => &self.bytes[end..],
        };
        TypeBytes { bytes }
    }

    // The type that is made from it; where that is a power, the type of its elements.
    fn inner(&self, made: Made) -> Self
        ensures { result ≡ inner (mode_of made) self.now }
    {
        match made {
            Made::Whole => TypeBytes { bytes: self.bytes },
            Made::Domain | Made::Source => self.element().side(Operand::First),
            Made::Range => self.element().side(Operand::Second),
            Made::Element => self.element(),
            Made::Elements => self.element().element(),
        }
    }

    // The bytes of the type that is made from it.
    pub fn put(&self, made: Made, out: &mut Writer)
        ensures { Puts out.old out.new (enc_ty (type_made made self.now)) }
    {
        if is_power(made) {
            out.put_byte(POWER);
        }
        out.put_copy(self.inner(made).bytes);
    }

    // That type's expression.
    pub fn put_expression(&self, made: Made, out: &mut Writer)
        ensures { Puts out.old out.new (enc (to_expression (type_made made self.now))) }
    {
        if is_power(made) {
            out.put_word(POW);
        }
        to_expression(self.inner(made).bytes, 0, out);
    }
}

// Whether a type that is made so is a power: that of a domain or a range is.
fn is_power(made: Made) -> bool
    ensures { result ≡ powered (mode_of made) }
{
    matches!(made, Made::Domain | Made::Range)
}

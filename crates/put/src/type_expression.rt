// A type's bytes: where they end, and its expression (document 01: "BOOL 404, integers 401, a given set its identifier typed
// as its power, ℙ 752, product 214").
ghost use Rattle.std.specs.Prelude.{◌+◌, ◌≤◌, length};
ghost use Rattle.put.specs.Out.{Puts};
ghost use Rattle.put.specs.Written.{HasType, Expressed, given_bytes};

use crate::Writer;
use frame::operators::{BOOL, CPROD, FREE_IDENT, INTEGER, POW};

// The identifier of a given set: its number stands behind the type byte, and the type of the identifier is its power.
fn given_expression(types: &[u8], at: usize, out: &mut Writer)
    requires { at + 3 ≤ length types.now }
    ensures { Puts out.old out.new (given_bytes types.now at) }
{
    out.put_word(FREE_IDENT);
    out.put_copy(&types[at + 1..at + 3]);
    out.put_byte(3);
    out.put_copy(&types[at..at + 3]);
}

// The expression of the type at `at`; the answer is where that type ends.
// Kept: a position in and a position out, since the second type of a product begins where the first one ends.
pub fn to_expression(types: &[u8], at: usize, out: &mut Writer) -> usize
    requires { HasType types.now at }
    ensures { Expressed types.now at out.old out.new result }
{
    // Kept: the numbers are the bytes that a frame has for types; read into an enum first, each would stand twice.
    match types[at] {
        0 => {
            out.put_word(BOOL);
            at + 1
        }
        1 => {
            out.put_word(INTEGER);
            at + 1
        }
        2 => {
            given_expression(types, at, out);
            at + 3
        }
        3 => {
            out.put_word(POW);
            to_expression(types, at + 1, out)
        }
        _ => {
            out.put_word(CPROD);
            let second = to_expression(types, at + 1, out);
            to_expression(types, second, out)
        }
    }
}

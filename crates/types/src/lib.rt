// Types of a frame, read from left to right (document 01, "Numbers of what is turned down", 3 and 6). Positions count bytes from
// the frame's start. What is answered is where they end, or what they are turned down for.
#![tactic(auto)]

ghost use Rattle.std.specs.Prelude.{◌≡◌, ℕ, ◌+◌, ◌≤◌, ◌<◌, length};
ghost use Rattle.frame.specs.Reading.{read_ty, read_tys};
ghost use Rattle.types.specs.TypePost.{byte_answer, type_answer, given_at, types_answer};

use frame::limits::TYPE_LIMIT;
use frame::refusals::Refusal;

// The byte at `at` of a type that has to end by lim. The byte past the limit is not looked at, so 6 comes before 3.
fn type_byte(s: &[u8], at: usize, lim: usize) -> Result<u8, Refusal>
    ensures { result ≡ byte_answer lim s.now at }
{
    if lim <= at {
        return Err(Refusal::BadType);
    }
    s.get(at).copied().ok_or(Refusal::EndsInside)
}

// The type at `at`, which has to end by lim.
// Kept: bytes and a position as parameters and no cursor: each answer is the next position, and `?` hands on what turns a type down.
fn read_type(s: &[u8], at: usize, lim: usize) -> Result<usize, Refusal>
    requires { (at ≤ length s.now) × (at ≤ lim) × (lim ≤ length s.now + 64) }
    ensures { (f : ℕ) → lim < at + f → result ≡ type_answer (read_ty f lim s.now at) }
{
    // Kept: bytes of types as numbers: where types that were read are gone over again, an enum that is made from each byte would have a case
    // more, which can't occur there; here it would be made to be looked at once.
    match type_byte(s, at, lim)? {
        0 | 1 => Ok(at + 1),
        2 => given_number(s, at, lim),
        3 => read_type(s, at + 1, lim),
        4 => {
            let p = read_type(s, at + 1, lim)?;
            read_type(s, p, lim)
        }
        _ => Err(Refusal::BadType),
    }
}

// The two-byte number of the given set whose type byte stands at `at`: its bytes are met one after the other.
fn given_number(s: &[u8], at: usize, lim: usize) -> Result<usize, Refusal>
    requires { at < length s.now }
    ensures { result ≡ type_answer (given_at lim s.now at) }
{
    type_byte(s, at + 1, lim)?;
    type_byte(s, at + 2, lim)?;
    Ok(at + 3)
}

// n types in a row.
pub fn read_types(s: &[u8], at: usize, n: usize) -> Result<usize, Refusal>
    requires { at ≤ length s.now }
    ensures { result ≡ types_answer (read_tys n s.now at) }
{
    let mut p = at;
    for _ in 0..n {
        p = read_type(s, p, p + TYPE_LIMIT)?;
    }
    Ok(p)
}

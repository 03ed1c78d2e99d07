// Copies of bytes from one buffer to another.
#![tactic(auto)]

ghost use Rattle.std.specs.Prelude.{◌≡◌, ◌+◌, ◌≤◌, length};
ghost use Rattle.std.proofs.Math.Seq.{paste};

// The bytes of s go into the buffer, from `to` on.
// Kept: a loop and no `copy_from_slice`: where the two may overlap for all that the compiler knows, that calls the C library's memmove,
// and the archive for C is to ask for no more names from outside than memcpy and memset.
pub fn copy_in(s: &[u8], buf: &mut [u8], to: usize)
    requires { to + length s.now ≤ length buf.old }
    ensures { buf.new ≡ paste buf.old to s.now (length s.now) }
{
    for (i, &b) in s.iter().enumerate() {
        buf[to + i] = b;
    }
}

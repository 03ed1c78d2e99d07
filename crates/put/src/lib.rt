// Bytes go behind what was written before; once they don't fit a frame, the writer holds nothing for good. So no caller has
// to look whether there is room before the whole frame is written.
#![tactic(auto)]

pub mod type_expression; // type_expression.rt: `to_expression`

ghost use Rattle.std.specs.Prelude.{◌≡◌, [], ◌∷◌, ◌≤◌, ◌<◌, List, ℕ, length, Option, Some, IfSome, option_copied, ⊤};
ghost use Rattle.frame.specs.Encoding.{enc_number};
ghost use Rattle.put.specs.Out.{held, AtMost, Puts};

use copies::copy_in;
use frame::limits::FRAME_LIMIT;
use std::alloc::AllocError;
use std::marker::Model;

// What has been written, as contracts see it: the bytes, or None once they did not fit.
// Kept: an array and an `Option` of a length and no `Option<ArrayVec>`: all 4,096 bytes would be cleared again once a frame did not fit,
// and those that were written each time when the writer begins again.
#[derive(Drop)]
pub struct Writer {
    bytes: [u8; 4096],
    // How many bytes were written; None once they did not fit.
    length: Option<usize>,
}

impl Model for Writer {
    ghost Value = { Option (List ℕ) };

    ghost view = { λ w. held w.length w.bytes };

    ghost invariant = { λ w. AtMost 4096 w.length };
}

// A clone holds what its source does, and is always made.
// Kept: no `Copy`, which a struct with a Model has only where the view gives the fields back: this one forgets the bytes behind those that
// were written.
impl Clone for Writer {
    ghost is_clone = { λ w copy. copy ≡ w };

    ghost is_infallible = { λ _. ⊤ };

    fn clone(&self) -> Result<Self, AllocError> {
        Ok(Writer {
            bytes: self.bytes,
            length: self.length,
        })
    }
}

impl Writer {
    pub fn new() -> Self
        ensures { result ≡ Some [] }
    {
        Writer {
            bytes: [0; 4096],
            length: Some(0),
        }
    }

    // Begins again. What the buffer held is not cleared: it lies behind what is written.
    pub fn clear(&mut self)
        ensures { self.new ≡ Some [] }
    {
        self.length = Some(0);
    }

    pub fn put_copy(&mut self, s: &[u8])
        ensures { Puts self.old self.new s.now }
    {
        match self.length {
            Some(n) if s.len() <= FRAME_LIMIT - n => {
                copy_in(s, &mut self.bytes, n);
                self.length = Some(n + s.len());
            }
            _ => self.length = None,
        }
    }

    pub fn put_byte(&mut self, b: u8)
        ensures { Puts self.old self.new (b ∷ []) }
    {
        self.put_copy(&[b]);
    }

    // A number of two bytes, high byte first, as a tag is.
    pub fn put_word(&mut self, w: usize)
        requires { w < 65536 }
        ensures { Puts self.old self.new (enc_number 2 w) }
    {
        // Kept: `as`: no `From` makes a shorter number, and by `try_from` the proof would be asked the same and the line be longer.
        self.put_copy(&(w as u16).to_be_bytes());
    }

    // What was written, if it fits a frame.
    pub fn frame(&self) -> Option<&[u8]>
        ensures bytes { option_copied result ≡ self.now }
        ensures fits { IfSome result (λ f. length f.now ≤ 4096) }
    {
        self.length.map(|n| &self.bytes[..n])
    }
}

//! Who sent a message, borrowed.

ghost use Rattle.std.specs.Prelude.{◌≡◌};

use gw_base::Mid;
use std::marker::Model;

/// Who sent a message: an mId that lies in the arena of what is read, and is moved by its place. Contracts see its
/// bytes.
#[derive(Drop)]
pub struct Sender<'a> {
    mid: &'a Mid,
}

impl<'a> Model for Sender<'a> {
    ghost use Rattle.std.specs.Prelude.{ℕ, List};

    ghost Value = { List ℕ };

    ghost view = { λ a. a.mid.now };
}

impl<'a> Sender<'a> {
    /// The sender of this mId, borrowed.
    pub fn new(mid: &'a Mid) -> Self
        ensures { result ≡ mid.now }
    {
        Sender { mid }
    }

    /// The same, borrowed once more.
    pub fn again(&self) -> Self
        ensures { result ≡ self.now }
    {
        Sender { mid: self.mid }
    }

    /// The mId, byte for byte.
    pub fn mid(&self) -> &'a Mid
        ensures { result.now ≡ self.now }
    {
        self.mid
    }
}

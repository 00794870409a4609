//! Where a text stands in another, as contracts see it: its bytes.

ghost use Rattle.std.specs.Prelude.{◌≡◌};

use std::marker::Model;

/// A text that stands in another one and is not copied, as a part of what was read from a datagram. Contracts see its
/// bytes.
#[derive(Drop)]
pub struct Span<'a> {
    bytes: &'a [u8],
}

impl<'a> Model for Span<'a> {
    ghost use Rattle.std.specs.Prelude.{ℕ, List};

    ghost Value = { List ℕ };

    ghost view = { λ a. a.bytes.now };
}

impl<'a> Span<'a> {
    /// The text where it stands.
    pub fn new(bytes: &'a [u8]) -> Span<'a>
        ensures { result ≡ bytes.now }
    {
        Span { bytes }
    }

    /// The bytes of the text.
    pub fn as_bytes(&self) -> &'a [u8]
        ensures { result.now ≡ self.now }
    {
        self.bytes
    }
}

//! Short texts kept inline, at the front of an array, with zeros behind them.

ghost use Rattle.std.specs.Prelude.{◌≡◌, ◌≤◌, ◌<◌, ◌-◌, ◌++◌, length, replicate};
ghost use Rattle.gw_base.specs.Heads.{head_of, head_len};

use std::fmt;
use std::fmt::Write;
use std::marker::Model;

/// At most `N` bytes. Contracts see the list of them.
#[derive(Clone, Copy)]
pub struct Inline<const N: usize> {
    len: u8,
    cells: [u8; N],
}

impl<const N: usize> Model for Inline<N> {
    ghost use Rattle.std.specs.Prelude.{◌≡◌, ℕ, List, ◌-◌, ◌++◌, length, take, replicate};
    ghost use Rattle.gw_base.specs.Padding.{IsPadded};
    ghost use Rattle.gw_base.specs.PaddingLaw.{padded_back};

    ghost Value = { List ℕ };

    ghost view = { λ a. take a.len a.cells };

    ghost invariant = { λ a. IsPadded N a.len a.cells };

    ghost inverse = { λ text. record { len = length text; cells = text ++ replicate (N - length text) 0 } };

    ghost inverse_ok = { λ a h. padded_back N a h };
}

/// The text, and zeros behind it.
fn padded<const N: usize>(text: &[u8]) -> [u8; N]
    requires { length text.now ≤ N }
    ensures { result ≡ text.now ++ replicate (N - length text.now) 0 }
{
    let mut cells = [0; N];
    cells[..text.len()].copy_from_slice(text);
    cells
}

impl<const N: usize> Inline<N> {
    /// The text, which has room.
    pub(crate) fn new(text: &[u8]) -> Self
        requires room { length text.now ≤ N }
        requires short { length text.now < 256 }
        ensures { result ≡ text.now }
    {
        Inline {
            len: text.len() as u8,
            cells: padded(text),
        }
    }

    /// How many bytes `head` has.
    pub(crate) fn seen() -> usize
        ensures { result ≡ head_len N }
    {
        if N >= 8 { 8 } else { 0 }
    }

    /// The first eight bytes as one number, the first byte worth most, and zeros behind a shorter text: of two texts
    /// whose numbers differ, the one with the smaller comes first. Of texts that have no room for eight bytes it is 0.
    pub(crate) fn head(&self) -> u64
        ensures { result ≡ head_of (head_len N) self.now }
    {
        let cells: &[u8] = &self.cells;
        match cells {
            [a, b, c, d, e, f, g, h, ..] => u64::from_be_bytes([*a, *b, *c, *d, *e, *f, *g, *h]),
            _ => 0,
        }
    }

    /// The bytes of the text.
    pub fn as_bytes(&self) -> &[u8]
        ensures { result.now ≡ self.now }
    {
        &self.cells[..self.len as usize]
    }
}

impl<const N: usize> fmt::Display for Inline<N> {
    fn fmt<W: fmt::Write>(&self, f: &mut fmt::Formatter<W>) -> fmt::Result {
        for b in self.as_bytes() {
            f.write_char(char::from(*b))?;
        }
        Ok(())
    }
}

//! The address of a gateway's media.

ghost use Rattle.std.specs.Prelude.{◌≡◌, ◌↔◌, IsTrue};
ghost use Rattle.std.specs.List.{list_all};
ghost use Rattle.gw_base.specs.Addresses.{is_address_byte, IsAddress, address_max};
ghost use Rattle.gw_base.specs.Reads.{ReadsAs};

use crate::bytes::is_hex_digit;
use crate::fault::NameFault;
use crate::inline::Inline;
use std::fmt;
use std::marker::Model;

/// The most bytes of an address.
const ADDRESS_MAX: usize = 45;

/// An IPv4 or IPv6 address as text: 1 to 45 hexadecimal digits, dots and colons, kept inline as sent.
#[derive(Clone, Copy, PartialEq, Eq, PartialOrd, Ord)]
pub struct MediaAddr {
    text: Inline<ADDRESS_MAX>,
}

impl Model for MediaAddr {
    ghost use Rattle.std.specs.Prelude.{ℕ, List};
    ghost use Rattle.gw_base.specs.Addresses.{IsAddress};

    ghost Value = { List ℕ };

    ghost view = { λ a. a.text };

    ghost invariant = { λ a. IsAddress a.text };

    ghost inverse = { λ address. record { text = address } };
}

fn is_address_byte(b: u8) -> bool
    ensures { result ≡ is_address_byte b }
{
    is_hex_digit(b) || b".:".contains(&b)
}

fn are_address_bytes(text: &[u8]) -> bool
    ensures { result ≡ list_all is_address_byte text.now }
{
    text.iter().all(|b| is_address_byte(*b))
}

/// Whether the text is an address, which also stands between the brackets of an mId.
pub(crate) fn is_address(text: &[u8]) -> bool
    ensures { IsTrue result ↔ IsAddress text.now }
{
    !text.is_empty() && text.len() <= ADDRESS_MAX && are_address_bytes(text)
}

impl MediaAddr {
    /// The address that the text is. A text of no bytes is `Empty`, one of more than 45 `TooLong`, any other that is no
    /// address `BadByte`.
    pub fn read(text: &[u8]) -> Result<MediaAddr, NameFault>
        ensures { ReadsAs IsAddress address_max text.now result }
    {
        if text.is_empty() {
            return Err(NameFault::Empty);
        }
        if text.len() > ADDRESS_MAX {
            return Err(NameFault::TooLong);
        }
        if !is_address(text) {
            return Err(NameFault::BadByte);
        }
        Ok(MediaAddr {
            text: Inline::new(text),
        })
    }

    /// The address's bytes.
    pub fn as_bytes(&self) -> &[u8]
        ensures bytes { result.now ≡ self.now }
        ensures form { IsAddress self.now }
    {
        self.text.as_bytes()
    }
}

impl fmt::Display for MediaAddr {
    fn fmt<W: fmt::Write>(&self, f: &mut fmt::Formatter<W>) -> fmt::Result {
        let text = self.text;
        write!(f, "{text}")
    }
}

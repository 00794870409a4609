//! The name of a termination (RFC 3525, section 6.2.2 and Annex B.2, `TerminationID`).

ghost use Rattle.std.specs.Prelude.{◌≡◌, length, ◌≤◌, ◌↔◌, IsTrue};
ghost use Rattle.std.specs.List.{list_all};
ghost use Rattle.gw_base.specs.Bytes.{is_name_byte};
ghost use Rattle.gw_base.specs.Names.{IsName, name_max};
ghost use Rattle.gw_base.specs.Reads.{ReadsAs};

use crate::bytes::{is_letter, is_name_byte};
use crate::fault::NameFault;
use crate::inline::Inline;
use std::fmt;
use std::marker::Model;

/// The most bytes of a name of any kind, of a TerminationID with wildcards too.
pub(crate) const NAME_MAX: usize = 64;

/// A termination's name: 1 to 64 bytes, kept inline, compared and ordered byte for byte. It begins with a letter and
/// goes on with letters, digits and `_ / @ . -`.
#[derive(Clone, Copy, PartialEq, Eq, PartialOrd, Ord, Hash)]
pub struct TermName {
    text: Inline<NAME_MAX>,
}

impl Model for TermName {
    ghost use Rattle.std.specs.Prelude.{ℕ, List};
    ghost use Rattle.gw_base.specs.Names.{IsName};

    ghost Value = { List ℕ };

    ghost view = { λ a. a.text };

    ghost invariant = { λ a. IsName a.text };

    ghost inverse = { λ name. record { text = name } };
}

fn are_name_bytes(text: &[u8]) -> bool
    ensures { result ≡ list_all is_name_byte text.now }
{
    text.iter().all(|b| is_name_byte(*b))
}

fn is_name(text: &[u8]) -> bool
    requires { length text.now ≤ name_max }
    ensures { IsTrue result ↔ IsName text.now }
{
    !text.is_empty() && is_letter(text[0]) && are_name_bytes(text)
}

impl TermName {
    /// The name that the text is. A text of no bytes is `Empty`, one of more than 64 `TooLong`, any other that is no
    /// name `BadByte`.
    pub fn read(text: &[u8]) -> Result<TermName, NameFault>
        ensures { ReadsAs IsName name_max text.now result }
    {
        if text.is_empty() {
            return Err(NameFault::Empty);
        }
        if text.len() > NAME_MAX {
            return Err(NameFault::TooLong);
        }
        if !is_name(text) {
            return Err(NameFault::BadByte);
        }
        Ok(TermName {
            text: Inline::new(text),
        })
    }

    /// The name that the text is, which the caller knows to be one: it is not looked at.
    pub fn of(text: &[u8]) -> TermName
        requires { IsName text.now }
        ensures { result ≡ text.now }
    {
        TermName {
            text: Inline::new(text),
        }
    }

    /// The name's bytes.
    pub fn as_bytes(&self) -> &[u8]
        ensures bytes { result.now ≡ self.now }
        ensures form { IsName self.now }
    {
        self.text.as_bytes()
    }
}

impl fmt::Display for TermName {
    fn fmt<W: fmt::Write>(&self, f: &mut fmt::Formatter<W>) -> fmt::Result {
        let text = self.text;
        write!(f, "{text}")
    }
}

impl fmt::Debug for TermName {
    fn fmt<W: fmt::Write>(&self, f: &mut fmt::Formatter<W>) -> fmt::Result {
        write!(f, "{self}")
    }
}

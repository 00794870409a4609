//! What a command names (RFC 3525, section 6.2.2 and Annex B.2, `TerminationID`).

ghost use Rattle.std.specs.Prelude.{◌≡◌, ◌≢◌, ◌≤◌, ◌↔◌, ℕ, List, [], length, true, IsTrue, MatchOption};
ghost use Rattle.std.specs.List.{list_all, list_any};
ghost use Rattle.gw_base.specs.Names.{IsName, name_max};
ghost use Rattle.gw_base.specs.Wildcards.{is_wildcard_byte, is_term_byte, IsTermText, IsRoot, IsUnder};
ghost use Rattle.gw_base.specs.TermRefs.{IsClass, ReadsTerm};

use crate::bytes::{is_letter, is_name_byte};
use crate::fault::NameFault;
use crate::inline::Inline;
use crate::name::{NAME_MAX, TermName};
use std::fmt;
use std::marker::Model;

/// A TerminationID with a wildcard that this profile gives no meaning to: 1 to 64 bytes, kept inline as sent.
#[derive(Clone, Copy, PartialEq, Eq)]
pub struct Pattern {
    text: Inline<NAME_MAX>,
}

impl Model for Pattern {
    ghost use Rattle.std.specs.Prelude.{ℕ, List};
    ghost use Rattle.gw_base.specs.Wildcards.{IsTermText};

    ghost Value = { List ℕ };

    ghost view = { λ a. a.text };

    ghost invariant = { λ a. IsTermText a.text };

    ghost inverse = { λ pattern. record { text = pattern } };
}

/// A TerminationID as a command has it.
#[derive(Clone, Copy, Debug, PartialEq, Eq)]
pub enum TermRef {
    /// `ROOT`, in any case: the gateway itself.
    Root,
    /// `*`: each termination.
    All,
    /// A name that ends in `/`, and `*`: each termination whose name begins with it, the `/` included.
    Under(TermName),
    /// `$` or `RTP/$`: a termination to be made.
    Choose,
    /// The termination of this name.
    Name(TermName),
    /// Any other text with a wildcard.
    Other(Pattern),
}

fn is_wildcard_byte(b: u8) -> bool
    ensures { result ≡ is_wildcard_byte b }
{
    b"*$".contains(&b)
}

fn are_term_bytes(text: &[u8]) -> bool
    ensures { result ≡ list_all is_term_byte text.now }
{
    text.iter()
        .all(|b| is_name_byte(*b) || is_wildcard_byte(*b))
}

fn is_term(text: &[u8]) -> bool
    requires { length text.now ≤ name_max }
    ensures { IsTrue result ↔ IsTermText text.now }
{
    !text.is_empty() && (is_letter(text[0]) || is_wildcard_byte(text[0])) && are_term_bytes(text)
}

fn is_root(text: &[u8]) -> bool
    ensures { IsTrue result ↔ IsRoot text.now }
{
    text.eq_ignore_ascii_case(b"ROOT")
}

/// The name before the `*`, where the text is a name that ends in `/`, and `*`.
fn under(text: &[u8]) -> Option<TermName>
    ensures { MatchOption result ((prefix : List ℕ) → ¬ IsUnder prefix text.now) (λ prefix. IsUnder prefix text.now) }
{
    let (last, front) = text.split_last()?;
    if *last != b'*' || front.is_empty() || front[front.len() - 1] != b'/' {
        return None;
    }
    match TermName::read(front) {
        Ok(prefix) => Some(prefix),
        Err(_) => None,
    }
}

/// What a text with a wildcard stands for.
fn wild(text: &[u8]) -> TermRef
    requires form { IsTermText text.now }
    requires wild { list_any is_wildcard_byte text.now ≡ true }
    ensures { IsClass result text.now }
{
    if text == b"*".as_slice() {
        return TermRef::All;
    }
    if text == b"$".as_slice() || text == b"RTP/$".as_slice() {
        return TermRef::Choose;
    }
    if let Some(prefix) = under(text) {
        return TermRef::Under(prefix);
    }
    TermRef::Other(Pattern {
        text: Inline::new(text),
    })
}

/// What a text that is no name stands for, if it is a TerminationID.
#[tactic(auto, using(crate::proofs::TermNames::other_term))]
fn wildcard_of(text: &[u8]) -> Result<TermRef, NameFault>
    requires some { text.now ≢ [] }
    requires short { length text.now ≤ name_max }
    requires other { ¬ IsName text.now }
    ensures { ReadsTerm text.now result }
{
    if !is_term(text) {
        return Err(NameFault::BadByte);
    }
    Ok(wild(text))
}

/// What a text stands for, which is mostly a name.
#[tactic(auto, using(crate::proofs::TermNames::name_term, crate::proofs::TermNames::name_plain))]
fn named(text: &[u8]) -> Result<TermRef, NameFault>
    ensures { ReadsTerm text.now result }
{
    match TermName::read(text) {
        Ok(_) if is_root(text) => Ok(TermRef::Root),
        Ok(name) => Ok(TermRef::Name(name)),
        Err(NameFault::BadByte) => wildcard_of(text),
        Err(fault) => Err(fault),
    }
}

impl TermRef {
    /// The reference that the text is. A text of no bytes is `Empty`, one of more than 64 `TooLong`; any other that
    /// does not begin with a letter, `*` or `$` and go on with letters, digits and `_ / * $ @ . -` is `BadByte`.
    pub fn read(text: &[u8]) -> Result<TermRef, NameFault>
        ensures { ReadsTerm text.now result }
    {
        match text {
            b"*" => Ok(TermRef::All),
            b"$" => Ok(TermRef::Choose),
            _ => named(text),
        }
    }
}

impl Pattern {
    /// The text as sent.
    pub fn as_bytes(&self) -> &[u8]
        ensures bytes { result.now ≡ self.now }
        ensures form { IsTermText self.now }
    {
        self.text.as_bytes()
    }
}

impl fmt::Display for Pattern {
    fn fmt<W: fmt::Write>(&self, f: &mut fmt::Formatter<W>) -> fmt::Result {
        let text = self.text;
        write!(f, "{text}")
    }
}

impl fmt::Debug for Pattern {
    fn fmt<W: fmt::Write>(&self, f: &mut fmt::Formatter<W>) -> fmt::Result {
        write!(f, "{self}")
    }
}

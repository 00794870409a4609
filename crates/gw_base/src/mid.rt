//! What a gateway or a controller calls itself (RFC 3525, Annex B.2, `mId`).

ghost use Rattle.std.specs.Prelude.{◌≡◌, ◌↔◌, ◌++◌, ◌∷◌, ◌==◌, nat_le, IsTrue, IfNone, IfSome, true, false, codes};
ghost use Rattle.std.specs.List.{list_all, list_any};
ghost use Rattle.std.specs.Str.Parse.{digits_value};
ghost use Rattle.gw_base.specs.Bytes.{is_digit};
ghost use Rattle.gw_base.specs.Lang.{◌▹◌, IsText};
ghost use Rattle.gw_base.specs.Addresses.{IsAddress};
ghost use Rattle.gw_base.specs.Mids.{is_domain_byte, is_device_byte, IsDomain, IsPort, IsOptionalPort, IsDevice, IsMid, port_max, longest_mid};
ghost use Rattle.gw_base.specs.Reads.{ReadsAs};

use crate::bytes::{is_digit, is_letter, is_name_byte};
use crate::fault::NameFault;
use crate::inline::Inline;
use crate::media::is_address;
use crate::name::NAME_MAX;
use std::fmt;
use std::marker::Model;

/// The most bytes of an mId in brackets: a name's, and two brackets, a colon and a port.
const BRACKETED_MAX: usize = 72;

/// The most digits of a port, and the greatest number that they write.
const PORT_DIGITS: usize = 5;

const PORT_MAX: u32 = 65_535;

/// An mId as sent: an address in brackets or a domain name in angle brackets, each with a port or without, or a device
/// name. Kept inline, compared and ordered byte for byte: another spelling of the same host is another sender.
#[derive(Clone, Copy, PartialEq, Eq, PartialOrd, Ord)]
pub struct Mid {
    text: Inline<BRACKETED_MAX>,
}

impl Model for Mid {
    ghost use Rattle.std.specs.Prelude.{ℕ, List};
    ghost use Rattle.gw_base.specs.Mids.{IsMid};

    ghost Value = { List ℕ };

    ghost view = { λ a. a.text };

    ghost invariant = { λ a. IsMid a.text };

    ghost inverse = { λ mid. record { text = mid } };
}

fn is_domain_byte(b: u8) -> bool
    ensures { result ≡ is_domain_byte b }
{
    is_letter(b) || is_digit(b) || b"-.".contains(&b)
}

fn is_device_byte(b: u8) -> bool
    ensures { result ≡ is_device_byte b }
{
    is_name_byte(b) || b"*$".contains(&b)
}

fn are_domain_bytes(text: &[u8]) -> bool
    ensures { result ≡ list_all is_domain_byte text.now }
{
    text.iter().all(|b| is_domain_byte(*b))
}

fn are_device_bytes(text: &[u8]) -> bool
    ensures { result ≡ list_all is_device_byte text.now }
{
    text.iter().all(|b| is_device_byte(*b))
}

fn are_digits(text: &[u8]) -> bool
    ensures { result ≡ list_all is_digit text.now }
{
    text.iter().all(|b| is_digit(*b))
}

fn is_domain(text: &[u8]) -> bool
    ensures { IsTrue result ↔ IsDomain text.now }
{
    !text.is_empty()
        && text.len() <= NAME_MAX
        && (is_letter(text[0]) || is_digit(text[0]))
        && are_domain_bytes(text)
}

fn is_device(text: &[u8]) -> bool
    ensures { IsTrue result ↔ IsDevice text.now }
{
    !text.is_empty()
        && text.len() <= NAME_MAX
        && (is_letter(text[0]) || text[0] == b'*')
        && are_device_bytes(text)
}

/// Whether the digits write a number of at most 65,535.
fn is_port_number(digits: &[u8]) -> bool
    requires { list_all is_digit digits.now ≡ true }
    ensures { result ≡ nat_le (digits_value 10 digits.now) port_max }
{
    let mut number: u32 = 0;
    for b in digits {
        number = number * 10 + u32::from(*b - b'0');
        if number > PORT_MAX {
            return false;
        }
    }
    true
}

/// The same. All that four digits write is small.
#[tactic(auto, using(crate::proofs::Ports::few_digits))]
fn is_small(digits: &[u8]) -> bool
    requires { list_all is_digit digits.now ≡ true }
    ensures { result ≡ nat_le (digits_value 10 digits.now) port_max }
{
    digits.len() < PORT_DIGITS || is_port_number(digits)
}

fn is_port(text: &[u8]) -> bool
    ensures { IsTrue result ↔ IsPort text.now }
{
    !text.is_empty() && text.len() <= PORT_DIGITS && are_digits(text) && is_small(text)
}

fn is_optional_port(text: &[u8]) -> bool
    ensures { IsTrue result ↔ IsOptionalPort text.now }
{
    match text {
        [] => true,
        [b':', port @ ..] => is_port(port),
        _ => false,
    }
}

/// What stands before the first such byte, and what stands behind it.
fn split_at_first(text: &[u8], b: u8) -> Option<(&[u8], &[u8])>
    ensures none { IfNone result (list_any (λ c. c == b) text.now ≡ false) }
    ensures split { IfSome result (λ r. text.now ≡ r.0.now ++ b ∷ r.1.now) }
    ensures first { IfSome result (λ r. list_any (λ c. c == b) r.0.now ≡ false) }
{
    for (i, c) in text.iter().enumerate() {
        if *c == b {
            return Some((&text[..i], &text[i + 1..]));
        }
    }
    None
}

/// What follows `[` in an mId.
fn is_bracketed(text: &[u8]) -> bool
    ensures { IsTrue result ↔ (IsAddress ▹ IsText (codes "]") ▹ IsOptionalPort) text.now }
{
    match split_at_first(text, b']') {
        Some((address, port)) => is_address(address) && is_optional_port(port),
        None => false,
    }
}

/// What follows `<` in an mId.
fn is_angled(text: &[u8]) -> bool
    ensures { IsTrue result ↔ (IsDomain ▹ IsText (codes ">") ▹ IsOptionalPort) text.now }
{
    match split_at_first(text, b'>') {
        Some((domain, port)) => is_domain(domain) && is_optional_port(port),
        None => false,
    }
}

fn is_mid(text: &[u8]) -> bool
    ensures { IsTrue result ↔ IsMid text.now }
{
    match text {
        [b'[', rest @ ..] => is_bracketed(rest),
        [b'<', rest @ ..] => is_angled(rest),
        _ => is_device(text),
    }
}

/// How many bytes an mId that begins so may have.
fn longest_mid(text: &[u8]) -> usize
    ensures { result ≡ longest_mid text.now }
{
    match text.first() {
        Some(b'[' | b'<') => BRACKETED_MAX,
        _ => NAME_MAX,
    }
}

impl Mid {
    /// The mId that the text is. A text of no bytes is `Empty`; one of more than 64 bytes, or of more than 72 where it
    /// begins with a bracket, is `TooLong`; any other that is no mId is `BadByte`.
    pub fn read(text: &[u8]) -> Result<Mid, NameFault>
        ensures { ReadsAs IsMid (longest_mid text.now) text.now result }
    {
        if text.is_empty() {
            return Err(NameFault::Empty);
        }
        if text.len() > longest_mid(text) {
            return Err(NameFault::TooLong);
        }
        if !is_mid(text) {
            return Err(NameFault::BadByte);
        }
        Ok(Mid {
            text: Inline::new(text),
        })
    }

    /// The mId's bytes.
    pub fn as_bytes(&self) -> &[u8]
        ensures bytes { result.now ≡ self.now }
        ensures form { IsMid self.now }
    {
        self.text.as_bytes()
    }
}

impl fmt::Display for Mid {
    fn fmt<W: fmt::Write>(&self, f: &mut fmt::Formatter<W>) -> fmt::Result {
        let text = self.text;
        write!(f, "{text}")
    }
}

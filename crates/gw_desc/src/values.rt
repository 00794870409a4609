//! The words that stand for values: modes, service states, what an Audit requests.

ghost use Rattle.std.specs.Prelude.{◌≡◌, IfSome, Some};
ghost use Rattle.gw_text.specs.TokenTable.{begins_in};
ghost use Rattle.gw_desc.specs.Values.{mode_of, service_of, item_of, is_mode, is_service_states, mode_set_by, service_set_by, uint32_of, is_parm};

use crate::descriptor::{KeptKind, Property, ServiceParm, Sign};
use gw_base::{Service, Span};
use gw_text::{Cursor, Token, token_of};

/// The mode of a stream (RFC 3525, section 7.1.7).
#[derive(Clone, Copy)]
pub enum Mode {
    /// `SendOnly`: media goes out.
    SendOnly,
    /// `ReceiveOnly`: media comes in.
    ReceiveOnly,
    /// `SendReceive`: both.
    SendReceive,
    /// `Inactive`: neither.
    Inactive,
    /// `Loopback`: what comes in goes out again.
    Loopback,
}

/// What an Audit may ask for (RFC 3525, section 7.2.5).
#[derive(Clone, Copy)]
pub enum AuditItem {
    /// `Media`: the service state, the streams and all properties.
    Media,
    /// A descriptor that is kept as sent.
    Kept(KeptKind),
    /// `Statistics`, of which this profile has none.
    Statistics,
    /// `ObservedEvents`, of which this profile has none.
    ObservedEvents,
    /// `Packages`, of which this profile has none.
    Packages,
}

/// The mode of a value that is sent as the table of tokens has it: it is recognized by the value's length and its
/// bytes.
fn often_mode(value: &[u8]) -> Option<Mode>
    ensures { IfSome result (λ mode. mode_of value.now ≡ Some mode) }
{
    match value {
        b"SendReceive" => Some(Mode::SendReceive),
        b"SendOnly" => Some(Mode::SendOnly),
        b"ReceiveOnly" => Some(Mode::ReceiveOnly),
        b"Inactive" => Some(Mode::Inactive),
        b"SR" => Some(Mode::SendReceive),
        b"SO" => Some(Mode::SendOnly),
        b"RC" => Some(Mode::ReceiveOnly),
        b"IN" => Some(Mode::Inactive),
        _ => None,
    }
}

/// The mode that a value is.
#[tactic(auto, unfolding(crate::specs::Values::mode_of))]
pub(crate) fn mode_of(value: &[u8]) -> Option<Mode>
    ensures { result ≡ mode_of value.now }
{
    if let Some(mode) = often_mode(value) {
        return Some(mode);
    }
    match token_of(value) {
        Some(Token::SendOnly) => Some(Mode::SendOnly),
        Some(Token::ReceiveOnly) => Some(Mode::ReceiveOnly),
        Some(Token::SendReceive) => Some(Mode::SendReceive),
        Some(Token::Inactive) => Some(Mode::Inactive),
        Some(Token::Loopback) => Some(Mode::Loopback),
        _ => None,
    }
}

/// The service state that a value is.
#[tactic(auto, unfolding(crate::specs::Values::service_of))]
pub(crate) fn service_of(value: &[u8]) -> Option<Service>
    ensures { result ≡ service_of value.now }
{
    match token_of(value) {
        Some(Token::Test) => Some(Service::Test),
        Some(Token::OutOfService) => Some(Service::OutOfService),
        Some(Token::InService) => Some(Service::InService),
        _ => None,
    }
}

/// What a word of an Audit requests.
#[tactic(auto, unfolding(crate::specs::Values::item_of))]
pub fn item_of(word: &[u8]) -> Option<AuditItem>
    ensures { result ≡ item_of word.now }
{
    match token_of(word) {
        Some(Token::Media) => Some(AuditItem::Media),
        Some(Token::Signals) => Some(AuditItem::Kept(KeptKind::Signals)),
        Some(Token::Events) => Some(AuditItem::Kept(KeptKind::Events)),
        Some(Token::EventBuffer) => Some(AuditItem::Kept(KeptKind::EventBuffer)),
        Some(Token::DigitMap) => Some(AuditItem::Kept(KeptKind::DigitMap)),
        Some(Token::Statistics) => Some(AuditItem::Statistics),
        Some(Token::ObservedEvents) => Some(AuditItem::ObservedEvents),
        Some(Token::Packages) => Some(AuditItem::Packages),
        _ => None,
    }
}

/// Whether a name begins with the letter, which is in lower case.
fn begins_in(letter: u8, name: &[u8]) -> bool
    ensures { result ≡ begins_in letter name.now }
{
    match name {
        [b, ..] => b.to_ascii_lowercase() == letter,
        [] => false,
    }
}

/// Whether a property of a LocalControl is Mode. Most others are recognized by the length of their name, or by its
/// first letter.
#[tactic(auto, using(crate::proofs::WordLengths::no_mode, crate::proofs::WordLengths::no_mode_in), unfolding(crate::specs::Values::is_mode))]
pub fn is_mode(name: &[u8]) -> bool
    ensures { result ≡ is_mode name.now }
{
    if name.len() != 4 && name.len() != 2 {
        return false;
    }
    if !begins_in(b'm', name) {
        return false;
    }
    matches!(token_of(name), Some(Token::Mode))
}

/// Whether a property of a TerminationState is ServiceStates. Most others are recognized by the length of their name,
/// or by its first letter.
#[tactic(auto, using(crate::proofs::WordLengths::no_states, crate::proofs::WordLengths::no_states_in), unfolding(crate::specs::Values::is_service_states))]
pub fn is_service_states(name: &[u8]) -> bool
    ensures { result ≡ is_service_states name.now }
{
    if name.len() != 13 && name.len() != 2 {
        return false;
    }
    if !begins_in(b's', name) {
        return false;
    }
    matches!(token_of(name), Some(Token::ServiceStates))
}

/// The mode that a Mode sets: the word behind its `=`.
pub fn mode_set_by(property: &Property<Span<'_>>) -> Option<Mode>
    ensures { result ≡ mode_set_by property.now }
{
    match property.sign {
        Sign::Equal => mode_of(property.value.as_bytes()),
        _ => None,
    }
}

/// The service state that a ServiceStates sets: the word behind its `=`.
pub fn service_set_by(property: &Property<Span<'_>>) -> Option<Service>
    ensures { result ≡ service_set_by property.now }
{
    match property.sign {
        Sign::Equal => service_of(property.value.as_bytes()),
        _ => None,
    }
}

/// The number that a value is as a whole, if it is a uint32: 1 to 10 digits, and at most 4,294,967,295.
#[tactic(auto, unfolding(crate::specs::Values::uint32_of))]
pub fn uint32_of(text: &[u8]) -> Option<u32>
    ensures { result ≡ uint32_of text.now }
{
    let mut cursor = Cursor::new(text);
    let number = cursor.uint32().ok()?;
    if !cursor.is_empty() {
        return None;
    }
    Some(number.value)
}

/// Whether a parameter of a Services is the one of this name: `Method`, `Reason` or `Delay`.
#[tactic(auto, unfolding(crate::specs::Values::is_parm))]
pub fn is_parm(wanted: Token, parm: &ServiceParm<'_>) -> bool
    ensures { result ≡ is_parm wanted parm.now }
{
    match (wanted, token_of(parm.name.as_bytes())) {
        (Token::Method, Some(Token::Method)) => true,
        (Token::Reason, Some(Token::Reason)) => true,
        (Token::Delay, Some(Token::Delay)) => true,
        _ => false,
    }
}

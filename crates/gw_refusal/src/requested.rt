//! What a command names and requests.

ghost use Rattle.std.specs.Prelude.{◌≡◌, Some, [], option_copied, unwrap_or};
ghost use Rattle.std.specs.List.{find};
ghost use Rattle.gw_desc.specs.declared.values.AuditItem.TheVariants as item;
ghost use Rattle.gw_desc.specs.Checks.{is_asking, is_audit, is_services};
ghost use Rattle.gw_desc.specs.Values.{is_parm};
ghost use Rattle.gw_refusal.specs.Requested.{is_add, is_move, is_modify, is_subtract, is_service_change, brings, is_unsupported, is_root, is_choose, is_other_term, is_wildcard, matches, words_in, audited, is_some_list, requests_media, parms_in, parm_value, service_by_word, service_by, requested_service, is_other_method, is_other_delay, method, delay};

use gw_base::{Listed, Service, Span, TermName, TermRef, Verb};
use gw_desc::{
    AuditItem, AuditItems, Descriptor, ServiceParm, ServiceValue, is_parm, item_of, uint32_of,
};
use gw_text::{Token, token_of};

/// Whether the command brings a termination into a context.
pub(crate) fn brings(verb: Verb) -> bool
    ensures { result ≡ brings verb }
{
    matches!(verb, Verb::Add | Verb::Move)
}

/// Whether a gateway does not know the command.
pub(crate) fn is_unsupported(verb: Verb) -> bool
    ensures { result ≡ is_unsupported verb }
{
    matches!(verb, Verb::AuditCapability | Verb::Notify)
}

pub fn is_add(verb: Verb) -> bool
    ensures { result ≡ is_add verb }
{
    matches!(verb, Verb::Add)
}

pub(crate) fn is_move(verb: Verb) -> bool
    ensures { result ≡ is_move verb }
{
    matches!(verb, Verb::Move)
}

pub(crate) fn is_modify(verb: Verb) -> bool
    ensures { result ≡ is_modify verb }
{
    matches!(verb, Verb::Modify)
}

pub(crate) fn is_subtract(verb: Verb) -> bool
    ensures { result ≡ is_subtract verb }
{
    matches!(verb, Verb::Subtract)
}

pub(crate) fn is_service_change(verb: Verb) -> bool
    ensures { result ≡ is_service_change verb }
{
    matches!(verb, Verb::ServiceChange)
}

/// Whether the gateway itself is named.
pub(crate) fn is_root(term: &TermRef) -> bool
    ensures { result ≡ is_root term.now }
{
    matches!(term, TermRef::Root)
}

/// Whether a termination is to be made.
pub(crate) fn is_choose(term: &TermRef) -> bool
    ensures { result ≡ is_choose term.now }
{
    matches!(term, TermRef::Choose)
}

/// Whether it is a wildcard without a meaning here.
pub(crate) fn is_other(term: &TermRef) -> bool
    ensures { result ≡ is_other_term term.now }
{
    matches!(term, TermRef::Other(_))
}

/// Whether all terminations that match are named.
pub fn is_wildcard(term: &TermRef) -> bool
    ensures { result ≡ is_wildcard term.now }
{
    matches!(term, TermRef::All | TermRef::Under(_))
}

/// Whether a wildcard matches the name.
pub fn matches(term: &TermRef, name: &TermName) -> bool
    ensures { result ≡ matches term.now name.now }
{
    match term {
        TermRef::All => true,
        TermRef::Under(prefix) => name.as_bytes().starts_with(prefix.as_bytes()),
        _ => false,
    }
}

fn find_audit<'a, 'b>(descriptors: &'b [Descriptor<'a>]) -> Option<&'b Descriptor<'a>>
    ensures { option_copied result ≡ find is_audit descriptors.now }
{
    descriptors
        .iter()
        .find(|d| matches!(d, Descriptor::Audit(_)))
}

/// What is to be audited: the words of the first Audit, if there is one.
pub fn first_audit<'a, 'b>(descriptors: &'b [Descriptor<'a>]) -> Option<&'b AuditItems<'a>>
    ensures { unwrap_or (option_copied result) [] ≡ audited descriptors.now }
{
    match find_audit(descriptors)? {
        Descriptor::Audit(words) => Some(words),
        _ => None,
    }
}

/// Whether anything is to be audited.
pub(crate) fn audits_any(descriptors: &[Descriptor<'_>]) -> bool
    ensures { result ≡ is_some_list (audited descriptors.now) }
{
    match first_audit(descriptors) {
        Some(words) => !words.is_empty(),
        None => false,
    }
}

fn is_media(word: &Span<'_>) -> bool
    ensures { result ≡ is_asking item.Media word.now }
{
    matches!(item_of(word.as_bytes()), Some(AuditItem::Media))
}

/// Whether Media is to be audited.
pub fn requests_media(descriptors: &[Descriptor<'_>]) -> bool
    ensures { result ≡ requests_media descriptors.now }
{
    match first_audit(descriptors) {
        Some(words) => words.as_slice().iter().any(is_media),
        None => false,
    }
}

fn find_services<'a, 'b>(descriptors: &'b [Descriptor<'a>]) -> Option<&'b Descriptor<'a>>
    ensures { option_copied result ≡ find is_services descriptors.now }
{
    descriptors
        .iter()
        .find(|d| matches!(d, Descriptor::Services(_)))
}

/// The parameters of the first Services, if there is one.
fn first_services<'a, 'b>(
    descriptors: &'b [Descriptor<'a>],
) -> Option<&'b Listed<'a, ServiceParm<'a>>>
    ensures { unwrap_or (option_copied result) [] ≡ parms_in (find is_services descriptors.now) }
{
    match find_services(descriptors)? {
        Descriptor::Services(parms) => Some(parms),
        _ => None,
    }
}

/// The first parameter of this name.
fn first_parm<'a, 'b>(wanted: Token, parms: &'b [ServiceParm<'a>]) -> Option<&'b ServiceParm<'a>>
    ensures { option_copied result ≡ find (is_parm wanted) parms.now }
{
    parms.iter().find(|p| is_parm(wanted, p))
}

/// The value of the first parameter of this name in the first Services.
fn parm_value<'a, 'b>(
    wanted: Token,
    descriptors: &'b [Descriptor<'a>],
) -> Option<&'b ServiceValue<'a>>
    ensures { option_copied result ≡ parm_value wanted descriptors.now }
{
    let parms = first_services(descriptors)?;
    let parm = first_parm(wanted, parms.as_slice())?;
    parm.value.as_ref()
}

/// The service state that a Method requests.
fn service_by(value: &ServiceValue<'_>) -> Option<Service>
    ensures { result ≡ service_by value.now }
{
    let ServiceValue::Run(text) = value else {
        return None;
    };
    match token_of(text.as_bytes()) {
        Some(Token::Forced) => Some(Service::OutOfService),
        Some(Token::Restart) => Some(Service::InService),
        _ => None,
    }
}

/// The service state that a ServiceChange requests.
pub fn requested_service(descriptors: &[Descriptor<'_>]) -> Option<Service>
    ensures { result ≡ requested_service descriptors.now }
{
    service_by(parm_value(Token::Method, descriptors)?)
}

/// Whether the first Method is not executed.
pub(crate) fn is_other_method(descriptors: &[Descriptor<'_>]) -> bool
    ensures { result ≡ is_other_method (method descriptors.now) }
{
    match parm_value(Token::Method, descriptors) {
        Some(value) => service_by(value).is_none(),
        None => false,
    }
}

/// Whether the first Delay is not executed.
pub(crate) fn is_other_delay(descriptors: &[Descriptor<'_>]) -> bool
    ensures { result ≡ is_other_delay (delay descriptors.now) }
{
    match parm_value(Token::Delay, descriptors) {
        Some(ServiceValue::Run(text)) => matches!(uint32_of(text.as_bytes()), Some(1..)),
        _ => false,
    }
}

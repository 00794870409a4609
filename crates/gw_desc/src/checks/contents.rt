//! What stands twice in a list: a property, an item of an Audit, a parameter of a Services.

ghost use Rattle.std.specs.Prelude.{◌≡◌};
ghost use Rattle.gw_desc.specs.Checks.{has_content_twice, has_parm_twice, has_item_twice, has_property_twice, same_item};
ghost use Rattle.gw_desc.specs.OfKind.{is_special};

use super::counts::{OfKind, has_one, has_two};
use super::kinds::same_kept;
use super::names::has_name_twice;
use crate::descriptor::{Descriptor, KeptKind, MediaPart, Property, ServiceParm, StreamPart};
use crate::values::{AuditItem, is_mode, is_parm, is_service_states, item_of};
use gw_base::Span;
use gw_text::Token;

/// The property that a list may have under two spellings.
#[derive(Clone, Copy)]
pub(crate) enum Special {
    Mode,
    ServiceStates,
}

impl<'a> OfKind<Special> for Property<Span<'a>> {
    ghost use Rattle.gw_desc.specs.OfKind.{is_named};

    ghost is_of = { is_named };

    fn is_of(&self, which: Special) -> bool {
        match which {
            Special::Mode => is_mode(self.name.as_bytes()),
            Special::ServiceStates => is_service_states(self.name.as_bytes()),
        }
    }
}

impl<'a> OfKind<Token> for ServiceParm<'a> {
    ghost use Rattle.gw_desc.specs.Values.{is_parm};

    ghost is_of = { is_parm };

    fn is_of(&self, wanted: Token) -> bool {
        is_parm(wanted, self)
    }
}

fn same_item(a: AuditItem, b: AuditItem) -> bool
    ensures { result ≡ same_item a b }
{
    match (a, b) {
        (AuditItem::Media, AuditItem::Media) => true,
        (AuditItem::Kept(a), AuditItem::Kept(b)) => same_kept(a, b),
        (AuditItem::Statistics, AuditItem::Statistics) => true,
        (AuditItem::ObservedEvents, AuditItem::ObservedEvents) => true,
        (AuditItem::Packages, AuditItem::Packages) => true,
        _ => false,
    }
}

impl<'a> OfKind<AuditItem> for Span<'a> {
    ghost use Rattle.gw_desc.specs.Checks.{is_asking};

    ghost is_of = { is_asking };

    fn is_of(&self, wanted: AuditItem) -> bool {
        match item_of(self.as_bytes()) {
            Some(found) => same_item(wanted, found),
            None => false,
        }
    }
}

/// Whether a property stands twice in the list: a name in any case, or the special one under both its spellings.
#[tactic(auto, unfolding(crate::specs::Checks::has_property_twice))]
fn has_property_twice(properties: &[Property<Span<'_>>], which: Special) -> bool
    ensures { result ≡ has_property_twice (is_special which) properties.now }
{
    has_two(properties, which) || has_name_twice(properties)
}

/// Whether an Audit requests one item twice.
#[tactic(auto, unfolding(crate::specs::Checks::has_item_twice))]
fn has_item_twice(words: &[Span<'_>]) -> bool
    ensures { result ≡ has_item_twice words.now }
{
    has_two(words, AuditItem::Media)
        || has_two(words, AuditItem::Kept(KeptKind::Events))
        || has_two(words, AuditItem::Kept(KeptKind::Signals))
        || has_two(words, AuditItem::Kept(KeptKind::DigitMap))
        || has_two(words, AuditItem::Kept(KeptKind::EventBuffer))
        || has_two(words, AuditItem::Statistics)
        || has_two(words, AuditItem::ObservedEvents)
        || has_two(words, AuditItem::Packages)
}

/// Whether Method, Reason or Delay stands twice in a Services.
#[tactic(auto, unfolding(crate::specs::Checks::has_parm_twice))]
fn has_parm_twice(parms: &[ServiceParm<'_>]) -> bool
    ensures { result ≡ has_parm_twice parms.now }
{
    has_two(parms, Token::Method) || has_two(parms, Token::Reason) || has_two(parms, Token::Delay)
}

/// What has a list in which something stands twice.
#[derive(Clone, Copy)]
struct Repeating;

impl<'a> OfKind<Repeating> for StreamPart<'a> {
    ghost use Rattle.gw_desc.specs.Checks.{is_control_twice};

    ghost is_of = { λ _. is_control_twice };

    fn is_of(&self, _kind: Repeating) -> bool {
        match self {
            StreamPart::LocalControl(properties) => {
                has_property_twice(properties.as_slice(), Special::Mode)
            }
            _ => false,
        }
    }
}

impl<'a> OfKind<Repeating> for MediaPart<'a> {
    ghost use Rattle.gw_desc.specs.Checks.{is_list_twice};

    ghost is_of = { λ _. is_list_twice };

    fn is_of(&self, kind: Repeating) -> bool {
        match self {
            MediaPart::Outside(part) => part.is_of(kind),
            MediaPart::Stream(_, parts) => has_one(parts.as_slice(), kind),
            MediaPart::TerminationState(properties) => {
                has_property_twice(properties.as_slice(), Special::ServiceStates)
            }
        }
    }
}

impl<'a> OfKind<Repeating> for Descriptor<'a> {
    ghost use Rattle.gw_desc.specs.Checks.{holds_twice};

    ghost is_of = { λ _. holds_twice };

    fn is_of(&self, kind: Repeating) -> bool {
        match self {
            Descriptor::Media(parts) => has_one(parts.as_slice(), kind),
            Descriptor::Audit(words) => has_item_twice(words.as_slice()),
            Descriptor::Services(parms) => has_parm_twice(parms.as_slice()),
            _ => false,
        }
    }
}

/// Whether something stands twice in a list.
#[tactic(auto, unfolding(crate::specs::Checks::has_content_twice))]
pub(crate) fn has_content_twice(descriptors: &[Descriptor<'_>]) -> bool
    ensures { result ≡ has_content_twice descriptors.now }
{
    has_one(descriptors, Repeating)
}

//! Values and parts that do not fit, and what a command lacks.

ghost use Rattle.std.specs.Prelude.{◌≡◌};
ghost use Rattle.gw_desc.specs.Checks.{has_bad, is_media_bad, is_uint32, lacks};

use super::counts::{OfKind, has_one};
use super::twice::Kind;
use crate::descriptor::{Descriptor, MediaPart, Property, ServiceParm, ServiceValue, StreamPart};
use crate::values::{is_mode, is_parm, is_service_states, mode_set_by, service_set_by, uint32_of};
use gw_base::{Span, Verb};
use gw_text::Token;

/// A Mode that sets no mode.
#[derive(Clone, Copy)]
struct UnfitMode;

impl<'a> OfKind<UnfitMode> for Property<Span<'a>> {
    ghost use Rattle.gw_desc.specs.Checks.{is_bad_mode};

    ghost is_of = { λ _. is_bad_mode };

    fn is_of(&self, _kind: UnfitMode) -> bool {
        is_mode(self.name.as_bytes()) && mode_set_by(self).is_none()
    }
}

/// A ServiceStates that sets no service state.
#[derive(Clone, Copy)]
struct UnfitState;

impl<'a> OfKind<UnfitState> for Property<Span<'a>> {
    ghost use Rattle.gw_desc.specs.Checks.{is_bad_state};

    ghost is_of = { λ _. is_bad_state };

    fn is_of(&self, _kind: UnfitState) -> bool {
        is_service_states(self.name.as_bytes()) && service_set_by(self).is_none()
    }
}

/// What has a value that does not fit.
#[derive(Clone, Copy)]
struct Unfit;

impl<'a> OfKind<Unfit> for StreamPart<'a> {
    ghost use Rattle.gw_desc.specs.Checks.{is_bad_control};

    ghost is_of = { λ _. is_bad_control };

    fn is_of(&self, _kind: Unfit) -> bool {
        match self {
            StreamPart::LocalControl(properties) => has_one(properties.as_slice(), UnfitMode),
            _ => false,
        }
    }
}

impl<'a> OfKind<Unfit> for MediaPart<'a> {
    ghost use Rattle.gw_desc.specs.Checks.{is_bad_in};

    ghost is_of = { λ _. is_bad_in };

    fn is_of(&self, kind: Unfit) -> bool {
        match self {
            MediaPart::Outside(part) => part.is_of(kind),
            MediaPart::Stream(_, parts) => has_one(parts.as_slice(), kind),
            MediaPart::TerminationState(properties) => has_one(properties.as_slice(), UnfitState),
        }
    }
}

/// Where stream parts stand in a Media.
#[derive(Clone, Copy)]
pub(crate) enum Place {
    Outside,
    Stream,
}

impl<'a> OfKind<Place> for MediaPart<'a> {
    ghost use Rattle.gw_desc.specs.OfKind.{is_at};

    ghost is_of = { is_at };

    fn is_of(&self, place: Place) -> bool {
        match place {
            Place::Outside => matches!(self, MediaPart::Outside(_)),
            Place::Stream => matches!(self, MediaPart::Stream(..)),
        }
    }
}

/// Whether there is such a value in the Media, or stream parts both inside a Stream and outside.
#[tactic(auto, unfolding(crate::specs::Checks::is_media_bad))]
fn is_media_bad(parts: &[MediaPart<'_>]) -> bool
    ensures { result ≡ is_media_bad parts.now }
{
    has_one(parts, Unfit) || (has_one(parts, Place::Outside) && has_one(parts, Place::Stream))
}

fn is_uint32(value: &Option<ServiceValue<'_>>) -> bool
    ensures { result ≡ is_uint32 value.now }
{
    match value {
        Some(ServiceValue::Run(text)) => uint32_of(text.as_bytes()).is_some(),
        _ => false,
    }
}

/// A Delay that is no uint32.
impl<'a> OfKind<Unfit> for ServiceParm<'a> {
    ghost use Rattle.gw_desc.specs.Checks.{is_bad_delay};

    ghost is_of = { λ _. is_bad_delay };

    fn is_of(&self, _kind: Unfit) -> bool {
        is_parm(Token::Delay, self) && !is_uint32(&self.value)
    }
}

impl<'a> OfKind<Unfit> for Descriptor<'a> {
    ghost use Rattle.gw_desc.specs.Checks.{is_bad};

    ghost is_of = { λ _. is_bad };

    fn is_of(&self, kind: Unfit) -> bool {
        match self {
            Descriptor::Media(parts) => is_media_bad(parts.as_slice()),
            Descriptor::Services(parms) => has_one(parms.as_slice(), kind),
            _ => false,
        }
    }
}

/// A parameter of this name that has a value.
#[derive(Clone, Copy)]
struct WithValue(Token);

impl<'a> OfKind<WithValue> for ServiceParm<'a> {
    ghost use Rattle.gw_desc.specs.OfKind.{is_with_value};

    ghost is_of = { is_with_value };

    fn is_of(&self, kind: WithValue) -> bool {
        is_parm(kind.0, self) && self.value.is_some()
    }
}

/// A Services with a Method and a Reason that have values.
#[derive(Clone, Copy)]
struct Change;

impl<'a> OfKind<Change> for Descriptor<'a> {
    ghost use Rattle.gw_desc.specs.Checks.{is_change};

    ghost is_of = { λ _. is_change };

    fn is_of(&self, _kind: Change) -> bool {
        match self {
            Descriptor::Services(parms) => {
                has_one(parms.as_slice(), WithValue(Token::Method))
                    && has_one(parms.as_slice(), WithValue(Token::Reason))
            }
            _ => false,
        }
    }
}

/// Whether the command lacks what it must have.
fn lacks(verb: Verb, descriptors: &[Descriptor<'_>]) -> bool
    ensures { result ≡ lacks verb descriptors.now }
{
    match verb {
        Verb::AuditValue => !has_one(descriptors, Kind::Audit),
        Verb::ServiceChange => !has_one(descriptors, Change),
        _ => false,
    }
}

/// Whether there are values or parts that do not fit, or the command lacks what it must have.
#[tactic(auto, unfolding(crate::specs::Checks::has_bad))]
pub(crate) fn has_bad(verb: Verb, descriptors: &[Descriptor<'_>]) -> bool
    ensures { result ≡ has_bad verb descriptors.now }
{
    has_one(descriptors, Unfit) || lacks(verb, descriptors)
}

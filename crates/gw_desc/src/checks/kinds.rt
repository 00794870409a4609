//! Which descriptor is of which kind, and which a command may have.

ghost use Rattle.std.specs.Prelude.{◌≡◌};
ghost use Rattle.gw_desc.specs.Checks.{has_illegal, has_unknown, is_legal, same_kept};

use super::counts::{OfKind, has_one};
use super::twice::Kind;
use crate::descriptor::{Descriptor, KeptKind};
use crate::values::item_of;
use gw_base::{Span, Verb};

/// Whether they are one kind.
pub fn same_kept(a: KeptKind, b: KeptKind) -> bool
    ensures { result ≡ same_kept a b }
{
    matches!(
        (a, b),
        (KeptKind::Events, KeptKind::Events)
            | (KeptKind::Signals, KeptKind::Signals)
            | (KeptKind::DigitMap, KeptKind::DigitMap)
            | (KeptKind::EventBuffer, KeptKind::EventBuffer)
    )
}

/// Whether the command may have it, if it is one of the seven kinds.
fn is_legal(verb: Verb, descriptor: &Descriptor<'_>) -> bool
    ensures { result ≡ is_legal verb descriptor.now }
{
    match verb {
        Verb::Add | Verb::Modify | Verb::Move => !descriptor.is_of(Kind::Services),
        Verb::Subtract | Verb::AuditValue => descriptor.is_of(Kind::Audit),
        Verb::ServiceChange => descriptor.is_of(Kind::Services),
        Verb::AuditCapability | Verb::Notify => false,
    }
}

/// One of the seven kinds that the command of this verb may not have.
#[derive(Clone, Copy)]
struct IllegalFor(Verb);

impl<'a> OfKind<IllegalFor> for Descriptor<'a> {
    ghost use Rattle.gw_desc.specs.OfKind.{is_illegal_for};

    ghost is_of = { is_illegal_for };

    fn is_of(&self, kind: IllegalFor) -> bool {
        match self {
            Descriptor::Other(_) => false,
            _ => !is_legal(kind.0, self),
        }
    }
}

/// Whether there is one of the seven kinds that the command may not have.
#[tactic(auto, unfolding(crate::specs::Checks::has_illegal))]
pub(crate) fn has_illegal(verb: Verb, descriptors: &[Descriptor<'_>]) -> bool
    ensures { result ≡ has_illegal verb descriptors.now }
{
    has_one(descriptors, IllegalFor(verb))
}

/// What this profile does not know.
#[derive(Clone, Copy)]
struct Unknown;

/// A word that requests nothing that an Audit may request.
impl<'a> OfKind<Unknown> for Span<'a> {
    ghost use Rattle.gw_desc.specs.Checks.{is_no_item};

    ghost is_of = { λ _. is_no_item };

    fn is_of(&self, _kind: Unknown) -> bool {
        item_of(self.as_bytes()).is_none()
    }
}

/// Another descriptor, or an Audit with another item.
impl<'a> OfKind<Unknown> for Descriptor<'a> {
    ghost use Rattle.gw_desc.specs.Checks.{is_unknown};

    ghost is_of = { λ _. is_unknown };

    fn is_of(&self, kind: Unknown) -> bool {
        match self {
            Descriptor::Other(_) => true,
            Descriptor::Audit(words) => has_one(words.as_slice(), kind),
            _ => false,
        }
    }
}

/// Whether there is such a one.
#[tactic(auto, unfolding(crate::specs::Checks::has_unknown))]
pub(crate) fn has_unknown(descriptors: &[Descriptor<'_>]) -> bool
    ensures { result ≡ has_unknown descriptors.now }
{
    has_one(descriptors, Unknown)
}

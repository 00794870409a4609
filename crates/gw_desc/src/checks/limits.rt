//! What is past a limit: numbers of streams and lengths of texts.

ghost use Rattle.std.specs.Prelude.{◌≡◌};
ghost use Rattle.gw_desc.specs.Checks.{has_past, is_tail_long, is_stream_number, length_if};

use super::counts::{OfKind, has_one};
use crate::descriptor::{Descriptor, MediaPart, StreamPart, Tail};
use gw_base::Span;

/// The most bytes of a Local, of a Remote, or of a tail's word and group.
pub(crate) const LONGEST_KEPT: usize = 8192;

/// How many bytes it has, if it is there.
fn length_if(text: &Option<Span<'_>>) -> usize
    ensures { result ≡ length_if text.now }
{
    match text {
        Some(text) => text.as_bytes().len(),
        None => 0,
    }
}

pub(crate) fn is_tail_long(tail: &Tail<Span<'_>>) -> bool
    ensures { result ≡ is_tail_long tail.now }
{
    let word = length_if(&tail.word);
    word > LONGEST_KEPT || length_if(&tail.group) > LONGEST_KEPT - word
}

pub(crate) fn is_stream_number(number: u16) -> bool
    ensures { result ≡ is_stream_number number }
{
    1 <= number && number <= 4
}

/// What has a number or a length past its limit.
#[derive(Clone, Copy)]
struct PastLimit;

impl<'a> OfKind<PastLimit> for StreamPart<'a> {
    ghost use Rattle.gw_desc.specs.Checks.{is_part_long};

    ghost is_of = { λ _. is_part_long };

    fn is_of(&self, _kind: PastLimit) -> bool {
        match self {
            StreamPart::Local(text) | StreamPart::Remote(text) => {
                text.as_bytes().len() > LONGEST_KEPT
            }
            StreamPart::LocalControl(_) => false,
        }
    }
}

impl<'a> OfKind<PastLimit> for MediaPart<'a> {
    ghost use Rattle.gw_desc.specs.Checks.{is_part_past};

    ghost is_of = { λ _. is_part_past };

    fn is_of(&self, kind: PastLimit) -> bool {
        match self {
            MediaPart::Outside(part) => part.is_of(kind),
            MediaPart::Stream(number, parts) => {
                !is_stream_number(*number) || has_one(parts.as_slice(), kind)
            }
            MediaPart::TerminationState(_) => false,
        }
    }
}

impl<'a> OfKind<PastLimit> for Descriptor<'a> {
    ghost use Rattle.gw_desc.specs.Checks.{is_past};

    ghost is_of = { λ _. is_past };

    fn is_of(&self, kind: PastLimit) -> bool {
        match self {
            Descriptor::Media(parts) => has_one(parts.as_slice(), kind),
            Descriptor::Keep(_, tail) => is_tail_long(tail),
            _ => false,
        }
    }
}

/// Whether there is a number or a length past its limit.
#[tactic(auto, unfolding(crate::specs::Checks::has_past))]
pub(crate) fn has_past(descriptors: &[Descriptor<'_>]) -> bool
    ensures { result ≡ has_past descriptors.now }
{
    has_one(descriptors, PastLimit)
}

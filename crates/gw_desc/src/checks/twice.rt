//! Two of a kind: descriptors of a command, and what stands once in a Media.

ghost use Rattle.std.specs.Prelude.{◌≡◌, ◌≤◌, ◌<◌, ◌^◌, ◌%◌, ◌==◌, length, min, option_to_list};
ghost use Rattle.std.specs.List.{count_by, list_any};
ghost use Rattle.gw_desc.specs.Checks.{has_twice, has_kind_twice, has_part_twice, is_media_twice, numbers_in, number_in, first_stream, first_in};
ghost use Rattle.gw_desc.specs.Twice.{has_number_twice};
ghost use Rattle.gw_desc.specs.OfKind.{is_part_of};
ghost use Rattle.gw_desc.specs.NumberSet.{is_in_set, with_mark};

use super::counts::{OfKind, has_one, has_two, up_to_two};
use super::kinds::same_kept;
use crate::descriptor::{Descriptor, KeptKind, MediaPart, StreamPart};

/// The numbers of up to so many parts are compared pair by pair.
const FEW: usize = 8;

/// The kinds of descriptors of which a command may have one.
#[derive(Clone, Copy)]
pub(crate) enum Kind {
    Media,
    Kept(KeptKind),
    Audit,
    Services,
}

impl<'a> OfKind<Kind> for Descriptor<'a> {
    ghost use Rattle.gw_desc.specs.OfKind.{is_of_kind};

    ghost is_of = { is_of_kind };

    fn is_of(&self, kind: Kind) -> bool {
        match kind {
            Kind::Media => matches!(self, Descriptor::Media(_)),
            Kind::Kept(wanted) => match self {
                Descriptor::Keep(found, _) => same_kept(wanted, *found),
                _ => false,
            },
            Kind::Audit => matches!(self, Descriptor::Audit(_)),
            Kind::Services => matches!(self, Descriptor::Services(_)),
        }
    }
}

/// The parts of which a stream may have one.
#[derive(Clone, Copy)]
pub(crate) enum PartKind {
    Local,
    Remote,
    Control,
}

impl<'a> OfKind<PartKind> for StreamPart<'a> {
    ghost use Rattle.gw_desc.specs.OfKind.{is_part_of};

    ghost is_of = { is_part_of };

    fn is_of(&self, kind: PartKind) -> bool {
        match kind {
            PartKind::Local => matches!(self, StreamPart::Local(_)),
            PartKind::Remote => matches!(self, StreamPart::Remote(_)),
            PartKind::Control => matches!(self, StreamPart::LocalControl(_)),
        }
    }
}

/// TerminationState, of which a Media may have one.
#[derive(Clone, Copy)]
pub(crate) struct StateKind;

impl<'a> OfKind<StateKind> for MediaPart<'a> {
    ghost use Rattle.gw_desc.specs.OfKind.{is_state_of};

    ghost is_of = { is_state_of };

    fn is_of(&self, _kind: StateKind) -> bool {
        matches!(self, MediaPart::TerminationState(_))
    }
}

/// Whether two descriptors are of one of the seven kinds.
#[tactic(auto, unfolding(crate::specs::Checks::has_kind_twice))]
fn has_kind_twice(descriptors: &[Descriptor<'_>]) -> bool
    ensures { result ≡ has_kind_twice descriptors.now }
{
    has_two(descriptors, Kind::Media)
        || has_two(descriptors, Kind::Kept(KeptKind::Events))
        || has_two(descriptors, Kind::Kept(KeptKind::Signals))
        || has_two(descriptors, Kind::Kept(KeptKind::DigitMap))
        || has_two(descriptors, Kind::Kept(KeptKind::EventBuffer))
        || has_two(descriptors, Kind::Audit)
        || has_two(descriptors, Kind::Services)
}

/// Whether two Locals, Remotes or LocalControls are among the parts of one stream.
#[tactic(auto, unfolding(crate::specs::Checks::has_part_twice))]
fn has_part_twice(parts: &[StreamPart<'_>]) -> bool
    ensures { result ≡ has_part_twice parts.now }
{
    has_two(parts, PartKind::Local)
        || has_two(parts, PartKind::Remote)
        || has_two(parts, PartKind::Control)
}

/// How many parts of this kind it has for stream 1: none, one, or two and more.
fn up_to_two_in(part: &MediaPart<'_>, kind: PartKind) -> u8
    ensures { result ≡ min 2 (count_by (is_part_of kind) (first_in part.now)) }
{
    match part {
        MediaPart::Outside(p) => u8::from(p.is_of(kind)),
        MediaPart::Stream(1, parts) => up_to_two(parts.as_slice(), kind),
        _ => 0,
    }
}

/// How many parts of this kind stream 1 has: none, one, or two and more.
fn up_to_two_first(parts: &[MediaPart<'_>], kind: PartKind) -> u8
    ensures { result ≡ min 2 (count_by (is_part_of kind) (first_stream parts.now)) }
{
    let mut count = 0;
    for part in parts {
        count += up_to_two_in(part, kind);
        if count >= 2 {
            return 2;
        }
    }
    count
}

/// Whether two Locals, Remotes or LocalControls are among the parts of stream 1.
#[tactic(auto, unfolding(crate::specs::Checks::has_part_twice))]
fn has_first_twice(parts: &[MediaPart<'_>]) -> bool
    ensures { result ≡ has_part_twice (first_stream parts.now) }
{
    up_to_two_first(parts, PartKind::Local) == 2
        || up_to_two_first(parts, PartKind::Remote) == 2
        || up_to_two_first(parts, PartKind::Control) == 2
}

/// Sets the bit of the number; whether it was set.
#[tactic(auto, unfolding(crate::specs::NumberSet::is_in_set, crate::specs::NumberSet::with_mark))]
fn mark(seen: &mut [u64], number: u16) -> bool
    requires { length seen.old ≡ 1024 }
    ensures was_set { result ≡ is_in_set seen.old number }
    ensures after { seen.new ≡ with_mark seen.old number }
    ensures small { number < 2 ^ 16 }
{
    let bit = 1 << (number % 64);
    let word = &mut seen[(number / 64) as usize];
    let was_set = *word & bit != 0;
    *word |= bit;
    was_set
}

/// The number of a Stream.
fn number_of(part: &MediaPart<'_>) -> Option<u16>
    ensures { option_to_list result ≡ number_in part.now }
{
    match part {
        MediaPart::Stream(number, _) => Some(*number),
        _ => None,
    }
}

/// Whether a Stream of this number is among the parts.
fn has_number(number: u16, parts: &[MediaPart<'_>]) -> bool
    ensures { result ≡ list_any (λ other. number == other) (numbers_in parts.now) }
{
    for part in parts {
        if number_of(part) == Some(number) {
            return true;
        }
    }
    false
}

/// Whether the part is a Stream whose number one of those behind it has.
fn has_number_of(part: &MediaPart<'_>, behind: &[MediaPart<'_>]) -> bool
    ensures { result ≡ list_any (λ number. list_any (λ other. number == other) (numbers_in behind.now)) (number_in part.now) }
{
    match part {
        MediaPart::Stream(number, _) => has_number(*number, behind),
        _ => false,
    }
}

/// Whether two Streams have one number, by comparing each pair.
#[tactic(auto, unfolding(crate::specs::Twice::has_number_twice))]
fn is_number_twice_by_pairs(parts: &[MediaPart<'_>]) -> bool
    ensures { result ≡ has_number_twice (numbers_in parts.now) }
{
    for (i, part) in parts.iter().enumerate() {
        if has_number_of(part, &parts[i + 1..]) {
            return true;
        }
    }
    false
}

/// Whether two Streams have one number, by a bit for each. Not inlined, since the bits are 8,192 bytes, which are
/// cleared where the function begins.
#[inline(never)]
#[tactic(auto, using(crate::proofs::Marking::past_parts), unfolding(crate::specs::Twice::has_number_twice))]
fn is_number_twice_by_bits(parts: &[MediaPart<'_>]) -> bool
    ensures { result ≡ has_number_twice (numbers_in parts.now) }
{
    let mut seen = [0u64; 1024];
    for part in parts {
        if let Some(number) = number_of(part) {
            if mark(&mut seen, number) {
                return true;
            }
        }
    }
    false
}

/// Whether two Streams have one number.
fn has_number_twice(parts: &[MediaPart<'_>]) -> bool
    ensures { result ≡ has_number_twice (numbers_in parts.now) }
{
    if parts.len() <= FEW {
        is_number_twice_by_pairs(parts)
    } else {
        is_number_twice_by_bits(parts)
    }
}

/// What has parts twice that stand there once.
#[derive(Clone, Copy)]
struct Crowded;

/// A Stream that has such parts.
impl<'a> OfKind<Crowded> for MediaPart<'a> {
    ghost use Rattle.gw_desc.specs.Checks.{is_stream_twice};

    ghost is_of = { λ _. is_stream_twice };

    fn is_of(&self, _kind: Crowded) -> bool {
        match self {
            MediaPart::Stream(_, parts) => has_part_twice(parts.as_slice()),
            _ => false,
        }
    }
}

/// Whether something stands twice in a Media. Where it has one part, that stream has all of its own.
#[tactic(auto, using(crate::proofs::Few::none_of_one_part), unfolding(crate::specs::Checks::is_media_twice))]
fn is_media_twice(parts: &[MediaPart<'_>]) -> bool
    ensures { result ≡ is_media_twice parts.now }
{
    if parts.len() < 2 {
        return has_one(parts, Crowded);
    }
    has_two(parts, StateKind)
        || has_number_twice(parts)
        || has_one(parts, Crowded)
        || has_first_twice(parts)
}

/// A Media in which something stands twice.
impl<'a> OfKind<Crowded> for Descriptor<'a> {
    ghost use Rattle.gw_desc.specs.Checks.{is_twice};

    ghost is_of = { λ _. is_twice };

    fn is_of(&self, _kind: Crowded) -> bool {
        match self {
            Descriptor::Media(parts) => is_media_twice(parts.as_slice()),
            _ => false,
        }
    }
}

/// Whether there are two of a kind.
#[tactic(auto, unfolding(crate::specs::Checks::has_twice))]
pub(crate) fn has_twice(descriptors: &[Descriptor<'_>]) -> bool
    ensures { result ≡ has_twice descriptors.now }
{
    has_kind_twice(descriptors) || has_one(descriptors, Crowded)
}

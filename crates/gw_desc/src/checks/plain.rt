//! The descriptors that most commands have, which one look finds right.

ghost use Rattle.std.specs.Prelude.{◌≡◌, ◌∷◌, [], None, true};
ghost use Rattle.std.specs.Bool.{OnTrue};
ghost use Rattle.gw_desc.specs.declared.descriptor.StreamPart.TheVariants as part;
ghost use Rattle.gw_desc.specs.Checks.{check_code};
ghost use Rattle.gw_desc.specs.Plain.{is_same_part, is_usual, HasPlainMedia, HasShortTail, IsPlainMedia, IsPlainPart, IsPlainStream};

use super::limits::{LONGEST_KEPT, is_stream_number, is_tail_long};
use crate::descriptor::{Descriptor, MediaPart, Property, StreamPart};
use crate::values::{is_mode, mode_set_by};
use gw_base::{Span, Verb};

/// Whether nothing is wrong in the property, as the one of a LocalControl.
#[tactic(auto, using(crate::proofs::PlainLaws::plain_property))]
fn is_only_property_plain(property: &Property<Span<'_>>) -> bool
    ensures { OnTrue result (IsPlainPart (part.LocalControl (property.now ∷ []))) }
{
    !is_mode(property.name.as_bytes()) || mode_set_by(property).is_some()
}

/// Whether nothing is wrong in a LocalControl of one property.
fn is_control_plain(properties: &[Property<Span<'_>>]) -> bool
    ensures { OnTrue result (IsPlainPart (part.LocalControl properties.now)) }
{
    match properties {
        [property] => is_only_property_plain(property),
        _ => false,
    }
}

/// Whether nothing is wrong in the part itself: a LocalControl of one property, or a text that is not too long.
fn is_part_plain(part: &StreamPart<'_>) -> bool
    ensures { OnTrue result (IsPlainPart part.now) }
{
    match part {
        StreamPart::Local(text) | StreamPart::Remote(text) => text.as_bytes().len() <= LONGEST_KEPT,
        StreamPart::LocalControl(properties) => is_control_plain(properties.as_slice()),
    }
}

/// Whether they are of one kind.
fn is_same_part(a: &StreamPart<'_>, b: &StreamPart<'_>) -> bool
    ensures { result ≡ is_same_part a.now b.now }
{
    matches!(
        (a, b),
        (StreamPart::Local(_), StreamPart::Local(_))
            | (StreamPart::Remote(_), StreamPart::Remote(_))
            | (StreamPart::LocalControl(_), StreamPart::LocalControl(_))
    )
}

/// Whether nothing is wrong in a stream of this part.
#[tactic(auto, using(crate::proofs::PlainLaws::plain_stream_of_one))]
fn is_plain_alone(part: &StreamPart<'_>) -> bool
    ensures { OnTrue result (IsPlainStream (part.now ∷ [])) }
{
    is_part_plain(part)
}

/// Whether nothing is wrong in a stream of these two parts.
#[tactic(auto, using(crate::proofs::PlainLaws::plain_stream_of_two))]
fn is_plain_pair(a: &StreamPart<'_>, b: &StreamPart<'_>) -> bool
    ensures { OnTrue result (IsPlainStream (a.now ∷ b.now ∷ [])) }
{
    is_part_plain(a) && is_part_plain(b) && !is_same_part(a, b)
}

/// Whether nothing is wrong in a stream of one part or two.
fn is_stream_plain(parts: &[StreamPart<'_>]) -> bool
    ensures { OnTrue result (IsPlainStream parts.now) }
{
    match parts {
        [part] => is_plain_alone(part),
        [a, b] => is_plain_pair(a, b),
        _ => false,
    }
}

/// Whether it is a Stream in which nothing is wrong, as the one part of a Media.
#[tactic(auto, using(crate::proofs::PlainLaws::plain_media))]
fn is_only_part_plain(part: &MediaPart<'_>) -> bool
    ensures { OnTrue result (IsPlainMedia (part.now ∷ [])) }
{
    match part {
        MediaPart::Stream(number, parts) => {
            is_stream_number(*number) && is_stream_plain(parts.as_slice())
        }
        _ => false,
    }
}

/// Whether nothing is wrong in a Media of one Stream.
fn is_media_plain(parts: &[MediaPart<'_>]) -> bool
    ensures { OnTrue result (IsPlainMedia parts.now) }
{
    match parts {
        [part] => is_only_part_plain(part),
        _ => false,
    }
}

/// Whether it is a Media in which nothing is wrong.
fn has_plain_media(descriptor: &Descriptor<'_>) -> bool
    ensures { OnTrue result (HasPlainMedia descriptor.now) }
{
    match descriptor {
        Descriptor::Media(parts) => is_media_plain(parts.as_slice()),
        _ => false,
    }
}

/// Whether it is one that is kept as sent, and not too long.
fn has_short_tail(descriptor: &Descriptor<'_>) -> bool
    ensures { OnTrue result (HasShortTail descriptor.now) }
{
    match descriptor {
        Descriptor::Keep(_, tail) => !is_tail_long(tail),
        _ => false,
    }
}

/// Whether nothing is wrong in a Media, as the one descriptor of a command.
#[tactic(auto, using(crate::proofs::PlainLaws::plain_of_one))]
fn is_only_plain(verb: Verb, descriptor: &Descriptor<'_>) -> bool
    requires { is_usual verb ≡ true }
    ensures { OnTrue result (check_code verb (descriptor.now ∷ []) ≡ None) }
{
    has_plain_media(descriptor)
}

/// Whether nothing is wrong in a Media and a descriptor behind it that is kept as sent.
#[tactic(auto, using(crate::proofs::PlainLaws::plain_of_two))]
fn are_both_plain(verb: Verb, first: &Descriptor<'_>, second: &Descriptor<'_>) -> bool
    requires { is_usual verb ≡ true }
    ensures { OnTrue result (check_code verb (first.now ∷ second.now ∷ []) ≡ None) }
{
    has_plain_media(first) && has_short_tail(second)
}

/// Whether the command is an Add, a Modify or a Move with a Media of one Stream, and perhaps one descriptor behind it
/// that is kept as sent, in which nothing is wrong. Most commands are such.
pub(crate) fn is_plain(verb: Verb, descriptors: &[Descriptor<'_>]) -> bool
    ensures { OnTrue result (check_code verb descriptors.now ≡ None) }
{
    if !matches!(verb, Verb::Add | Verb::Modify | Verb::Move) {
        return false;
    }
    match descriptors {
        [only] => is_only_plain(verb, only),
        [first, second] => are_both_plain(verb, first, second),
        _ => false,
    }
}

//! What descriptors send to each list and to each stream, gathered once for all records that they are merged into.

ghost use Rattle.std.specs.Prelude.{◌≡◌, IfOk, OnOk};
ghost use Rattle.gw_term.specs.Gathered.{in_turn, named_with, nothing_sent, with_control, with_media_part, with_part, with_state, with_stream, IsGathered};

use crate::held::HeldProperty;
use crate::places::PerKind;
use gw_base::{Held, Items, Service, Span};
use gw_desc::{
    Descriptor, MediaPart, Mode, Property, StreamPart, Tail, is_mode, is_service_states,
    mode_set_by, service_set_by,
};
use std::alloc::{AllocError, Global};
use std::array;

/// What is sent to a stream: of each kind the last, and the properties in order.
#[derive(Drop)]
pub struct SentStream<'a> {
    /// The mode, if one is sent.
    pub mode: Option<Mode>,
    /// The properties of its LocalControl but Mode. Copies share the block of a long one.
    pub properties: Items<HeldProperty>,
    /// Its Local, if one is sent.
    pub local: Option<Span<'a>>,
    /// Its Remote, if one is sent.
    pub remote: Option<Span<'a>>,
}

/// What the Medias of descriptors send.
#[derive(Drop)]
pub struct SentMedia<'a> {
    /// The service state, if one is sent.
    pub service: Option<Service>,
    /// The properties of TerminationState but ServiceStates.
    pub properties: Items<HeldProperty>,
    /// What is sent to stream 1, if it is named; and so on.
    pub first: Option<Held<SentStream<'a>>>,
    pub second: Option<Held<SentStream<'a>>>,
    pub third: Option<Held<SentStream<'a>>>,
    pub fourth: Option<Held<SentStream<'a>>>,
}

/// What descriptors send.
pub struct Gathered<'a, 'b> {
    /// What their Medias send.
    pub(crate) media: SentMedia<'a>,
    /// The last tail of each kind, if one is sent.
    pub(crate) tails: PerKind<Option<&'b Tail<Span<'a>>>>,
}

// By hand, so that a function that drops it does so by one call.
impl Drop for Gathered<'_, '_> {
    fn drop(self) {
        let Gathered { media: _, tails: _ } = self;
    }
}

impl<'a> SentStream<'a> {
    /// Nothing. It takes no memory.
    pub(crate) fn nothing(alloc: Global) -> SentStream<'a>
        ensures { result ≡ nothing_sent }
    {
        SentStream {
            mode: None,
            properties: Items::new(alloc),
            local: None,
            remote: None,
        }
    }
}

/// The properties of a LocalControl are sent too.
fn add_controls(
    alloc: Global,
    properties: &[Property<Span<'_>>],
    sent: &mut SentStream<'_>,
) -> Result<(), AllocError>
    ensures { OnOk result (sent.new ≡ in_turn with_control properties.now sent.old) }
{
    for property in properties {
        if is_mode(property.name.as_bytes()) {
            sent.mode = mode_set_by(property).or(sent.mode);
        } else {
            sent.properties.push(HeldProperty::of(alloc, property)?)?;
        }
    }
    Ok(())
}

/// The parts of a stream are sent too.
fn add_parts<'a>(
    alloc: Global,
    parts: &[StreamPart<'a>],
    sent: &mut SentStream<'a>,
) -> Result<(), AllocError>
    ensures { OnOk result (sent.new ≡ in_turn with_part parts.now sent.old) }
{
    for part in parts {
        match part {
            StreamPart::Local(text) => sent.local = Some(Span::new(text.as_bytes())),
            StreamPart::Remote(text) => sent.remote = Some(Span::new(text.as_bytes())),
            StreamPart::LocalControl(list) => add_controls(alloc, list.as_slice(), sent)?,
        }
    }
    Ok(())
}

/// The stream that has these parts is named too.
fn add_stream<'a>(
    alloc: Global,
    parts: &[StreamPart<'a>],
    stream: &mut Option<Held<SentStream<'a>>>,
) -> Result<(), AllocError>
    ensures { OnOk result (stream.new ≡ named_with parts.now stream.old) }
{
    let mut sent = match stream.take() {
        Some(sent) => sent.into_inner(),
        None => SentStream::nothing(alloc),
    };
    add_parts(alloc, parts, &mut sent)?;
    *stream = Some(Held::new(alloc, sent)?);
    Ok(())
}

impl<'a> SentMedia<'a> {
    /// These parts of the stream of this number are sent too.
    fn add_stream(
        &mut self,
        alloc: Global,
        number: u16,
        parts: &[StreamPart<'a>],
    ) -> Result<(), AllocError>
        ensures { OnOk result (self.new ≡ with_stream number parts.now self.old) }
    {
        match number {
            1 => add_stream(alloc, parts, &mut self.first),
            2 => add_stream(alloc, parts, &mut self.second),
            3 => add_stream(alloc, parts, &mut self.third),
            4 => add_stream(alloc, parts, &mut self.fourth),
            _ => Ok(()),
        }
    }

    /// The properties of a TerminationState are sent too.
    fn add_states(
        &mut self,
        alloc: Global,
        properties: &[Property<Span<'_>>],
    ) -> Result<(), AllocError>
        ensures { OnOk result (self.new ≡ in_turn with_state properties.now self.old) }
    {
        for property in properties {
            if is_service_states(property.name.as_bytes()) {
                self.service = service_set_by(property).or(self.service);
            } else {
                self.properties.push(HeldProperty::of(alloc, property)?)?;
            }
        }
        Ok(())
    }

    /// The parts of a Media are sent too. What stands outside a Stream is of stream 1.
    fn add_parts(&mut self, alloc: Global, parts: &[MediaPart<'a>]) -> Result<(), AllocError>
        ensures { OnOk result (self.new ≡ in_turn with_media_part parts.now self.old) }
    {
        for part in parts {
            match part {
                MediaPart::Outside(part) => self.add_stream(alloc, 1, array::from_ref(part))?,
                MediaPart::Stream(number, parts) => {
                    self.add_stream(alloc, *number, parts.as_slice())?
                }
                MediaPart::TerminationState(list) => self.add_states(alloc, list.as_slice())?,
            }
        }
        Ok(())
    }
}

impl<'a, 'b> Gathered<'a, 'b> {
    /// What these descriptors send. The work is linear in them.
    pub(crate) fn by(
        alloc: Global,
        descriptors: &'b [Descriptor<'a>],
    ) -> Result<Gathered<'a, 'b>, AllocError>
        ensures { IfOk result (IsGathered descriptors.now) }
    {
        let mut media = SentMedia {
            service: None,
            properties: Items::new(alloc),
            first: None,
            second: None,
            third: None,
            fourth: None,
        };
        let mut tails = PerKind {
            events: None,
            signals: None,
            digit_map: None,
            event_buffer: None,
        };
        for descriptor in descriptors {
            match descriptor {
                Descriptor::Media(parts) => media.add_parts(alloc, parts.as_slice())?,
                Descriptor::Keep(kind, tail) => tails.put(*kind, Some(tail)),
                Descriptor::Audit(_) | Descriptor::Services(_) | Descriptor::Other(_) => {}
            }
        }
        Ok(Gathered { media, tails })
    }
}

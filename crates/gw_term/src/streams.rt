//! Streams: what becomes of each by what is sent to it.

ghost use Rattle.std.specs.Prelude.{◌≡◌, ◌≤◌, IfOk, false};
ghost use Rattle.std.specs.Option.{option_copied, option_map, unwrap_or};
ghost use Rattle.gw_term.specs.Gathered.{applied, filled_after, local_after, nothing_sent, remote_after, with_merging, with_stream_of, with_streams_of};
ghost use Rattle.gw_term.specs.Merge.{begun};
ghost use Rattle.gw_term.specs.Applies.{Becomes, Yields};
ghost use Rattle.gw_term.specs.Places.{numbers_read};

use crate::apply::Filled;
use crate::fault::ApplyFault;
use crate::gathered::{SentMedia, SentStream};
use crate::places::PerStream;
use crate::properties::merged_properties;
use crate::record::Stream;
use crate::settings::{Setting, SettingList};
use crate::target::Target;
use crate::text::Text;
use gw_base::{Held, Items, NoMemory, Span};
use gw_desc::{Mode, fill_local};
use gw_reply::FilledStream;
use std::alloc::{AllocError, Global};

/// What a merge sets, and the streams whose Local it filled, in rising order.
#[derive(Drop)]
pub struct Outcome {
    /// What is set.
    pub settings: SettingList,
    /// The streams whose Local was filled.
    pub filled: Filled,
}

/// A stream while descriptors are merged into it.
#[derive(Drop)]
pub(crate) struct Merging {
    /// The stream.
    pub stream: Stream,
    /// Whether its Local was filled.
    pub filled: bool,
}

/// The Local after what is sent, filled where the termination has a slot, and whether it was.
fn local_after(
    alloc: Global,
    target: &Target<'_>,
    number: u8,
    sent: &Option<Span<'_>>,
    old: &Text,
) -> Result<(Text, bool), NoMemory>
    requires first { 1 ≤ number }
    requires last { number ≤ 4 }
    ensures local { IfOk result (λ made. made.0 ≡ local_after target.now.rules.now target.now.slot number sent.now old.now) }
    ensures filled { IfOk result (λ made. made.1 ≡ filled_after target.now.slot sent.now false) }
{
    let Some(text) = sent else {
        return Ok((old.copied(alloc)?, false));
    };
    let text = text.as_bytes();
    let made = target.made_local(number);
    match target.slot {
        Some(slot) => {
            let (local, filled) = fill_local(alloc, text, &target.rules.media, slot, number)?;
            Ok((Text::from_vec(local)?.shared_with(alloc, made)?, filled))
        }
        None => Ok((Text::of_or(alloc, text, made)?, false)),
    }
}

/// The Remote after what is sent.
fn remote_after(
    alloc: Global,
    target: &Target<'_>,
    number: u8,
    sent: &Option<Span<'_>>,
    old: &Text,
) -> Result<Text, AllocError>
    ensures { IfOk result (λ remote. remote ≡ remote_after sent.now old.now) }
{
    match sent {
        Some(text) => Text::of_or(alloc, text.as_bytes(), target.made_remote(number)),
        None => old.copied(alloc),
    }
}

/// A stream after what is sent to it.
fn applied(
    alloc: Global,
    target: &Target<'_>,
    number: u8,
    sent: &SentStream<'_>,
    old: &Stream,
) -> Result<Merging, ApplyFault>
    requires first { 1 ≤ number }
    requires last { number ≤ 4 }
    ensures { Yields result (applied target.now.rules.now target.now.slot number sent.now (record { stream = old.now; filled = false })) }
{
    let list = sent.properties.as_slice();
    let properties = merged_properties(alloc, list, old.properties.as_slice())?;
    let (local, filled) = local_after(alloc, target, number, &sent.local, &old.local)?;
    let remote = remote_after(alloc, target, number, &sent.remote, &old.remote)?;
    Ok(Merging {
        stream: Stream {
            mode: sent.mode.unwrap_or(old.mode),
            properties,
            local,
            remote,
        },
        filled,
    })
}

/// The same of one that is there, or of a new one, which is in mode Inactive, and nothing else.
fn applied_or_new(
    alloc: Global,
    target: &Target<'_>,
    number: u8,
    sent: &SentStream<'_>,
    old: Option<&Stream>,
) -> Result<Merging, ApplyFault>
    requires first { 1 ≤ number }
    requires last { number ≤ 4 }
    ensures { Yields result (applied target.now.rules.now target.now.slot number sent.now (begun (option_copied old.entry))) }
{
    match old {
        Some(stream) => applied(alloc, target, number, sent, stream),
        None => {
            let new = Stream {
                mode: Mode::Inactive,
                properties: Items::new(alloc),
                local: Text::none(),
                remote: Text::none(),
            };
            applied(alloc, target, number, sent, &new)
        }
    }
}

/// The stream of this number, which is named or there, is set after what is sent to it, and its Local goes last where
/// it was filled. Not inlined, since most streams are neither.
#[inline(never)]
fn merge_there(
    alloc: Global,
    target: &Target<'_>,
    number: u8,
    sent: &Option<Held<SentStream<'_>>>,
    old: Option<&Stream>,
    outcome: &mut Outcome,
) -> Result<(), ApplyFault>
    requires first { 1 ≤ number }
    requires last { number ≤ 4 }
    ensures { Becomes result outcome.new (option_map (λ m. with_merging number m outcome.old) (applied target.now.rules.now target.now.slot number (unwrap_or sent.now nothing_sent) (begun (option_copied old.entry)))) }
{
    let Merging { stream, filled } = match sent {
        Some(sent) => applied_or_new(alloc, target, number, sent.get(), old)?,
        None => applied_or_new(alloc, target, number, &SentStream::nothing(alloc), old)?,
    };
    if filled {
        if let Some(local) = stream.local.to_reply(alloc)? {
            outcome.filled.push(FilledStream { number, local })?;
        }
    }
    outcome.settings.push(Setting::Stream(number, stream))?;
    Ok(())
}

/// The same, where one that is neither named nor there stays so.
#[inline(always)]
fn merge_stream(
    alloc: Global,
    target: &Target<'_>,
    number: u8,
    sent: &Option<Held<SentStream<'_>>>,
    old: Option<&Stream>,
    outcome: &mut Outcome,
) -> Result<(), ApplyFault>
    requires first { 1 ≤ number }
    requires last { number ≤ 4 }
    ensures { Becomes result outcome.new (with_stream_of target.now.rules.now target.now.slot number sent.now (option_copied old.entry) outcome.old) }
{
    match (sent, old) {
        (Some(_), _) => merge_there(alloc, target, number, sent, old, outcome),
        (None, Some(_)) => merge_there(alloc, target, number, sent, old, outcome),
        (None, None) => Ok(()),
    }
}

/// The streams after what is sent to them are set.
pub(crate) fn merge_streams(
    alloc: Global,
    target: &Target<'_>,
    sent: &SentMedia<'_>,
    old: &PerStream<Option<&Stream>>,
    outcome: &mut Outcome,
) -> Result<(), ApplyFault>
    ensures { Becomes result outcome.new (with_streams_of target.now.rules.now target.now.slot sent.now (numbers_read old.now) outcome.old) }
{
    merge_stream(alloc, target, 1, &sent.first, old.first, outcome)?;
    merge_stream(alloc, target, 2, &sent.second, old.second, outcome)?;
    merge_stream(alloc, target, 3, &sent.third, old.third, outcome)?;
    merge_stream(alloc, target, 4, &sent.fourth, old.fourth, outcome)
}

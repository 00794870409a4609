//! Tails: what is kept of Events, Signals, DigitMap and EventBuffer.

ghost use Rattle.std.specs.Prelude.{◌≡◌, bytes_eq, codes, IfOk, OnOk, None};
ghost use Rattle.gw_text.specs.SpaceScan.{skip};
ghost use Rattle.std.specs.Option.{option_copied};
ghost use Rattle.gw_term.specs.Gathered.{tail_of_sent, tails_after};
ghost use Rattle.gw_term.specs.Places.{at_kind, kinds_read, of_kinds, put_kind};
ghost use Rattle.gw_term.specs.Merge.{is_blank_group, kept_tail};

use crate::held::HeldTail;
use crate::places::PerKind;
use crate::settings::{Setting, SettingList, Settings};
use gw_base::Span;
use gw_desc::{KeptKind, Tail};
use gw_text::Cursor;
use std::alloc::{AllocError, Global};

/// Whether what stands behind a group's first brace is white space and the brace that closes it.
fn is_closed(inside: &[u8]) -> bool
    ensures { result ≡ bytes_eq (skip inside.now) (codes "}") }
{
    let mut cursor = Cursor::new(inside);
    cursor.lwsp();
    cursor.byte(b'}') && cursor.is_empty()
}

/// Whether there is no group, or nothing but white space between its braces.
fn is_blank_group(group: &Option<Span<'_>>) -> bool
    ensures { result ≡ is_blank_group group.now }
{
    match group {
        Some(group) => match group.as_bytes() {
            [_, inside @ ..] => is_closed(inside),
            [] => false,
        },
        None => true,
    }
}

/// What is kept of a tail: nothing of one without `=` that has no group, or a blank one. Long texts are shared with
/// what was made of it before.
fn kept_tail(
    alloc: Global,
    tail: &Tail<Span<'_>>,
    made: Option<&HeldTail>,
) -> Result<Option<HeldTail>, AllocError>
    ensures { IfOk result (λ kept. kept ≡ kept_tail tail.now) }
{
    if !tail.equals && is_blank_group(&tail.group) {
        return Ok(None);
    }
    Ok(Some(HeldTail::of(alloc, tail, made)?))
}

/// The tail of this kind after what is sent is set, if there is one then. Not inlined, since most tails are neither
/// sent nor there.
#[inline(never)]
fn merge_there(
    alloc: Global,
    made: &Settings,
    kind: KeptKind,
    sent: Option<&Tail<Span<'_>>>,
    old: Option<&HeldTail>,
    new: &mut SettingList,
) -> Result<(), AllocError>
    requires { at_kind kind new.old.tails ≡ None }
    ensures { OnOk result (new.new ≡ record new.old { tails = put_kind kind (tail_of_sent (option_copied sent.entry) (option_copied old.entry)) new.old.tails }) }
{
    let tail = match (sent, old) {
        (Some(sent), _) => kept_tail(alloc, sent, made.by_place().tails.at(kind))?,
        (None, Some(old)) => Some(old.copied(alloc)?),
        (None, None) => None,
    };
    if let Some(tail) = tail {
        new.push(Setting::Tail(kind, tail))?;
    }
    Ok(())
}

/// The same, where one that is neither sent nor there takes no call.
#[inline]
fn merge_tail(
    alloc: Global,
    made: &Settings,
    kind: KeptKind,
    sent: Option<&Tail<Span<'_>>>,
    old: Option<&HeldTail>,
    new: &mut SettingList,
) -> Result<(), AllocError>
    requires { at_kind kind new.old.tails ≡ None }
    ensures { OnOk result (new.new ≡ record new.old { tails = put_kind kind (tail_of_sent (option_copied sent.entry) (option_copied old.entry)) new.old.tails }) }
{
    if sent.is_none() && old.is_none() {
        return Ok(());
    }
    merge_there(alloc, made, kind, sent, old, new)
}

/// The tails after what is sent are set, where none are. They share long texts with what was made before.
pub(crate) fn merge_tails(
    alloc: Global,
    made: &Settings,
    sent: &PerKind<Option<&Tail<Span<'_>>>>,
    old: &PerKind<Option<&HeldTail>>,
    new: &mut SettingList,
) -> Result<(), AllocError>
    requires { new.old.tails ≡ of_kinds (λ _. None) }
    ensures { OnOk result (new.new ≡ record new.old { tails = tails_after (kinds_read sent.now) (kinds_read old.now) }) }
{
    let kind = KeptKind::Events;
    merge_tail(alloc, made, kind, sent.events, old.events, new)?;
    let kind = KeptKind::Signals;
    merge_tail(alloc, made, kind, sent.signals, old.signals, new)?;
    let kind = KeptKind::DigitMap;
    merge_tail(alloc, made, kind, sent.digit_map, old.digit_map, new)?;
    let kind = KeptKind::EventBuffer;
    merge_tail(alloc, made, kind, sent.event_buffer, old.event_buffer, new)
}

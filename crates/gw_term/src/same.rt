//! Whether the same was set of two terminations.

ghost use Rattle.std.specs.Prelude.{◌≡◌, true};

use crate::held::HeldProperty;
use crate::record::Stream;
use crate::settings::{Setting, Settings};
use gw_desc::{Mode, same_kept};

fn is_same_mode(a: Mode, b: Mode) -> bool
    ensures { result ≡ true → a ≡ b }
{
    matches!(
        (a, b),
        (Mode::SendOnly, Mode::SendOnly)
            | (Mode::ReceiveOnly, Mode::ReceiveOnly)
            | (Mode::SendReceive, Mode::SendReceive)
            | (Mode::Inactive, Mode::Inactive)
            | (Mode::Loopback, Mode::Loopback)
    )
}

/// Whether they are the same properties in the same order.
fn are_same_properties(properties: &[HeldProperty], others: &[HeldProperty]) -> bool
    ensures { result ≡ true → properties.now ≡ others.now }
{
    if properties.len() != others.len() {
        return false;
    }
    let mut left = others;
    for property in properties {
        let Some((other, rest)) = left.split_first() else {
            return false;
        };
        if !property.is_same(other) {
            return false;
        }
        left = rest;
    }
    true
}

/// Whether it is the other stream.
fn is_same_stream(stream: &Stream, other: &Stream) -> bool
    ensures { result ≡ true → stream.now ≡ other.now }
{
    is_same_mode(stream.mode, other.mode)
        && are_same_properties(stream.properties.as_slice(), other.properties.as_slice())
        && stream.local.is_same(&other.local)
        && stream.remote.is_same(&other.remote)
}

/// Whether it is the other setting.
fn is_same_setting(setting: &Setting, other: &Setting) -> bool
    ensures { result ≡ true → setting.now ≡ other.now }
{
    match (setting, other) {
        (Setting::Properties(list), Setting::Properties(others)) => {
            are_same_properties(list.as_slice(), others.as_slice())
        }
        (Setting::Stream(number, stream), Setting::Stream(other_number, other)) => {
            *number == *other_number && is_same_stream(stream, other)
        }
        (Setting::Tail(kind, tail), Setting::Tail(other_kind, other)) => {
            same_kept(*kind, *other_kind) && tail.is_same(other)
        }
        _ => false,
    }
}

/// Whether they are the same settings in the same order.
fn are_same_settings(settings: &[Setting], others: &[Setting]) -> bool
    ensures { result ≡ true → settings.now ≡ others.now }
{
    if settings.len() != others.len() {
        return false;
    }
    let mut left = others;
    for setting in settings {
        let Some((other, rest)) = left.split_first() else {
            return false;
        };
        if !is_same_setting(setting, other) {
            return false;
        }
        left = rest;
    }
    true
}

impl Settings {
    /// Whether the same was set in the same order. The work is a comparison up to the first difference.
    pub(crate) fn is_same(&self, other: &Settings) -> bool
        ensures { result ≡ true → self.now ≡ other.now }
    {
        are_same_settings(self.list(), other.list())
    }
}

//! What was set of a termination: its properties, its streams and its tails, in a short list that copies share.

ghost use Rattle.std.specs.Prelude.{◌≡◌, IfOk, OnOk};
ghost use Rattle.gw_term.specs.Places.{numbers_read, kinds_read};
ghost use Rattle.gw_term.specs.Settings.{nothing_set, set_by, with_setting};

use crate::held::{HeldProperty, HeldTail};
use crate::places::{PerKind, PerStream};
use crate::record::Stream;
use gw_base::{Items, Short};
use gw_desc::KeptKind;
use std::alloc::{AllocError, Global};
use std::marker::Model;
use std::sync::Arc;

/// What may be set of a termination.
pub enum Setting {
    /// The properties of its TerminationState but ServiceStates: at most 32.
    Properties(Items<HeldProperty>),
    /// The stream of this number.
    Stream(u8, Stream),
    /// What it keeps of a kind of tails.
    Tail(KeptKind, HeldTail),
}

// By hand, as that of a stream.
impl Drop for Setting {
    fn drop(self) {
        match self {
            Setting::Properties(_) => {}
            Setting::Stream(_, _) => {}
            Setting::Tail(_, _) => {}
        }
    }
}

// What a list of settings has in the room of one that did not come yet.
impl Default for Setting {
    fn default() -> Setting {
        Setting::Tail(KeptKind::Events, HeldTail::nothing())
    }
}

/// Settings in a list: each thing once, and one alone without a block of its own. Contracts see the properties, four
/// streams and four tails, there or not.
#[derive(Drop)]
pub struct SettingList {
    list: Short<Setting, 1>,
}

impl Model for SettingList {
    ghost use Rattle.gw_term.specs.Settings.{Settings as SettingsOf, set_by};

    ghost Value = { SettingsOf };

    ghost view = { λ s. set_by s.list };
}

/// What was set of a termination (RFC 3525, section 6.2), in one block that copies share and that never changes.
/// Where nothing is set, as of most terminations, there is no block. Contracts see what the list sets.
pub struct Settings {
    block: Option<Arc<SettingList>>,
}

impl Model for Settings {
    ghost use Rattle.std.specs.Arc.{arc_value};
    ghost use Rattle.std.specs.Option.{option_map, unwrap_or};
    ghost use Rattle.gw_term.specs.Settings.{Settings as SettingsOf, nothing_set};

    ghost Value = { SettingsOf };

    ghost view = { λ s. unwrap_or (option_map (λ block. arc_value block) s.block) nothing_set };
}

/// What is set of a termination, by its place.
#[derive(Clone, Copy)]
pub struct ByPlace<'a> {
    /// The properties of its TerminationState but ServiceStates.
    pub properties: &'a [HeldProperty],
    /// The streams that it has.
    pub streams: PerStream<Option<&'a Stream>>,
    /// The tails that it keeps.
    pub tails: PerKind<Option<&'a HeldTail>>,
}

/// The block has an owner less. Not inlined, since most terminations have none.
#[inline(never)]
fn release(block: Arc<SettingList>) {
    drop(block);
}

// By hand, so that dropping settings costs one test where there is no block.
impl Drop for Settings {
    #[inline(always)]
    fn drop(self) {
        let Settings { block } = self;
        if let Some(block) = block {
            release(block);
        }
    }
}

impl Settings {
    /// Nothing set.
    pub(crate) fn none() -> Settings
        ensures { result ≡ nothing_set }
    {
        Settings { block: None }
    }

    /// A copy: the block has an owner more.
    #[inline]
    pub(crate) fn copied(&self) -> Result<Settings, AllocError>
        ensures { IfOk result (λ copy. copy ≡ self.now) }
    {
        match &self.block {
            Some(block) => Ok(Settings {
                block: Some(block.clone()?),
            }),
            None => Ok(Settings::none()),
        }
    }

    /// The settings.
    #[inline]
    pub(crate) fn list(&self) -> &[Setting]
        ensures { set_by result.now ≡ self.now }
    {
        match &self.block {
            Some(block) => block.list.as_slice(),
            None => &[],
        }
    }

    /// What is set, by its place, in one pass.
    #[inline]
    pub(crate) fn by_place(&self) -> ByPlace<'_>
        ensures properties { result.properties.now ≡ self.now.properties }
        ensures streams { numbers_read result.streams ≡ self.now.streams }
        ensures tails { kinds_read result.tails ≡ self.now.tails }
    {
        let mut found = ByPlace {
            properties: &[],
            streams: PerStream {
                first: None,
                second: None,
                third: None,
                fourth: None,
            },
            tails: PerKind {
                events: None,
                signals: None,
                digit_map: None,
                event_buffer: None,
            },
        };
        for setting in self.list() {
            match setting {
                Setting::Properties(list) => found.properties = list.as_slice(),
                Setting::Stream(number, stream) => found.streams.put(*number, Some(stream)),
                Setting::Tail(kind, tail) => found.tails.put(*kind, Some(tail)),
            }
        }
        found
    }
}

impl SettingList {
    /// These properties, if there are any, and nothing else. It takes no memory.
    pub(crate) fn of(
        alloc: Global,
        properties: Items<HeldProperty>,
    ) -> Result<SettingList, AllocError>
        ensures { IfOk result (λ settings. settings ≡ record nothing_set { properties = properties }) }
    {
        let mut settings = SettingList {
            list: Short::new(alloc),
        };
        if !properties.is_empty() {
            settings.push(Setting::Properties(properties))?;
        }
        Ok(settings)
    }

    /// This is set too.
    pub(crate) fn push(&mut self, setting: Setting) -> Result<(), AllocError>
        ensures { OnOk result (self.new ≡ with_setting setting self.old) }
    {
        self.list.push(setting)?;
        Ok(())
    }

    /// The settings, in a block that copies share. Where there are none, there is no block.
    pub(crate) fn into_settings(self, alloc: Global) -> Result<Settings, AllocError>
        ensures { IfOk result (λ settings. settings ≡ self) }
    {
        if self.list.as_slice().is_empty() {
            return Ok(Settings::none());
        }
        Ok(Settings {
            block: Some(Arc::new(alloc, self)?),
        })
    }
}

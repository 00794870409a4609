//! What descriptors are merged under, and what was made of them before.

use crate::settings::Settings;
use crate::text::Text;
use gw_base::Rules;

/// What descriptors are merged under: the gateway's rules, where the termination has this slot.
#[derive(Clone, Copy)]
pub(crate) struct Target<'a> {
    pub rules: &'a Rules,
    pub slot: Option<u16>,
    /// What they made of another record, if they did: long texts are shared with it.
    pub made: &'a Settings,
}

impl<'a> Target<'a> {
    /// The Local that was made of the stream of this number.
    pub fn made_local(&self, number: u8) -> Option<&'a Text> {
        Some(&self.made.by_place().streams.at(number)?.local)
    }

    /// The Remote that was made of the stream of this number.
    pub fn made_remote(&self, number: u8) -> Option<&'a Text> {
        Some(&self.made.by_place().streams.at(number)?.remote)
    }
}

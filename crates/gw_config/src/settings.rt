//! What the lines of a configuration have said so far.

ghost use Rattle.std.specs.Prelude.{◌≡◌, ◌++◌, true, false, MatchBool, OnOk, IfErr, MatchOption, is_some};
ghost use Rattle.std.specs.Option.{option_to_list};
ghost use Rattle.gw_config.specs.ConfigTexts.{term_in};
ghost use Rattle.gw_config.specs.Settings.{is_set, with_item, is_complete, IsAll, IsStep, IsWrong};

use crate::fault::ConfigTextFault;
use crate::item::{Item, item_of};
use gw_base::{Config, Items, MediaAddr, Mid, TermName};
use std::alloc::AllocError;

/// What stands once in a configuration, as far as it has been said.
#[derive(Clone, Copy)]
pub(crate) struct Settings {
    pub(crate) mid: Option<Mid>,
    pub(crate) media: Option<MediaAddr>,
    pub(crate) contexts: Option<u32>,
    pub(crate) slots: Option<u32>,
    pub(crate) members: Option<u32>,
    pub(crate) keep: Option<u32>,
}

/// Nothing has been said.
pub(crate) const NOTHING: Settings = Settings {
    mid: None,
    media: None,
    contexts: None,
    slots: None,
    members: None,
    keep: None,
};

/// The value takes its place, if that is free; whether it was.
fn fill<T: Copy>(place: &mut Option<T>, value: T) -> bool
    ensures { MatchBool result ((is_some place.old ≡ false) × (place.new ≡ Some value)) (is_some place.old ≡ true) }
{
    if place.is_some() {
        return false;
    }
    *place = Some(value);
    true
}

/// The name that the item says, if it says one, goes last.
fn push_name(terms: &mut Items<TermName>, item: Item) -> Result<(), AllocError>
    ensures { OnOk result (terms.new ≡ terms.old ++ option_to_list (term_in item)) }
{
    match item {
        Item::Term(name) => terms.push(name),
        _ => Ok(()),
    }
}

impl Settings {
    /// What the item says is logged, unless its keyword has been there; whether it is.
    fn note(&mut self, item: Item) -> bool
        ensures { MatchBool result ((is_set item self.old ≡ false) × (self.new ≡ with_item item self.old)) (is_set item self.old ≡ true) }
    {
        match item {
            Item::Nothing | Item::Term(_) => true,
            Item::Mid(mid) => fill(&mut self.mid, mid),
            Item::Media(media) => fill(&mut self.media, media),
            Item::Contexts(number) => fill(&mut self.contexts, number),
            Item::Slots(number) => fill(&mut self.slots, number),
            Item::Members(number) => fill(&mut self.members, number),
            Item::Keep(number) => fill(&mut self.keep, number),
        }
    }

    /// What the line says is logged.
    ///
    /// # Errors
    ///
    /// `Line` of the number where the line is of no form or repeats a keyword; out of memory.
    pub(crate) fn take(
        &mut self,
        terms: &mut Items<TermName>,
        line: &[u8],
        number: u32,
    ) -> Result<(), ConfigTextFault>
        ensures ok { OnOk result (IsStep line.now self.old terms.old self.new terms.new) }
        ensures fault { IfErr result (λ e. IsWrong number line.now self.old e) }
    {
        let Some(item) = item_of(line) else {
            return Err(ConfigTextFault::Line(number));
        };
        if !self.note(item) {
            return Err(ConfigTextFault::Line(number));
        }
        Ok(push_name(terms, item)?)
    }

    /// The configuration of what was said, if nothing is missing.
    pub(crate) fn config(self, terms: Items<TermName>) -> Option<Config>
        ensures { MatchOption result (is_complete self ≡ false) (λ c. IsAll c self terms) }
    {
        let Settings {
            mid: Some(mid),
            media: Some(media),
            contexts: Some(contexts),
            slots: Some(slots),
            members: Some(members),
            keep: Some(keep),
        } = self
        else {
            return None;
        };
        Some(Config {
            mid,
            media,
            contexts,
            slots,
            members,
            keep,
            terms,
        })
    }
}

//! Descriptors that are merged into one record after another.

ghost use Rattle.std.specs.Prelude.{◌≡◌, true, IfOk, IfSome, Ok, Some};
ghost use Rattle.std.specs.Option.{ForSome};
ghost use Rattle.gw_term.specs.Applies.{IsMerged};
ghost use Rattle.gw_term.specs.Gathered.{outcome_by, IsForEachSlot, IsGathered, IsMadeOf};

use crate::apply::{Applied, merge};
use crate::fault::ApplyFault;
use crate::gathered::Gathered;
use crate::record::Termination;
use crate::settings::Settings;
use gw_base::{Items, NoMemory, Rules};
use gw_desc::Descriptor;
use std::alloc::{AllocError, Global};

/// Descriptors that are merged into one record after another, under the gateway's rules. Where there are several, what
/// they made of the settings met last is kept: the next record with the same settings shares that block, if they fill
/// nothing of it, and any other the long texts in it.
#[derive(Drop)]
pub struct Merger<'a, 'b> {
    /// The rules.
    pub rules: &'a Rules,
    /// The descriptors, of which no code of `check` applies, taken as those of an Add.
    pub descriptors: &'a [Descriptor<'b>],
    /// Whether what they make of one record is kept for others.
    several: bool,
    /// Whether they are known to fill nothing, whatever the slot is.
    fills_none: bool,
    /// What the descriptors send, once it was requested.
    gathered: Option<Gathered<'b, 'a>>,
    /// The settings met last, if nothing of them was filled.
    before: Option<Settings>,
    /// What was made of the settings met last.
    after: Settings,
    ghost same: { fills_none ≡ true → IsForEachSlot rules.now descriptors.now },
    ghost sends: { ForSome gathered (IsGathered descriptors.now) },
    ghost made: { ForSome before (λ before. IsMadeOf rules.now descriptors.now before after) },
}

impl<'a, 'b> Merger<'a, 'b> {
    /// Nothing was merged yet. Where the descriptors are for one record, and not for several, nothing is kept. It
    /// takes no memory.
    #[inline(always)]
    pub fn new(rules: &'a Rules, descriptors: &'a [Descriptor<'b>], several: bool) -> Merger<'a, 'b>
        ensures rules { result.rules.now ≡ rules.now }
        ensures descriptors { result.descriptors.now ≡ descriptors.now }
    {
        Merger {
            rules,
            descriptors,
            several,
            fills_none: false,
            gathered: None,
            before: None,
            after: Settings::none(),
        }
    }

    /// The record after the descriptors, if nothing is filled and its settings are those that were met last.
    fn known(&self, alloc: Global, old: &Termination) -> Result<Option<Applied>, AllocError>
        ensures { IfOk result (λ known. IfSome known (λ applied. IsMerged self.now.rules.now self.now.descriptors.now old.now (Ok applied))) }
    {
        let (Some(sent), Some(before)) = (&self.gathered, &self.before) else {
            return Ok(None);
        };
        if (old.slot.is_some() && !self.fills_none) || !old.settings.is_same(before) {
            return Ok(None);
        }
        let record = Termination {
            place: old.place,
            service: sent.media.service.unwrap_or(old.service),
            slot: old.slot,
            settings: self.after.copied()?,
        };
        let filled = Items::new(alloc);
        Ok(Some(Applied { record, filled }))
    }

    /// What was made of a record is kept.
    #[tactic(auto, using(crate::proofs::MadeOnce::made_of))]
    fn keep(&mut self, old: &Termination, new: &Applied) -> Result<(), NoMemory>
        requires { outcome_by self.old.rules.now self.old.descriptors.now old.now.slot old.now.settings ≡ Some (record { settings = new.now.record.settings; filled = new.now.filled }) }
        ensures rules { self.new.rules.now ≡ self.old.rules.now }
        ensures descriptors { self.new.descriptors.now ≡ self.old.descriptors.now }
    {
        let after = new.record.settings.copied()?;
        if !new.filled.is_empty() {
            self.before = None;
            self.after = after;
            return Ok(());
        }
        self.before = Some(old.settings.copied()?);
        self.after = after;
        if old.slot.is_some() {
            self.fills_none = true;
        }
        Ok(())
    }

    /// The record after the descriptors, as [`Termination::merged`] gives it.
    ///
    /// # Errors
    ///
    /// Those of [`Termination::merged`].
    #[tactic(auto, using(crate::proofs::Gathering::merged_is))]
    pub fn merged(&mut self, alloc: Global, old: &Termination) -> Result<Applied, ApplyFault>
        ensures merged { IsMerged self.old.rules.now self.old.descriptors.now old.now result }
        ensures rules { self.new.rules.now ≡ self.old.rules.now }
        ensures descriptors { self.new.descriptors.now ≡ self.old.descriptors.now }
    {
        if let Some(applied) = self.known(alloc, old)? {
            return Ok(applied);
        }
        if self.gathered.is_none() {
            self.gathered = Some(Gathered::by(alloc, self.descriptors)?);
        }
        let Some(sent) = &self.gathered else {
            unreachable!()
        };
        let applied = merge(alloc, self.rules, sent, old, &self.after)?;
        if self.several {
            self.keep(old, &applied)?;
        }
        Ok(applied)
    }
}

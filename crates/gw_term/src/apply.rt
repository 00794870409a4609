//! What descriptors do to a termination: all of it, or nothing.

ghost use Rattle.std.specs.Prelude.{◌≡◌, None};
ghost use Rattle.gw_term.specs.Gathered.{applied_to};
ghost use Rattle.gw_term.specs.Places.{kinds_read};
ghost use Rattle.gw_term.specs.Applies.{YieldsApplied};

use crate::fault::ApplyFault;
use crate::gathered::Gathered;
use crate::properties::merged_properties;
use crate::record::Termination;
use crate::settings::{SettingList, Settings};
use crate::streams::{Outcome, merge_streams};
use crate::tails::merge_tails;
use crate::target::Target;
use gw_base::{Items, Rules};
use gw_desc::Descriptor;
use gw_reply::FilledStream;
use std::alloc::Global;

/// The streams whose Local was filled, in rising order.
pub type Filled = Items<FilledStream>;

/// A record after descriptors.
#[derive(Drop)]
pub struct Applied {
    /// The record.
    pub record: Termination,
    /// The streams whose Local was filled, with their Locals.
    pub filled: Filled,
}

/// The record after what descriptors send. Long texts are shared with what was made of them before.
pub(crate) fn merge(
    alloc: Global,
    rules: &Rules,
    sent: &Gathered<'_, '_>,
    old: &Termination,
    made: &Settings,
) -> Result<Applied, ApplyFault>
    ensures { YieldsApplied result (applied_to old.now rules.now sent.now.media (kinds_read sent.now.tails)) }
{
    let target = Target {
        rules,
        slot: old.slot,
        made,
    };
    let media = &sent.media;
    let before = old.settings.by_place();
    let properties = merged_properties(alloc, media.properties.as_slice(), before.properties)?;
    let mut outcome = Outcome {
        settings: SettingList::of(alloc, properties)?,
        filled: Items::new(alloc),
    };
    merge_tails(
        alloc,
        made,
        &sent.tails,
        &before.tails,
        &mut outcome.settings,
    )?;
    merge_streams(alloc, &target, media, &before.streams, &mut outcome)?;
    let Outcome { settings, filled } = outcome;
    let record = Termination {
        place: old.place,
        service: media.service.unwrap_or(old.service),
        slot: old.slot,
        settings: settings.into_settings(alloc)?,
    };
    Ok(Applied { record, filled })
}

impl Termination {
    ghost use Rattle.gw_base.specs.declared.command_words.Verb.TheVariants.{Add as add_verb};
    ghost use Rattle.gw_desc.specs.Checks.{check_code};
    ghost use Rattle.gw_term.specs.Merge.{merged, filled_by};
    ghost use Rattle.gw_term.specs.Applies.{IsApplied, IsMerged};

    /// The record after the descriptors: what they set, it keeps; what they do not name stays. A stream that is named
    /// and missing comes with mode Inactive and nothing else; Mode, ServiceStates, Local and Remote take the place of
    /// the old ones; a property takes the place of the one of its name, in any case, or goes last; a tail takes the
    /// place of the old one, and one without `=` whose group is missing or blank removes it. The `$` of a Local are
    /// filled where the termination has a slot. The streams whose Local was filled are answered in rising order. It
    /// is meant for descriptors of which no code of `check` applies, taken as those of an Add. The work is linear in
    /// the descriptors and the record.
    ///
    /// # Errors
    ///
    /// `Code(InsufficientResources)` where a list would hold more than 32 properties; `NoMemory`.
    #[tactic(auto, using(crate::proofs::Gathering::merged_is))]
    pub fn merged(
        &self,
        alloc: Global,
        rules: &Rules,
        descriptors: &[Descriptor<'_>],
    ) -> Result<Applied, ApplyFault>
        ensures { IsMerged rules.now descriptors.now self.now result }
    {
        let sent = Gathered::by(alloc, descriptors)?;
        merge(alloc, rules, &sent, self, &Settings::none())
    }

    /// The termination becomes its record after the descriptors, as `merged` gives it. Answers the streams whose
    /// Local was filled, in rising order, with their Locals. The caller knows that no code of `check` applies to the
    /// descriptors, taken as those of an Add.
    ///
    /// # Errors
    ///
    /// Those of `merged`, after which the termination is as it was.
    pub fn apply(
        &mut self,
        alloc: Global,
        rules: &Rules,
        descriptors: &[Descriptor<'_>],
    ) -> Result<Filled, ApplyFault>
        requires { check_code add_verb descriptors.now ≡ None }
        ensures applied { IsApplied rules.now descriptors.now self.old self.new result }
    {
        let Applied { record, filled } = self.merged(alloc, rules, descriptors)?;
        *self = record;
        Ok(filled)
    }
}

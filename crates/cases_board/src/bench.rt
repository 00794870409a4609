//! The tables of a gateway, and bursts on a board of them.

ghost use Rattle.std.specs.Prelude.{◌≡◌};
ghost use Rattle.std.specs.List.{list_any};
ghost use Rattle.gw_table.specs.Reserved.{is_reserved};
ghost use Rattle.gw_table.specs.Stored.{maps_of, NoneIsOut};
ghost use Rattle.gw_table.specs.WellFormed.{AreWellFormed};

use crate::asking::{Limits, requests_in};
use crate::play::play;
use crate::tree::write_tree;
use crate::waves::executed_text;
use crate::write_step::write_keys;
use bumpalo::Bump;
use cases_text::{CaseFault, Page};
use gw_base::{Config, Rules, TermName};
use gw_board::Profile;
use gw_foot::footprint;
use gw_msg::read_message;
use gw_table::{Tables, is_reserved};
use std::alloc::Global;
use std::marker::Model;

/// How a gateway executes requests, and its tables, which are well-formed and of which nothing is out.
#[derive(Drop)]
pub struct Bench {
    profile: Profile,
    limits: Limits,
    tables: Tables,
}

impl Model for Bench {
    ghost use Rattle.gw_table.specs.Maps.{Maps, coded_maps};
    ghost use Rattle.gw_table.specs.Stored.{maps_of, NoneIsOut};
    ghost use Rattle.gw_table.specs.WellFormed.{AreWellFormed};

    ghost Value = { Maps };

    ghost coded = { coded_maps };

    ghost view = { λ a. maps_of a.tables };

    ghost invariant = { λ a. AreWellFormed a.profile.rules.members (maps_of a.tables) × NoneIsOut a.tables };
}

/// Whether a name is the gateway's own to give.
fn has_reserved(names: &[TermName]) -> bool
    ensures { result ≡ list_any is_reserved names.now }
{
    names.iter().any(|name| is_reserved(*name))
}

/// How many contexts and slots a gateway of this configuration has.
fn limits_of(config: &Config) -> Option<Limits> {
    if config.contexts > 65_535 || config.slots > 4_096 {
        return None;
    }
    Some(Limits {
        contexts: config.contexts,
        slots: config.slots,
    })
}

/// These tables after the requests of a message, executed in waves. The caller knows that they are well-formed, and
/// that nothing is out.
fn carried_in(
    alloc: Global,
    profile: &Profile,
    limits: Limits,
    tables: Tables,
    text: &[u8],
) -> Result<Bench, CaseFault>
    requires whole { AreWellFormed profile.now.rules.members (maps_of tables) }
    requires here { NoneIsOut tables }
{
    let bump = Bump::new(alloc);
    let Ok(message) = read_message(&bump, text) else {
        return Err(CaseFault::Form);
    };
    let Ok(requested) = requests_in(alloc, &tables, limits, &message) else {
        return Err(CaseFault::NoMemory);
    };
    let tables = executed_text(alloc, tables, *profile, &requested)?;
    Ok(Bench {
        profile: *profile,
        limits,
        tables,
    })
}

/// Takes steps with the requests of a message, on a board of these tables. The caller knows that they are well-formed,
/// and that nothing is out.
fn play_in(
    profile: Profile,
    limits: Limits,
    tables: Tables,
    text: &[u8],
    steps: &[u8],
    out: &mut Page,
) -> Result<(), CaseFault>
    requires whole { AreWellFormed profile.rules.members (maps_of tables) }
    requires here { NoneIsOut tables }
{
    let alloc = out.alloc();
    let bump = Bump::new(alloc);
    let Ok(message) = read_message(&bump, text) else {
        return Err(CaseFault::Form);
    };
    let Ok(requested) = requests_in(alloc, &tables, limits, &message) else {
        return Err(CaseFault::NoMemory);
    };
    play(tables, profile, &requested, steps, out)
}

/// Executes the only request of a message on these tables, and writes its reply. The caller knows that they are
/// well-formed, and that nothing is out.
fn write_only(
    profile: &Profile,
    limits: Limits,
    tables: Tables,
    text: &[u8],
    out: &mut Page,
) -> Result<(), CaseFault>
    requires whole { AreWellFormed profile.now.rules.members (maps_of tables) }
    requires here { NoneIsOut tables }
{
    let alloc = out.alloc();
    let bump = Bump::new(alloc);
    let Ok(message) = read_message(&bump, text) else {
        return Err(CaseFault::Form);
    };
    let Ok(requested) = requests_in(alloc, &tables, limits, &message) else {
        return Err(CaseFault::NoMemory);
    };
    let [one] = requested.as_slice() else {
        return Err(CaseFault::Form);
    };
    let Ok(request) = one.request.tree(&bump) else {
        return Err(CaseFault::NoMemory);
    };
    write_tree(&profile.rules, tables, request, &one.owned, out)
}

impl Bench {
    /// The tables of a gateway that was just configured.
    ///
    /// # Errors
    ///
    /// `Form` where the configuration does not keep the limits; `NoMemory` where an allocation was refused.
    pub fn new(alloc: Global, config: &Config) -> Result<Bench, CaseFault> {
        if config.members > 64 || has_reserved(config.terms.as_slice()) {
            return Err(CaseFault::Form);
        }
        let limits = limits_of(config).ok_or(CaseFault::Form)?;
        let Ok(tables) = Tables::provision(alloc, config) else {
            return Err(CaseFault::NoMemory);
        };
        let rules = Rules {
            media: config.media,
            members: config.members as u8,
        };
        Ok(Bench {
            profile: Profile {
                rules,
                mid: config.mid,
            },
            limits,
            tables,
        })
    }

    /// The tables after the requests of a message, executed in waves.
    ///
    /// # Errors
    ///
    /// `Form` where the text is no message; `NoMemory` where an allocation was refused.
    pub fn after(self, alloc: Global, text: &[u8]) -> Result<Bench, CaseFault> {
        let Bench {
            profile,
            limits,
            tables,
        } = self;
        carried_in(alloc, &profile, limits, tables, text)
    }

    /// Takes steps with the requests of a message, on a board of the tables, which end with it.
    ///
    /// # Errors
    ///
    /// `Form` where the text is no message, and what is wrong with a step; `NoMemory` where an allocation was refused.
    pub fn play(self, text: &[u8], steps: &[u8], out: &mut Page) -> Result<(), CaseFault> {
        let Bench {
            profile,
            limits,
            tables,
        } = self;
        play_in(profile, limits, tables, text, steps, out)
    }

    /// Executes the only request of a message by itself on the tables, which end with it, and writes its reply.
    ///
    /// # Errors
    ///
    /// `Form` where the text is no message of one request; `NoMemory` where an allocation was refused.
    pub fn write_tree(self, text: &[u8], out: &mut Page) -> Result<(), CaseFault> {
        let Bench {
            profile,
            limits,
            tables,
        } = self;
        write_only(&profile, limits, tables, text, out)
    }

    /// Writes the footprint of a request of a message.
    ///
    /// # Errors
    ///
    /// `Form` where the text is no message, or has no such request; `NoMemory` where an allocation was refused.
    pub fn write_footprint(
        &self,
        text: &[u8],
        place: usize,
        out: &mut Page,
    ) -> Result<(), CaseFault> {
        let alloc = out.alloc();
        let bump = Bump::new(alloc);
        let Ok(message) = read_message(&bump, text) else {
            return Err(CaseFault::Form);
        };
        let Ok(requested) = requests_in(alloc, &self.tables, self.limits, &message) else {
            return Err(CaseFault::NoMemory);
        };
        let one = requested.get(place).ok_or(CaseFault::Form)?;
        let Ok(tree) = one.request.tree(&bump) else {
            return Err(CaseFault::NoMemory);
        };
        let Ok(keys) = footprint(alloc, &self.tables, tree, &one.owned) else {
            return Err(CaseFault::NoMemory);
        };
        write_keys(out, keys.list());
        Ok(())
    }
}

//! The gateway: what was configured, and its state.

ghost use Rattle.std.specs.Prelude.{◌≡◌, ◌⊎◌, IfOk, OnOk, IfErr};
ghost use Rattle.std.specs.List.{All, list_any};
ghost use Rattle.gw_base.specs.NameLists.{NoDoubles};
ghost use Rattle.gw_base.specs.Names.{IsName};
ghost use Rattle.gw_table.specs.Reserved.{is_reserved};
ghost use Rattle.gw_engine.specs.Configuration.{first_limit, IsFault, IsAccepted, new_gateway};

use crate::fault::{ConfigFault, LimitName};
use gw_base::{Config, Mid, Rules, TermName};
use gw_kept::Kept;
use gw_reserve::Cursors;
use gw_table::{Tables, is_reserved};
use indexmap::IndexSet;
use std::alloc::Global;
use std::marker::Model;

/// A media gateway: its configuration, its terminations and contexts, where the search for free identifiers
/// begins, and the replies that are kept for repeats.
pub struct Gateway {
    pub(crate) mid: Mid,
    pub(crate) rules: Rules,
    pub(crate) contexts: u32,
    pub(crate) slots: u32,
    pub(crate) keep: u32,
    pub(crate) cursors: Cursors,
    pub(crate) tables: Tables,
    pub(crate) kept: Kept,
}

// Written out, so that a function that drops a gateway does so by one call.
impl Drop for Gateway {
    fn drop(self) {
        let Gateway {
            mid: _,
            rules: _,
            contexts: _,
            slots: _,
            keep: _,
            cursors: _,
            tables: _,
            kept: _,
        } = self;
    }
}

impl Model for Gateway {
    ghost use Rattle.gw_engine.specs.State.{GatewayValue, coded_gateway};

    ghost Value = { GatewayValue };

    ghost coded = { coded_gateway };

    ghost use Rattle.gw_engine.specs.GatewayView.{value_of, IsGateway};

    ghost view = { value_of };

    ghost invariant = { IsGateway };
}

/// The greatest numbers of a configuration (own to this profile).
const MOST_CONTEXTS: u32 = 65_535;

const MOST_SLOTS: u32 = 4_096;

const MOST_MEMBERS: u32 = 64;

const MOST_KEPT: u32 = 4_096;

const MOST_TERMS: usize = 65_535;

/// The first of the limits that is not kept.
fn first_limit(config: &Config) -> Option<LimitName>
    ensures { result ≡ first_limit config.now }
{
    if !(1..=MOST_CONTEXTS).contains(&config.contexts) {
        Some(LimitName::Contexts)
    } else if config.slots > MOST_SLOTS {
        Some(LimitName::Slots)
    } else if !(1..=MOST_MEMBERS).contains(&config.members) {
        Some(LimitName::Members)
    } else if !(1..=MOST_KEPT).contains(&config.keep) {
        Some(LimitName::Keep)
    } else if config.terms.len() > MOST_TERMS {
        Some(LimitName::Terms)
    } else {
        None
    }
}

fn has_reserved(names: &[TermName]) -> bool
    ensures { result ≡ list_any is_reserved names.now }
{
    names.iter().any(|name| is_reserved(*name))
}

/// Answers whether a name is given twice, which is a fault. Each of them has its form.
fn check_names(alloc: Global, names: &[TermName]) -> Result<(), ConfigFault>
    ensures ok { OnOk result (NoDoubles names.now) }
    ensures forms { OnOk result (All IsName names.now) }
    ensures fault { IfErr result (λ e. ((e ≡ ConfigFault.DuplicateName) × ¬ NoDoubles names.now) ⊎ (e ≡ ConfigFault.NoMemory)) }
{
    let mut seen = IndexSet::new(alloc);
    for name in names {
        // No effect at run time. The proof reads here that the name has its form.
        let _ = name.as_bytes();
        if !seen.insert(*name)? {
            return Err(ConfigFault::DuplicateName);
        }
    }
    Ok(())
}

impl Gateway {
    /// The gateway of a configuration, with its terminations in the null context and no contexts. This takes n log n
    /// steps in the names.
    ///
    /// # Errors
    ///
    /// The first that applies: a limit that is not kept, in the order of `LimitName`; a reserved name; a name given
    /// twice. Out of memory at any allocation.
    pub fn new(alloc: Global, config: Config) -> Result<Gateway, ConfigFault>
        ensures ok { IfOk result (λ gateway. IsAccepted config × (gateway ≡ new_gateway config)) }
        ensures fault { IfErr result (IsFault config) }
    {
        if let Some(limit) = first_limit(&config) {
            return Err(ConfigFault::LimitOutOfRange(limit));
        }
        if has_reserved(config.terms.as_slice()) {
            return Err(ConfigFault::ReservedName);
        }
        check_names(alloc, config.terms.as_slice())?;
        // No effect at run time. The proof reads here that the mId and the address have their forms.
        let _ = config.mid.as_bytes();
        let _ = config.media.as_bytes();
        let tables = Tables::provision(alloc, &config)?;
        let kept = Kept::new(alloc, config.keep)?;
        Ok(Gateway {
            mid: config.mid,
            rules: Rules {
                media: config.media,
                members: config.members as u8,
            },
            contexts: config.contexts,
            slots: config.slots,
            keep: config.keep,
            cursors: Cursors {
                context: 0,
                slot: 0,
            },
            tables,
            kept,
        })
    }
}

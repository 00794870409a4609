//! Tables on which single commands are executed.

ghost use Rattle.std.specs.Prelude.{◌≡◌, true, OnOk};
ghost use Rattle.std.specs.List.{list_any};
ghost use Rattle.gw_table.specs.Reserved.{is_reserved};
ghost use Rattle.gw_table.specs.Stored.{maps_of, NoneIsOut};
ghost use Rattle.gw_table.specs.WellFormed.{AreWellFormed};
ghost use Rattle.gw_cmd.specs.Commands.{command as command_done};
ghost use Rattle.gw_cmd.specs.Suits.{IsUnused};

use crate::keys::enough_keys;
use crate::places::Place;
use bumpalo::Bump;
use cases_text::{CaseFault, Page};
use gw_base::{Config, NoMemory, Rules, TermName};
use gw_cmd::{CmdOutcome, command};
use gw_msg::{Command, Item, Message, read_message};
use gw_table::{Draft, Tables, is_reserved, slot_name};
use std::alloc::Global;
use std::marker::Model;

/// A gateway's rules and its tables, which are well-formed and of which nothing is out.
#[derive(Drop)]
pub struct Bench {
    rules: Rules,
    tables: Tables,
}

impl Model for Bench {
    ghost use Rattle.gw_table.specs.Maps.{Maps, coded_maps};
    ghost use Rattle.gw_table.specs.Stored.{maps_of, NoneIsOut};
    ghost use Rattle.gw_table.specs.WellFormed.{AreWellFormed};

    ghost Value = { Maps };

    ghost coded = { coded_maps };

    ghost view = { λ a. maps_of a.tables };

    ghost invariant = { λ a. AreWellFormed a.rules.members (maps_of a.tables) × NoneIsOut a.tables };
}

/// Whether a name is the gateway's own to give.
fn has_reserved(names: &[TermName]) -> bool
    ensures { result ≡ list_any is_reserved names.now }
{
    names.iter().any(|name| is_reserved(*name))
}

/// Whether no termination is in the slot that a command owns.
fn is_unused(tables: &Tables, slot: Option<u16>) -> bool
    ensures { result ≡ true → IsUnused slot (maps_of tables.now) }
{
    match slot {
        Some(slot) => tables.find_term(&slot_name(slot)).is_none(),
        None => true,
    }
}

/// The command of a message of one request of one action.
fn command_of<'m, 'a>(message: &'m Message<'a>) -> Option<&'m Command<'a>> {
    let [item] = message.items.as_slice() else {
        return None;
    };
    let Item::Request(source) = item else {
        return None;
    };
    let [action] = source.kept_tree()?.actions.as_slice() else {
        return None;
    };
    let [command] = action.commands.as_slice() else {
        return None;
    };
    Some(command)
}

/// Executes a command on a draft of all of the tables.
fn execute(
    alloc: Global,
    rules: &Rules,
    tables: &mut Tables,
    place: Place,
    given: &Command<'_>,
) -> Result<CmdOutcome, NoMemory>
    requires whole { AreWellFormed rules.now.members (maps_of tables.old) }
    requires here { NoneIsOut tables.old }
    requires unused { IsUnused place.slot (maps_of tables.old) }
    ensures maps { OnOk result (maps_of tables.new ≡ (command_done rules.now place.at place.slot given.now (maps_of tables.old)).maps) }
    ensures here { OnOk result (NoneIsOut tables.new) }
{
    let keys = enough_keys(alloc, tables, place, given)?;
    tables.reserve_slots(keys.list())?;
    let part = tables.take_out(keys);
    let mut draft = Draft::of_part(part);
    let outcome = command(alloc, rules, &mut draft, place.at, place.slot, given)?;
    let after = draft.into_part();
    tables.put_back(after);
    tables.sweep();
    Ok(outcome)
}

/// The command executed at its place in these tables: its replies, and the tables after it. The caller knows that they
/// are well-formed, and that nothing is out.
fn carried_in(
    alloc: Global,
    rules: &Rules,
    mut tables: Tables,
    place: Place,
    given: &Command<'_>,
) -> Result<(CmdOutcome, Bench), CaseFault>
    requires whole { AreWellFormed rules.now.members (maps_of tables) }
    requires here { NoneIsOut tables }
{
    if !is_unused(&tables, place.slot) {
        return Err(CaseFault::Form);
    }
    let Ok(outcome) = execute(alloc, rules, &mut tables, place, given) else {
        return Err(CaseFault::NoMemory);
    };
    let rules = *rules;
    Ok((outcome, Bench { rules, tables }))
}

impl Bench {
    /// The tables of a gateway that was just configured.
    pub fn new(alloc: Global, config: &Config) -> Result<Bench, CaseFault> {
        if config.members > 64 || has_reserved(config.terms.as_slice()) {
            return Err(CaseFault::Form);
        }
        let Ok(tables) = Tables::provision(alloc, config) else {
            return Err(CaseFault::NoMemory);
        };
        Ok(Bench {
            rules: Rules {
                media: config.media,
                members: config.members as u8,
            },
            tables,
        })
    }

    /// The tables.
    pub fn tables(&self) -> &Tables {
        &self.tables
    }

    /// The command executed at its place: its replies, and the tables after it.
    fn carried(
        self,
        alloc: Global,
        place: Place,
        given: &Command<'_>,
    ) -> Result<(CmdOutcome, Bench), CaseFault> {
        let Bench { rules, tables } = self;
        carried_in(alloc, &rules, tables, place, given)
    }

    /// The command of a message executed at its place.
    fn executed_of(
        self,
        alloc: Global,
        place: Place,
        message: &[u8],
    ) -> Result<(CmdOutcome, Bench), CaseFault> {
        let bump = Bump::new(alloc);
        let Ok(message) = read_message(&bump, message) else {
            return Err(CaseFault::Form);
        };
        match command_of(&message) {
            Some(given) => self.carried(alloc, place, given),
            None => Err(CaseFault::Form),
        }
    }

    /// The command of this text executed at its place: its replies, and the tables after it.
    pub fn executed(
        self,
        alloc: Global,
        place: Place,
        text: &[u8],
    ) -> Result<(CmdOutcome, Bench), CaseFault> {
        let mut whole = Page::new(alloc);
        whole.put(b"MEGACO/1 mg T=1{C=-{");
        whole.put(text);
        whole.put(b"}}");
        self.executed_of(alloc, place, whole.whole()?)
    }
}

//! Keys on which any command can be executed.

ghost use Rattle.std.specs.Prelude.{◌≡◌, ◌++◌, IfOk, OnOk, map};
ghost use Rattle.gw_base.specs.declared.key.Key.TheVariants.{Term, Ctx};
ghost use Rattle.gw_cmd.specs.Keys.{every_key, action_keys, member_keys, name_keys, slot_key};
ghost use Rattle.gw_table.specs.Stored.{maps_of};
ghost use Rattle.cases_commands.specs.EnoughKeys.{AreEnough, own_name};

use crate::places::Place;
use gw_base::{CtxNum, Key, NoMemory, TermName, TermRef};
use gw_cmd::At;
use gw_msg::Command;
use gw_table::{Keys, Tables, slot_name};
use std::alloc::Global;

fn add_names(names: &[TermName], keys: &mut Vec<Key>) -> Result<(), NoMemory>
    ensures { OnOk result (keys.new.items ≡ keys.old.items ++ map Term names.now) }
{
    for name in names {
        keys.push(Key::Term(*name))?;
    }
    Ok(())
}

fn add_numbers(numbers: &[CtxNum], keys: &mut Vec<Key>) -> Result<(), NoMemory>
    ensures { OnOk result (keys.new.items ≡ keys.old.items ++ map Ctx numbers.now) }
{
    for number in numbers {
        keys.push(Key::Ctx(*number))?;
    }
    Ok(())
}

/// All of the tables.
fn every_key(alloc: Global, tables: &Tables) -> Result<Vec<Key>, NoMemory>
    ensures { IfOk result (λ keys. keys.items ≡ every_key (maps_of tables.now)) }
{
    let mut keys = Vec::with_capacity(alloc, 1)?;
    keys.push(Key::Whole)?;
    let names = tables.names(alloc)?;
    add_names(&names, &mut keys)?;
    let numbers = tables.numbers(alloc)?;
    add_numbers(&numbers, &mut keys)?;
    Ok(keys)
}

/// The context of an action, and its members.
fn add_context(tables: &Tables, at: At, keys: &mut Vec<Key>) -> Result<(), NoMemory>
    ensures { OnOk result (keys.new.items ≡ keys.old.items ++ (action_keys at ++ member_keys at (maps_of tables.now))) }
{
    match at {
        At::Null | At::Each(_) => Ok(()),
        At::Live(number) | At::Unmade(number) => {
            keys.push(Key::Ctx(number))?;
            match tables.find_ctx(number) {
                Some(context) => add_names(context.members().as_slice(), keys),
                None => Ok(()),
            }
        }
    }
}

/// A termination, and the context that it is in.
fn add_name(tables: &Tables, name: TermName, keys: &mut Vec<Key>) -> Result<(), NoMemory>
    ensures { OnOk result (keys.new.items ≡ keys.old.items ++ name_keys name (maps_of tables.now)) }
{
    keys.push(Key::Term(name))?;
    let Some(termination) = tables.find_term(&name) else {
        return Ok(());
    };
    if let Some(place) = termination.place() {
        keys.push(Key::Ctx(place))?;
    }
    Ok(())
}

/// The termination that a command names, and the context that it is in.
fn add_named(tables: &Tables, term: TermRef, keys: &mut Vec<Key>) -> Result<(), NoMemory>
    ensures { OnOk result (keys.new.items ≡ keys.old.items ++ own_name term (maps_of tables.now)) }
{
    match term {
        TermRef::Name(name) => add_name(tables, name, keys),
        _ => Ok(()),
    }
}

/// The name of the slot that a command owns.
fn add_slot(slot: Option<u16>, keys: &mut Vec<Key>) -> Result<(), NoMemory>
    ensures { OnOk result (keys.new.items ≡ keys.old.items ++ slot_key slot) }
{
    if let Some(slot) = slot {
        keys.push(Key::Term(slot_name(slot)))?;
    }
    Ok(())
}

/// All of the tables, and the keys of the command.
pub fn enough_keys(
    alloc: Global,
    tables: &Tables,
    place: Place,
    given: &Command<'_>,
) -> Result<Keys, NoMemory>
    ensures { IfOk result (λ keys. AreEnough keys place.at place.slot given.now (maps_of tables.now)) }
{
    let mut keys = every_key(alloc, tables)?;
    add_context(tables, place.at, &mut keys)?;
    add_named(tables, given.term, &mut keys)?;
    add_slot(place.slot, &mut keys)?;
    Ok(Keys::of(alloc, &keys)?)
}

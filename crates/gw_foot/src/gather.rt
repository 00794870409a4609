//! The keys of a request, gathered action by action. Doubles are among them.

ghost use Rattle.std.specs.Prelude.{◌≡◌, ◌++◌, Bool, true, false, List, flat_map, map, OnOk};
ghost use Rattle.gw_base.specs.declared.key.Key.{Key};
ghost use Rattle.gw_base.specs.declared.key.Key.TheVariants.{Term, Ctx};
ghost use Rattle.gw_base.specs.Keys.{has};
ghost use Rattle.gw_table.specs.Maps.{ctx, members_of};
ghost use Rattle.gw_table.specs.Stored.{maps_of};
ghost use Rattle.gw_cmd.specs.Keys.{every_key, name_keys};
ghost use Rattle.gw_tx.specs.Footprints.{one_context};
ghost use Rattle.gw_reserve.specs.Owned.{paired_action, paired_actions, paired_commands};
ghost use Rattle.gw_foot.specs.Gathered.{own_keys, gathered, all_gathered};

use crate::requested::has_wildcard;
use gw_base::{CtxNum, CtxRef, Key, NoMemory, TermName, TermRef};
use gw_msg::{Action, Command};
use gw_refusal::is_add;
use gw_table::{Tables, put_in_order, slot_name};
use gw_tx::{entries_behind, linked_names, next_entry};
use std::alloc::Global;

/// So many keys are kept before doubles among them are looked for: more than most requests have.
const FEW: usize = 256;

fn add_names(names: &[TermName], keys: &mut Vec<Key>) -> Result<(), NoMemory>
    ensures { OnOk result (keys.new.items ≡ keys.old.items ++ map Term names.now) }
{
    keys.reserve(names.len())?;
    for name in names {
        keys.push(Key::Term(*name))?;
    }
    Ok(())
}

fn add_numbers(numbers: &[CtxNum], keys: &mut Vec<Key>) -> Result<(), NoMemory>
    ensures { OnOk result (keys.new.items ≡ keys.old.items ++ map Ctx numbers.now) }
{
    for number in numbers {
        keys.push(Key::Ctx(*number))?;
    }
    Ok(())
}

/// Every key of the tables, and `Whole`.
pub(crate) fn add_every_key(
    alloc: Global,
    tables: &Tables,
    keys: &mut Vec<Key>,
) -> Result<(), NoMemory>
    ensures { OnOk result (keys.new.items ≡ keys.old.items ++ every_key (maps_of tables.now)) }
{
    keys.push(Key::Whole)?;
    let names = tables.names(alloc)?;
    add_names(&names, keys)?;
    let numbers = tables.numbers(alloc)?;
    add_numbers(&numbers, keys)
}

/// The members of a context, which the context itself has.
fn add_members(tables: &Tables, number: CtxNum, keys: &mut Vec<Key>) -> Result<(), NoMemory>
    ensures { OnOk result (keys.new.items ≡ keys.old.items ++ map Term (members_of (ctx (maps_of tables.now) number))) }
{
    match tables.find_ctx(number) {
        Some(context) => add_names(context.members().as_slice(), keys),
        None => Ok(()),
    }
}

/// A termination, and the context that it is in.
fn add_name(tables: &Tables, name: TermName, keys: &mut Vec<Key>) -> Result<(), NoMemory>
    ensures { OnOk result (keys.new.items ≡ keys.old.items ++ name_keys name (maps_of tables.now)) }
{
    keys.push(Key::Term(name))?;
    let Some(termination) = tables.find_term(&name) else {
        return Ok(());
    };
    if let Some(place) = termination.place() {
        keys.push(Key::Ctx(place))?;
    }
    Ok(())
}

/// What a command names by itself: one termination, or one that is to be made.
fn add_own(
    tables: &Tables,
    slot: Option<u16>,
    command: &Command<'_>,
    keys: &mut Vec<Key>,
) -> Result<(), NoMemory>
    ensures { OnOk result (keys.new.items ≡ keys.old.items ++ own_keys (maps_of tables.now) (slot, command.now)) }
{
    match command.term {
        TermRef::Name(name) => add_name(tables, name, keys),
        TermRef::Choose if is_add(command.verb) => {
            if let Some(slot) = slot {
                keys.push(Key::Term(slot_name(slot)))?;
            }
            Ok(())
        }
        _ => Ok(()),
    }
}

/// What each of the commands names by itself.
fn add_each_own(
    tables: &Tables,
    slots: &[Option<u16>],
    commands: &[Command<'_>],
    keys: &mut Vec<Key>,
) -> Result<(), NoMemory>
    ensures { OnOk result (keys.new.items ≡ keys.old.items ++ flat_map (own_keys (maps_of tables.now)) (paired_commands slots.now commands.now)) }
{
    let mut left = slots;
    for command in commands {
        let (slot, later) = next_entry(left);
        left = later;
        add_own(tables, slot, command, keys)?;
    }
    Ok(())
}

/// Each of these terminations, and the context that it is in.
fn add_linked(tables: &Tables, names: &[TermName], keys: &mut Vec<Key>) -> Result<(), NoMemory>
    ensures { OnOk result (keys.new.items ≡ keys.old.items ++ flat_map (λ t. name_keys t (maps_of tables.now)) names.now) }
{
    for name in names {
        add_name(tables, *name, keys)?;
    }
    Ok(())
}

/// The number of the one context that an action is for, by its ContextID and by the number that it owns.
pub fn one_context(sent: CtxRef, owned: Option<CtxNum>) -> Option<CtxNum>
    ensures { result ≡ one_context sent owned }
{
    match sent {
        CtxRef::Num(number) => Some(number),
        CtxRef::Choose => owned,
        CtxRef::Null | CtxRef::All => None,
    }
}

/// The keys of one action. The members of its context are there once, however many wildcards may match them. The names
/// that it links are listed on the way.
fn add_action(
    tables: &Tables,
    number: Option<CtxNum>,
    slots: &[Option<u16>],
    sent: &Action<'_>,
    keys: &mut Vec<Key>,
) -> Result<(), NoMemory>
    ensures { OnOk result (keys.new.items ≡ keys.old.items ++ gathered (maps_of tables.now) (paired_action number slots.now sent.now)) }
{
    let commands = sent.commands.as_slice();
    if let Some(number) = one_context(sent.ctx, number) {
        keys.push(Key::Ctx(number))?;
        if has_wildcard(commands) {
            add_members(tables, number, keys)?;
        }
    }
    add_each_own(tables, slots, commands, keys)?;
    let names = linked_names(*keys.allocator(), sent.props.as_slice())?;
    add_linked(tables, &names, keys)
}

/// Drops doubles where there are more than so many keys, and answers at how many it is worth while again: so the list
/// takes no more room than twice the keys and those of one action.
fn drop_doubles(most: usize, keys: &mut Vec<Key>) -> usize
    ensures { (k : Key) → has keys.new.items k ≡ has keys.old.items k }
{
    if keys.len() <= most {
        return most;
    }
    put_in_order(keys);
    keys.len().saturating_mul(2).max(FEW)
}

/// The keys of each action, with the number and the slots that it owns.
pub(crate) fn add_actions(
    tables: &Tables,
    numbers: &[Option<CtxNum>],
    slots: &[Option<u16>],
    requested: &[Action<'_>],
    keys: &mut Vec<Key>,
) -> Result<(), NoMemory>
    ensures { OnOk result ((k : Key) → has keys.new.items k ≡ has (keys.old.items ++ all_gathered (maps_of tables.now) (paired_actions numbers.now slots.now requested.now)) k) }
{
    let mut numbers_left = numbers;
    let mut slots_left = slots;
    let mut most = keys.len().max(FEW);
    for sent in requested {
        let (number, later) = next_entry(numbers_left);
        add_action(tables, number, slots_left, sent, keys)?;
        numbers_left = later;
        slots_left = entries_behind(slots_left, sent.commands.len());
        most = drop_doubles(most, keys);
    }
    Ok(())
}

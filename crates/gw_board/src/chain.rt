//! The requests of a chain, which one worker executes one after another.

ghost use Rattle.std.specs.Prelude.{◌≡◌, ◌<◌, [], length, map, replicate, All, IfOk};
ghost use Rattle.gw_table.specs.Stored.{maps_of};
ghost use Rattle.gw_board.specs.Chained.{chains_in, AreTasks, IsChainAnswer};
ghost use Rattle.gw_board.specs.Chains.{GoesByChains};
ghost use Rattle.gw_board.specs.Stretches.{chained, keys_at, AreChained};
ghost use Rattle.gw_board.specs.BoardEntries.{place_of};

use crate::board_entry::{BoardEntry, is_pending};
use crate::chains::Chains;
use crate::profile::Profile;
use crate::reply::carry_on;
use crate::requested::Task;
use gw_base::{Items, Key, NoMemory};
use gw_table::{Draft, Part, Tables};
use std::alloc::Global;
use std::marker::Model;
use std::mem;

/// The requests of a chain in their order, and its keys. The tables are those from which it begins.
#[derive(Drop)]
pub(crate) struct Chain<'t, 'b, 'h, 'a> {
    profile: Profile,
    tables: &'t Tables,
    keys: Items<Key>,
    tasks: Items<Task<'b, 'h, 'a>>,
}

impl<'t, 'b, 'h, 'a> Model for Chain<'t, 'b, 'h, 'a> {
    ghost use Rattle.std.specs.Coded.{codes};
    ghost use Rattle.gw_table.specs.KeyLists.{IsInOrder};
    ghost use Rattle.gw_table.specs.Maps.{coded_maps};
    ghost use Rattle.gw_table.specs.Parts.{restricted};
    ghost use Rattle.gw_table.specs.Stored.{maps_of};
    ghost use Rattle.gw_board.specs.Chains.{RunsOn};
    ghost use Rattle.gw_board.specs.Chained.{ChainOf};

    ghost Value = { ChainOf };

    ghost coded = { Prim.hlevel (codes, coded_maps) };

    ghost view = { λ a. record { profile = a.profile; keys = a.keys; maps = maps_of a.tables.now; requested = a.tasks } };

    ghost invariant = { λ a. IsInOrder a.keys × RunsOn a.profile a.keys (restricted a.keys (maps_of a.tables.now)) a.tasks };
}

/// What a chain came to: the new entries at its keys, and the texts of the replies in the order of its requests.
pub(crate) type Answer = Result<(Part, Items<Items<u8>>), NoMemory>;

impl Chain<'_, '_, '_, '_> {
    /// Executes the requests one after another, on copies of the entries at the chain's keys, and writes the replies.
    /// The tables stay as they are. The work is that of the commands, and a copy of each entry.
    ///
    /// # Errors
    ///
    /// Out of memory.
    pub(crate) fn execute(&self, alloc: Global) -> Answer
        ensures { IsChainAnswer self.now result }
    {
        let keys = Vec::from_slice(alloc, self.keys.as_slice())?;
        let mut draft = Draft::of_part(self.tables.copied(alloc, keys)?);
        let mut block = Items::new(alloc);
        let mut texts = Vec::with_capacity(alloc, self.tasks.len())?;
        for task in self.tasks.as_slice() {
            texts.push(carry_on(alloc, &self.profile, task.get(), &mut draft, &mut block)?)?;
        }
        Ok((draft.into_part(), Items::from(texts)))
    }
}

/// The requests of the pending places of a stretch, by their chains, of which there are so many.
fn tasks_of<'b, 'h, 'a>(
    alloc: Global,
    stretch: &[BoardEntry<'b, 'h, 'a>],
    numbers: &[usize],
    count: usize,
) -> Result<Vec<Items<Task<'b, 'h, 'a>>>, NoMemory>
    requires as_many { length numbers.now ≡ length stretch.now }
    requires numbered { All (λ g. g < count) numbers.now }
    ensures { IfOk result (λ lists. AreTasks count (chained numbers.now (map place_of stretch.now)) lists.items) }
{
    let mut lists: Vec<Items<Task<'b, 'h, 'a>>> = Vec::with_capacity(alloc, count)?;
    for _chain in 0..count {
        lists.push(Items::<Task<'b, 'h, 'a>>::new(alloc))?;
    }
    for (i, board_entry) in stretch.iter().enumerate() {
        if !is_pending(board_entry) {
            continue;
        }
        lists[numbers[i]].push(board_entry.task.again())?;
    }
    Ok(lists)
}

/// The chains of a stretch, each with its requests. The caller knows that these are its chains in the tables as they
/// are, and that each of them runs on the part that has its keys.
///
/// # Errors
///
/// Out of memory.
pub(crate) fn chains_with_tasks<'t, 'b, 'h, 'a>(
    alloc: Global,
    profile: &Profile,
    tables: &'t Tables,
    stretch: &[BoardEntry<'b, 'h, 'a>],
    numbers: &[usize],
    keys: Vec<Items<Key>>,
) -> Result<Vec<Chain<'t, 'b, 'h, 'a>>, NoMemory>
    requires chained { AreChained numbers.now keys.items (maps_of tables.now) (map place_of stretch.now) }
    requires goes { GoesByChains profile.now (keys_at keys.items) (maps_of tables.now) (chained numbers.now (map place_of stretch.now)) }
    ensures { IfOk result (λ chains. chains.items ≡ chains_in profile.now (maps_of tables.now) (chained numbers.now (map place_of stretch.now)) 0 keys.items) }
{
    let mut lists = tasks_of(alloc, stretch, numbers, keys.len())?;
    let mut chains = Vec::with_capacity(alloc, keys.len())?;
    for keys in keys {
        let tasks = mem::replace(&mut lists[chains.len()], Items::new(alloc));
        chains.push(Chain {
            profile: *profile,
            tables,
            keys,
            tasks,
        })?;
    }
    Ok(chains)
}

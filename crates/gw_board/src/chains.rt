//! Which requests may be executed side by side: those of different chains. A chain is what hangs together by shared keys,
//! directly or by others.

ghost use Rattle.std.specs.Prelude.{◌≡◌, ◌<◌, Some, All, length, map, IfOk, IfSome, IsTrue, OnOk, ℕ};
ghost use Rattle.std.specs.List.{AllZip};
ghost use Rattle.gw_base.specs.Keys.{Among};
ghost use Rattle.gw_table.specs.KeyLists.{IsListOf};
ghost use Rattle.gw_table.specs.Stored.{maps_of};
ghost use Rattle.gw_board.specs.Stretches.{chain_named, collected_at, place_named, AreChained, AreGathered, AreOfTheirChains, HasItsKeys, IsListedAs};
ghost use Rattle.gw_board.specs.BoardEntries.{place_of};

use crate::board_entry::{BoardEntry, is_pending};
use bumpalo::Bump;
use gw_base::{Items, Key, NoMemory, TermName};
use gw_foot::{footprint_keys, is_for_all};
use gw_table::{Tables, put_in_order};
use indexmap::IndexMap;
use std::alloc::Global;

/// Which place has each termination and each context among its keys, the last such place, and the chain of each place.
#[derive(Drop)]
pub(crate) struct Owners {
    terms: IndexMap<TermName, usize>,
    contexts: IndexMap<u32, usize>,
    chains: Vec<usize>,
}

/// Chains as far as the places are gone through: for each place an earlier one of its chain, or itself.
#[derive(Drop)]
struct Links {
    earlier: Vec<usize>,
}

impl Links {
    /// The earlier place of its chain that is known of a place, or the place itself.
    fn earlier_of(&self, place: usize) -> usize {
        match self.earlier.get(place) {
            Some(&earlier) => earlier.min(place),
            None => place,
        }
    }

    /// From now on this is the earlier place of its chain that is known of a place.
    fn set(&mut self, place: usize, earlier: usize) {
        if let Some(known) = self.earlier.get_mut(place) {
            *known = earlier;
        }
    }

    /// The first place of the chain of a place. The way there is half as long from then on.
    fn first_of(&mut self, place: usize) -> usize {
        let mut at = place;
        for _step in 0..self.earlier.len() {
            let earlier = self.earlier_of(at);
            if earlier == at {
                return at;
            }
            let next = self.earlier_of(earlier);
            self.set(at, next);
            at = next;
        }
        at
    }

    /// The chains of two places are one.
    fn join(&mut self, a: usize, b: usize) {
        let first_of_a = self.first_of(a);
        let first_of_b = self.first_of(b);
        let first = first_of_a.min(first_of_b);
        self.set(first_of_a, first);
        self.set(first_of_b, first);
    }

    /// The number of each place's chain, in the order of their first places, and how many there are.
    fn numbered(&self, alloc: Global) -> Result<(Vec<usize>, usize), NoMemory> {
        let mut numbers: Vec<usize> = Vec::with_capacity(alloc, self.earlier.len())?;
        let mut count = 0usize;
        for place in 0..self.earlier.len() {
            match numbers.get(self.earlier_of(place)) {
                Some(&number) => numbers.push(number)?,
                None => {
                    numbers.push(count)?;
                    count = count.saturating_add(1);
                }
            }
        }
        Ok((numbers, count))
    }
}

impl Owners {
    /// No place has any key.
    fn new(alloc: Global) -> Owners {
        Owners {
            terms: IndexMap::new(alloc),
            contexts: IndexMap::new(alloc),
            chains: Vec::new(alloc),
        }
    }

    /// One more place has the key: the last one that has it too, if there is one.
    fn add(&mut self, key: &Key, place: usize) -> Result<Option<usize>, NoMemory> {
        match key {
            Key::Term(name) => Ok(self.terms.insert(*name, place)?),
            Key::Ctx(number) => Ok(self.contexts.insert(number.0, place)?),
            Key::Whole => Ok(None),
        }
    }

    /// The place that has the key.
    fn place_of(&self, key: &Key) -> Option<usize>
        ensures { result ≡ place_named self.now key.now }
    {
        match key {
            Key::Term(name) => self.terms.get(name).copied(),
            Key::Ctx(number) => self.contexts.get(&number.0).copied(),
            Key::Whole => None,
        }
    }

    /// The chain that the key is of.
    fn chain_of(&self, key: &Key) -> Option<usize>
        ensures { result ≡ chain_named self.now key.now }
    {
        match self.place_of(key) {
            Some(place) => self.chains.get(place).copied(),
            None => None,
        }
    }
}

/// Which place has each key, and the chain of each place; and how many chains there are. What is answered is looked at
/// before it is believed. With n keys the work is some n log n steps at most.
fn owners_of(alloc: Global, footprints: &[Items<Key>]) -> Result<(Owners, usize), NoMemory> {
    let mut owners = Owners::new(alloc);
    let mut links = Links {
        earlier: Vec::with_capacity(alloc, footprints.len())?,
    };
    for (place, keys) in footprints.iter().enumerate() {
        links.earlier.push(place)?;
        for key in keys.as_slice() {
            if let Some(other) = owners.add(key, place)? {
                links.join(place, other);
            }
        }
    }
    let (chains, count) = links.numbered(alloc)?;
    owners.chains = chains;
    Ok((owners, count))
}

/// The keys of a place that is pending, in the tables as they are, or none where its request is whole-table. Of another
/// place none are wanted.
fn footprint_of(
    alloc: Global,
    tables: &Tables,
    board_entry: &BoardEntry<'_, '_, '_>,
) -> Result<Option<Items<Key>>, NoMemory>
    ensures { IfOk result (λ found. IfSome found (HasItsKeys (maps_of tables.now) (place_of board_entry.now))) }
{
    if !is_pending(board_entry) {
        return Ok(Some(Items::new(alloc)));
    }
    let requested = board_entry.task.get();
    let scratch = Bump::new(alloc);
    let tree = requested.request.tree(&scratch)?;
    if is_for_all(tree) {
        return Ok(None);
    }
    let keys = footprint_keys(alloc, tables, tree, &requested.owned)?;
    Ok(Some(Items::from(keys)))
}

/// The keys of each place, or none where one is whole-table.
fn footprints_of(
    alloc: Global,
    tables: &Tables,
    stretch: &[BoardEntry<'_, '_, '_>],
) -> Result<Option<Vec<Items<Key>>>, NoMemory>
    ensures { IfOk result (λ found. IfSome found (λ footprints. AllZip (HasItsKeys (maps_of tables.now)) (map place_of stretch.now) footprints.items)) }
{
    let mut footprints = Vec::with_capacity(alloc, stretch.len())?;
    for board_entry in stretch {
        let Some(keys) = footprint_of(alloc, tables, board_entry)? else {
            return Ok(None);
        };
        footprints.push(keys)?;
    }
    Ok(Some(footprints))
}

/// So many empty lists.
fn empty_lists(alloc: Global, count: usize) -> Result<Vec<Vec<Key>>, NoMemory>
    ensures { IfOk result (λ lists. length lists.items ≡ count) }
{
    let mut lists = Vec::with_capacity(alloc, count)?;
    for chain in 0..count {
        lists.push(Vec::new(alloc))?;
    }
    Ok(lists)
}

/// Keys go to the list of a chain, unless it ends with them: requests that follow one another often have the same.
fn add_to(lists: &mut Vec<Vec<Key>>, chain: usize, keys: &[Key]) -> Result<(), NoMemory>
    requires { chain < length lists.old.items }
    ensures there { OnOk result (Among keys.now (collected_at lists.new.items chain)) }
    ensures stay { OnOk result ((g : ℕ) → Among (collected_at lists.old.items g) (collected_at lists.new.items g)) }
    ensures len { length lists.new.items ≡ length lists.old.items }
{
    if lists[chain].ends_with(keys) {
        return Ok(());
    }
    let list = &mut lists[chain];
    list.extend_from_slice(keys)?;
    Ok(())
}

/// The keys of the places of each chain, as often as places have them.
fn collected(
    alloc: Global,
    footprints: &[Items<Key>],
    chains: &[usize],
    count: usize,
) -> Result<Vec<Vec<Key>>, NoMemory>
    requires as_many { length chains.now ≡ length footprints.now }
    requires numbered { All (λ g. g < count) chains.now }
    ensures gathered { IfOk result (λ lists. AreGathered lists.items chains.now footprints.now) }
    ensures len { IfOk result (λ lists. length lists.items ≡ count) }
{
    let mut lists = empty_lists(alloc, count)?;
    for place in 0..footprints.len() {
        add_to(&mut lists, chains[place], footprints[place].as_slice())?;
    }
    Ok(lists)
}

/// A list in order, with each key once.
fn listed(mut list: Vec<Key>) -> Items<Key>
    ensures { IsListOf result list.items }
{
    put_in_order(&mut list);
    Items::from(list)
}

/// The same lists, each in order, with each key once.
fn in_order(alloc: Global, lists: Vec<Vec<Key>>) -> Result<Vec<Items<Key>>, NoMemory>
    ensures { IfOk result (λ ordered. AllZip IsListedAs lists.items ordered.items) }
{
    let mut ordered = Vec::with_capacity(alloc, lists.len())?;
    for list in lists {
        ordered.push(listed(list))?;
    }
    Ok(ordered)
}

/// Whether a key is of this chain.
fn is_of_chain(owners: &Owners, key: &Key, chain: usize) -> bool
    ensures { IsTrue result → chain_named owners.now key.now ≡ Some chain }
{
    match owners.chain_of(key) {
        Some(own) => own == chain,
        None => false,
    }
}

/// Whether each of these keys is of this chain.
fn are_of_chain(owners: &Owners, keys: &[Key], chain: usize) -> bool
    ensures { IsTrue result → All (λ k. chain_named owners.now k ≡ Some chain) keys.now }
{
    for key in keys {
        if !is_of_chain(owners, key, chain) {
            return false;
        }
    }
    true
}

/// Whether each key of each chain is of that chain alone.
fn are_apart(owners: &Owners, lists: &[Items<Key>]) -> bool
    ensures { IsTrue result → AreOfTheirChains owners.now lists.now }
{
    for (chain, list) in lists.iter().enumerate() {
        if !are_of_chain(owners, list.as_slice(), chain) {
            return false;
        }
    }
    true
}

/// Whether each place is in one of so many chains.
fn are_numbered(chains: &[usize], count: usize) -> bool
    ensures { IsTrue result → All (λ g. g < count) chains.now }
{
    chains.iter().all(|chain| *chain < count)
}

/// The chains of a stretch of places: the number of each place's, from 0, and the keys of each, in order.
#[derive(Drop)]
pub(crate) struct Chains {
    pub(crate) numbers: Vec<usize>,
    pub(crate) keys: Vec<Items<Key>>,
}

/// The chains of a stretch of places, from the keys that each has in the tables as they are, or none where one of them
/// is whole-table. With n keys the work is n log n.
///
/// # Errors
///
/// Out of memory.
pub(crate) fn chains_of(
    alloc: Global,
    tables: &Tables,
    stretch: &[BoardEntry<'_, '_, '_>],
) -> Result<Option<Chains>, NoMemory>
    ensures { IfOk result (λ found. IfSome found (λ chains. AreChained chains.numbers.items chains.keys.items (maps_of tables.now) (map place_of stretch.now))) }
{
    let Some(footprints) = footprints_of(alloc, tables, stretch)? else {
        return Ok(None);
    };
    let (owners, count) = owners_of(alloc, &footprints)?;
    if owners.chains.len() != footprints.len() || !are_numbered(&owners.chains, count) {
        return Ok(None);
    }
    let lists = collected(alloc, &footprints, &owners.chains, count)?;
    let keys = in_order(alloc, lists)?;
    if !are_apart(&owners, &keys) {
        return Ok(None);
    }
    Ok(Some(Chains {
        numbers: owners.chains,
        keys,
    }))
}

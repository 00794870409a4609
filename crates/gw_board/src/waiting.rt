//! The keys of places that wait.

ghost use Rattle.std.specs.Prelude.{◌≡◌, ◌||◌, ◌&&◌, true, false, List, IfOk, OnOk};
ghost use Rattle.std.specs.List.{list_any};
ghost use Rattle.gw_base.specs.declared.key.Key.{Key as AKey};
ghost use Rattle.gw_base.specs.Keys.{has, same_key};
ghost use Rattle.gw_foot.specs.Meets.{meets};
ghost use Rattle.gw_table.specs.KeyLists.{IsInOrder};
ghost use Rattle.gw_board.specs.Waiting.{is_waiting, meet_waiting};

use gw_base::{Key, NoMemory, TermName};
use indexmap::IndexSet;
use std::alloc::Global;

/// The keys of places that wait, whether there is such a place, and whether one of them is whole-table. Then all keys
/// are waited for.
#[derive(Drop)]
pub(crate) struct Waiting {
    terms: IndexSet<TermName>,
    contexts: IndexSet<u32>,
    is_any: bool,
    is_whole: bool,
}

impl Waiting {
    /// No place waits.
    pub(crate) fn new(alloc: Global) -> Self
        ensures { (keys : List AKey) → meet_waiting result keys ≡ false }
    {
        Waiting {
            terms: IndexSet::new(alloc),
            contexts: IndexSet::new(alloc),
            is_any: false,
            is_whole: false,
        }
    }

    /// Whether a place waits.
    pub(crate) fn is_any(&self) -> bool
        ensures { result ≡ self.now.is_any }
    {
        self.is_any
    }

    /// Whether a place that waits is whole-table.
    pub(crate) fn is_whole(&self) -> bool
        ensures { result ≡ self.now.is_whole }
    {
        self.is_whole
    }

    /// Adds a key, and answers whether it was there.
    fn add_key(&mut self, key: &Key) -> Result<bool, NoMemory>
        ensures had { IfOk result (λ had. had ≡ is_waiting self.old key.now) }
        ensures keys { OnOk result ((k : AKey) → is_waiting self.new k ≡ (same_key k key.now || is_waiting self.old k)) }
        ensures any { self.new.is_any ≡ self.old.is_any }
    {
        match key {
            Key::Term(name) => Ok(!self.terms.insert(*name)?),
            Key::Ctx(number) => Ok(!self.contexts.insert(number.0)?),
            Key::Whole => {
                let had = self.is_whole;
                self.is_whole = true;
                Ok(had)
            }
        }
    }

    /// Adds keys in order, and answers whether one of them was there.
    fn add_keys(&mut self, keys: &[Key]) -> Result<bool, NoMemory>
        requires { IsInOrder keys.now }
        ensures had { IfOk result (λ had. had ≡ list_any (is_waiting self.old) keys.now) }
        ensures keys { OnOk result ((k : AKey) → is_waiting self.new k ≡ (has keys.now k || is_waiting self.old k)) }
        ensures any { self.new.is_any ≡ self.old.is_any }
    {
        let mut had = false;
        for key in keys {
            had |= self.add_key(key)?;
        }
        Ok(had)
    }

    /// One more place waits, which is whole-table.
    pub(crate) fn add_whole(&mut self)
        ensures { (k : List AKey) → meet_waiting self.new k ≡ true }
    {
        self.is_any = true;
        self.is_whole = true;
    }

    /// One more place waits, with these keys in order: whether they meet those of a place that waits already. A key
    /// takes one insertion.
    pub(crate) fn add(&mut self, keys: &[Key]) -> Result<bool, NoMemory>
        requires { IsInOrder keys.now }
        ensures met { IfOk result (λ met. met ≡ meet_waiting self.old keys.now) }
        ensures more { OnOk result ((k : List AKey) → meet_waiting self.new k ≡ (meet_waiting self.old k || meets keys.now k)) }
    {
        let was_any = self.is_any;
        let was_whole = self.is_whole;
        self.is_any = true;
        let had = self.add_keys(keys)?;
        Ok(had | was_whole | (was_any & self.is_whole))
    }
}

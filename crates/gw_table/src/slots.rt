//! Places for entries: made for keys that may get an entry, and swept where none came.

ghost use Rattle.std.specs.Prelude.{◌≡◌, ℕ, true, false, List, [], ◌∷◌, None, OnOk, OnErr};
ghost use Rattle.std.specs.BTreeMap.{is_at};
ghost use Rattle.std.specs.FinMap as finite;
ghost use Rattle.std.specs.Map.{lookup};
ghost use Rattle.std.specs.Ordering.{nat_cmp};
ghost use Rattle.gw_base.specs.declared.key.Key.TheVariants.{Term, Ctx};
ghost use Rattle.gw_table.specs.Parts.{list_of};
ghost use Rattle.gw_table.specs.Stored.{maps_of, is_out, visible, if_visible, ArePrepared, AreAsOut, AreIn, AreReady, KeepReady, NoOtherReady, NoneIsOut, AreSwept, AreSweptAt, WereSwept};

use crate::keys::Keys;
use crate::part::Part;
use crate::place::{Place, is_vacant};
use crate::row::{Row, place_at};
use crate::rows::{Guide, Rows, guide_at, set_guide};
use crate::tables::Tables;
use gw_base::{CtxNum, Key, NoMemory, TermName};
use gw_ctx::Context;

/// Whether no context stands in any of these places.
fn none_stands(contexts: &Rows<u32, Context>) -> bool
    ensures { result ≡ true → (n : ℕ) → visible (lookup (is_at (nat_cmp n)) contexts.now.entries) ≡ None }
{
    for (_, row) in contexts {
        if row.is_here() {
            return false;
        }
    }
    true
}

impl Tables {
    /// Makes a place for a termination, if it has none, and answers where it is. A refused allocation changes nothing.
    fn prepare_term(&mut self, name: TermName) -> Result<Guide, NoMemory>
        ensures ok { OnOk result (ArePrepared (Term name ∷ []) self.old self.new) }
        ensures err { OnErr result (self.new ≡ self.old) }
    {
        if let Some(guide) = self.terms.find(&name) {
            return Ok(guide);
        }
        let guide = self.terms.next_guide();
        self.terms.insert(name, Row::of(Place::Empty))?;
        Ok(guide)
    }

    /// Makes a place for a context, if it has none, and answers where it is. A refused allocation changes nothing.
    fn prepare_ctx(&mut self, number: CtxNum) -> Result<Guide, NoMemory>
        ensures ok { OnOk result (ArePrepared (Ctx number ∷ []) self.old self.new) }
        ensures err { OnErr result (self.new ≡ self.old) }
    {
        if let Some(guide) = self.contexts.find(&number.0) {
            return Ok(guide);
        }
        let guide = self.contexts.next_guide();
        self.contexts.insert(number.0, Row::of(Place::Empty))?;
        Ok(guide)
    }

    /// Makes a place for a key, if it has none, and answers where it is. A refused allocation changes nothing.
    fn prepare_key(&mut self, key: Key) -> Result<Guide, NoMemory>
        ensures ok { OnOk result (ArePrepared (key ∷ []) self.old self.new) }
        ensures err { OnErr result (self.new ≡ self.old) }
    {
        match key {
            Key::Term(name) => self.prepare_term(name),
            Key::Ctx(number) => self.prepare_ctx(number),
            Key::Whole => Ok(Guide::none()),
        }
    }

    /// Prepares a place for each key, and sets its guide, if the list has one.
    fn prepare_each(&mut self, keys: &[Key], guides: &mut [Guide]) -> Result<(), NoMemory>
        ensures maps { maps_of self.new ≡ maps_of self.old }
        ensures out { AreAsOut self.old self.new }
        ensures kept { KeepReady self.old self.new }
        ensures ready { OnOk result (AreReady keys.now self.new) }
        ensures alone { NoOtherReady keys.now self.old self.new }
    {
        for (i, key) in keys.iter().enumerate() {
            let guide = self.prepare_key(*key)?;
            set_guide(guides, i, guide);
        }
        Ok(())
    }

    /// Prepares a place for each key, which stays prepared until `sweep` or `sweep_part`. The entries stay as they
    /// are. A key takes one look-up, and one more where its row is made.
    ///
    /// # Errors
    ///
    /// Out of memory. Some of the keys may then be prepared, and nothing else has changed.
    pub fn reserve_slots(&mut self, keys: &[Key]) -> Result<(), NoMemory>
        ensures maps { maps_of self.new ≡ maps_of self.old }
        ensures out { AreAsOut self.old self.new }
        ensures kept { KeepReady self.old self.new }
        ensures ready { OnOk result (AreReady keys.now self.new) }
        ensures alone { NoOtherReady keys.now self.old self.new }
    {
        self.prepare_each(keys, &mut [])
    }

    /// Prepares a place for each of the keys, as `reserve_slots` does, and the keys remember where: `take_out` then
    /// needs no look-up, nor does what is done with the part.
    ///
    /// # Errors
    ///
    /// Out of memory. Some of the keys may then be prepared, and nothing else has changed.
    pub fn prepare(&mut self, keys: &mut Keys) -> Result<(), NoMemory>
        ensures maps { maps_of self.new ≡ maps_of self.old }
        ensures out { AreAsOut self.old self.new }
        ensures kept { KeepReady self.old self.new }
        ensures ready { OnOk result (AreReady keys.old self.new) }
        ensures alone { NoOtherReady keys.old self.old self.new }
        ensures keys { keys.new ≡ keys.old }
    {
        self.prepare_each(&keys.list, &mut keys.guides)
    }

    /// Ends the preparation of a name, if it has no termination. The caller knows that it is not out. The guide is
    /// looked at first.
    pub(crate) fn sweep_term(&mut self, guide: Guide, name: &TermName)
        requires { is_out self.old (Term name.now) ≡ false }
        ensures { WereSwept (Term name.now ∷ []) self.old self.new }
    {
        if is_vacant(place_at(self.terms.get_at(guide, name))) {
            self.terms.remove(name);
        }
    }

    /// Ends the preparation of a number, if it has no context. The caller knows that it is not out. The guide is
    /// looked at first.
    pub(crate) fn sweep_ctx(&mut self, guide: Guide, number: CtxNum)
        requires { is_out self.old (Ctx number) ≡ false }
        ensures { WereSwept (Ctx number ∷ []) self.old self.new }
    {
        if is_vacant(place_at(self.contexts.get_at(guide, &number.0))) {
            self.contexts.remove(&number.0);
        }
    }

    /// Ends the preparation of a key, if it has no entry. The caller knows that it is not out.
    fn sweep_key(&mut self, guide: Guide, key: &Key)
        requires { is_out self.old key.now ≡ false }
        ensures { WereSwept (key.now ∷ []) self.old self.new }
    {
        match key {
            Key::Term(name) => self.sweep_term(guide, name),
            Key::Ctx(number) => self.sweep_ctx(guide, *number),
            Key::Whole => {}
        }
    }

    /// Ends the preparation of those of the keys that have no entry, and of no other key.
    fn sweep_each(&mut self, keys: &[Key], guides: &[Guide])
        requires { AreIn keys.now self.old }
        ensures { WereSwept keys.now self.old self.new }
    {
        for (i, key) in keys.iter().enumerate() {
            self.sweep_key(guide_at(guides, i), key);
        }
    }

    /// Ends the preparation of those keys of the part that have no entry here, and of no other key. The caller knows
    /// that none of them is out. A key takes one look-up, or none where its guide is right, and one more where its row
    /// is freed. No memory is taken.
    pub fn sweep_part(&mut self, part: &Part)
        requires { AreIn (list_of part.now.keys) self.old }
        ensures maps { maps_of self.new ≡ maps_of self.old }
        ensures out { AreAsOut self.old self.new }
        ensures ready { AreSweptAt (list_of part.now.keys) self.old self.new }
    {
        self.sweep_each(part.keys(), &part.guides);
    }

    /// Ends the preparation of names without a termination.
    fn sweep_terms(&mut self)
        ensures terms { (t : List ℕ) → finite.get self.new.terms t ≡ if_visible (finite.get self.old.terms t) }
        ensures contexts { self.new.contexts ≡ self.old.contexts }
    {
        self.terms.sweep();
    }

    /// Ends the preparation of numbers without a context. Where there is no context, all places go at once.
    fn sweep_contexts(&mut self)
        ensures terms { self.new.terms ≡ self.old.terms }
        ensures contexts { (n : ℕ) → finite.get self.new.contexts n ≡ if_visible (finite.get self.old.contexts n) }
    {
        if none_stands(&self.contexts) {
            self.contexts.clear();
            return;
        }
        self.contexts.sweep();
    }

    /// Ends the preparation of keys without an entry. The caller knows that no key is out. The work is one pass over
    /// all places.
    pub fn sweep(&mut self)
        requires { NoneIsOut self.old }
        ensures maps { maps_of self.new ≡ maps_of self.old }
        ensures out { NoneIsOut self.new }
        ensures ready { AreSwept self.new }
    {
        self.sweep_terms();
        self.sweep_contexts();
    }
}

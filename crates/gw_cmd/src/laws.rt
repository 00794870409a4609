//! What follows from the definitions alone.

ghost use Rattle.std.specs.Prelude.{Bool, ◌≡◌, ◌∷◌, [], ℕ, List, nat_eq, true, false, is_some, Option};
ghost use Rattle.gw_base.specs.Addresses.{IsAddress};
ghost use Rattle.gw_base.specs.declared.code.Code.TheVariants.{UnknownContext, UnknownTermination};
ghost use Rattle.gw_base.specs.declared.command_words.Verb.TheVariants.{Add, Move};
ghost use Rattle.gw_base.specs.declared.term_ref.TermRef.TheVariants.{Name};
ghost use Rattle.gw_base.specs.declared.ids.CtxNum.{CtxNum};
ghost use Rattle.gw_base.specs.declared.key.Key.{Key};
ghost use Rattle.gw_base.specs.declared.key.Key.TheVariants.{Term, Ctx, Whole};
ghost use Rattle.gw_base.specs.Keys.{has, AreApart};
ghost use Rattle.gw_base.specs.NameLists.{is_in};
ghost use Rattle.gw_desc.specs.declared.descriptor.Descriptor.{Descriptor};
ghost use Rattle.gw_base.specs.declared.command_words.Rules.{Rules};
ghost use Rattle.gw_msg.specs.declared.message.Command.{Command};
ghost use Rattle.gw_table.specs.Locality.{KeepsTo, ChangePlaces};
ghost use Rattle.gw_table.specs.Maps.{Maps, term, ctx, place_of, members_of};
ghost use Rattle.gw_table.specs.WellFormed.{AreWellFormed};
ghost use Rattle.gw_refusal.specs.declared.at.At.{At};
ghost use Rattle.gw_cmd.specs.KeptForms.{AreKept, IsRequested, IsSlot, KeepsForms};
ghost use Rattle.gw_refusal.specs.declared.at.At.TheVariants.{Live};
ghost use Rattle.gw_cmd.specs.Commands.{reply, outcome_of, command};
ghost use Rattle.gw_cmd.specs.Needs.{named, named_with};
ghost use Rattle.gw_table.specs.Parts.{restricted, overlaid};
ghost use Rattle.gw_cmd.specs.Keys.{command_keys, is_for_all};
ghost use Rattle.gw_cmd.specs.Suits.{IsUnused};

/// A command leaves well-formed tables well-formed.
pub fn commands_keep_tables_well_formed()
    ensures { (rules : Rules) (at : At) (slot : Option ℕ) (c : Command) (m : Maps) → IsUnused slot m → AreWellFormed rules.members m → AreWellFormed rules.members (command rules at slot c m).maps }
{}

/// A command whose TerminationID and descriptors have their forms leaves tables whose names are names and whose kept
/// texts have their forms, and its replies have such names and texts.
pub fn commands_keep_forms()
    ensures { (rules : Rules) (at : At) (slot : Option ℕ) (c : Command) (m : Maps) → IsAddress rules.media → IsSlot slot → IsRequested c → AreKept m → KeepsForms (command rules at slot c m) }
{}

/// A command in well-formed tables keeps to its keys: on their entries alone it gives the same replies, its new entries
/// put over the maps are the new maps, and each entry at another key stays.
pub fn commands_keep_to_their_keys()
    ensures { (rules : Rules) (at : At) (slot : Option ℕ) (c : Command) (m : Maps) → AreWellFormed rules.members m → KeepsTo (command_keys at slot c m) (command rules at slot c) m }
{}

/// Two commands whose keys do not meet give the same maps in either order, and each the same replies.
pub fn commands_on_other_keys_change_places()
    ensures { (rules : Rules) (m : Maps) (at : At) (slot : Option ℕ) (c : Command) (other_at : At) (other_slot : Option ℕ) (d : Command) → AreWellFormed rules.members m → AreApart (command_keys at slot c m) (command_keys other_at other_slot d m) → ChangePlaces (command rules at slot c) (command rules other_at other_slot d) m }
{}

/// The whole of the tables is among the keys of a command exactly where the command is for all.
pub fn the_whole_is_a_key_of_commands_for_all()
    ensures { (at : At) (slot : Option ℕ) (c : Command) (m : Maps) → has (command_keys at slot c m) Whole ≡ is_for_all at c }
{}

/// Keys that cannot be left out. Without the key of its context an Add is answered that there is no such context, and
/// without that of its termination that there is no such termination. After a Move without the key of the context that
/// the termination was in, the termination still stands in that context, where in truth it has left it.
pub fn keys_are_needed()
    ensures context { (rules : Rules) (n : CtxNum) (t : List ℕ) (ds : List Descriptor) (m : Maps) (keys : List Key) (slot : Option ℕ) (optional wild : Bool) → has keys (Ctx n) ≡ false
        → (command rules (Live n) slot (named_with optional wild Add t ds) (restricted keys m)).answer ≡ outcome_of (Live n) (reply (named_with optional wild Add t ds) (Name t) (Err UnknownContext) ∷ []) }
    ensures termination { (rules : Rules) (n : CtxNum) (t : List ℕ) (ds : List Descriptor) (m : Maps) (keys : List Key) (slot : Option ℕ) (optional wild : Bool) → has keys (Ctx n) ≡ true → is_some (ctx m n) ≡ true → has keys (Term t) ≡ false
        → (command rules (Live n) slot (named_with optional wild Add t ds) (restricted keys m)).answer ≡ outcome_of (Live n) (reply (named_with optional wild Add t ds) (Name t) (Err UnknownTermination) ∷ []) }
    ensures moved { (rules : Rules) (n : CtxNum) (t : List ℕ) (ds : List Descriptor) (m : Maps) (p : CtxNum) (keys : List Key) → AreWellFormed rules.members m → place_of (term m t) ≡ Some p → nat_eq p.0 n.0 ≡ false
        → (command rules (Live n) None (named Move t ds) m).answer.failed ≡ false → has keys (Ctx p) ≡ false
        → (is_in t (members_of (ctx (overlaid keys (command rules (Live n) None (named Move t ds) (restricted keys m)).maps m) p)) ≡ true)
        × (is_in t (members_of (ctx (command rules (Live n) None (named Move t ds) m).maps p)) ≡ false) }
{}

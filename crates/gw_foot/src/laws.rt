//! What follows from the definitions alone.

ghost use Rattle.std.specs.Prelude.{◌≡◌, ◌++◌, ℕ, List, Option, true, false};
ghost use Rattle.gw_base.specs.declared.command_words.Rules.{Rules};
ghost use Rattle.gw_base.specs.declared.key.Key.{Key};
ghost use Rattle.gw_base.specs.declared.key.Key.TheVariants.{Whole};
ghost use Rattle.gw_base.specs.Keys.{has, Among, AreApart};
ghost use Rattle.gw_msg.specs.declared.message.Request.{Request};
ghost use Rattle.gw_table.specs.Locality.{KeepsTo, ChangePlaces};
ghost use Rattle.gw_table.specs.Maps.{Maps};
ghost use Rattle.gw_table.specs.Parts.{Every, restricted, cut, overlaid};
ghost use Rattle.gw_table.specs.WellFormed.{IsSound, AreWellFormed};
ghost use Rattle.gw_reserve.specs.declared.owned.Owned.{Owned};
ghost use Rattle.gw_reserve.specs.Ids.{Ids};
ghost use Rattle.gw_reserve.specs.Owned.{OwnedAction, AreFreeSlots, with_ids, paired};
ghost use Rattle.gw_tx.specs.Footprints.{footprint_of, Covers};
ghost use Rattle.gw_tx.specs.Transactions.{paired_transaction, transaction};
ghost use Rattle.gw_foot.specs.OwnsUnused.{OwnsUnused, OwnOthers};
ghost use Rattle.gw_foot.specs.Meets.{meets};
ghost use Rattle.gw_foot.specs.PartOf.{part_of};

/// Keys do not meet exactly where no key is in both and neither is whole-table.
pub fn keys_that_do_not_meet_are_apart()
    ensures apart { (a b : List Key) → meets a b ≡ false → AreApart a b }
    ensures only { (a b : List Key) → AreApart a b → meets a b ≡ false }
{}

/// A request is paired with what is its own alone where the slots that it owns are distinct and unused, by the `$` that
/// own them or by an entry for each action and each command; a transaction is that of the request so paired. What
/// others own that have no slot in common with it stays unused after it.
pub fn requests_own_what_is_unused()
    ensures choices { (r : Request) (ids : Ids) (m : Maps) → AreFreeSlots m ids.slots → OwnsUnused m r (with_ids r ids) }
    ensures entries { (r : Request) (owned : Owned) (m : Maps) → AreFreeSlots m owned.slots → OwnsUnused m r (paired r owned) }
    ensures same { (rules : Rules) (r : Request) (ids : Ids) (m : Maps) → transaction rules r ids m ≡ paired_transaction rules r (with_ids r ids) m }
    ensures others { (rules : Rules) (r : Request) (owners : List OwnedAction) (m : Maps) (mine : OwnsUnused m r owners) (other : Request) (others : List OwnedAction) (theirs : OwnsUnused m other others) → OwnOthers mine.slots theirs.slots → OwnsUnused (paired_transaction rules r owners m).maps other others }
{}

/// A part of sound tables whose keys hold a request's footprint there covers the request, and the slots that are unused
/// in the tables are unused in the part.
pub fn a_part_with_its_footprint_covers_a_request()
    ensures covers { (keys : List Key) (owners : List OwnedAction) (m : Maps) → IsSound Every m → Among (footprint_of owners m) keys → Covers (part_of keys m) (footprint_of owners (restricted keys m)) }
    ensures unused { (keys : List Key) (slots : List (Option ℕ)) (m : Maps) → AreFreeSlots m slots → AreFreeSlots (restricted keys m) slots }
{}

/// A transaction in well-formed tables keeps to its footprint: on the entries of these keys alone it gives the same
/// reply, its new entries put over the maps are the new maps, and each entry at another key stays. So it does to keys
/// that hold its footprint, and are whole-table only where that has it: taken out as a part, executed there and put
/// back, it leaves the maps that it leaves on the whole. The new maps are well-formed.
pub fn requests_keep_to_their_keys()
    ensures keeps { (rules : Rules) (r : Request) (owners : List OwnedAction) (m : Maps) → AreWellFormed rules.members m → OwnsUnused m r owners → KeepsTo (footprint_of owners m) (paired_transaction rules r owners) m }
    ensures holding { (rules : Rules) (r : Request) (owners : List OwnedAction) (m : Maps) → AreWellFormed rules.members m → OwnsUnused m r owners → (keys : List Key) → Among (footprint_of owners m) keys → (has keys Whole ≡ true → has (footprint_of owners m) Whole ≡ true) → KeepsTo keys (paired_transaction rules r owners) m }
    ensures put_back { (rules : Rules) (r : Request) (owners : List OwnedAction) (m : Maps) → AreWellFormed rules.members m → OwnsUnused m r owners → (keys : List Key) → Among (footprint_of owners m) keys → (has keys Whole ≡ true → has (footprint_of owners m) Whole ≡ true) → overlaid keys (paired_transaction rules r owners (restricted keys m)).maps (cut keys m) ≡ (paired_transaction rules r owners m).maps }
    ensures well_formed { (rules : Rules) (r : Request) (owners : List OwnedAction) (m : Maps) → AreWellFormed rules.members m → OwnsUnused m r owners → AreWellFormed rules.members (paired_transaction rules r owners m).maps }
{}

/// After a request, the footprint of another lies within both from before it.
pub fn keys_after_another()
    ensures { (rules : Rules) (r : Request) (owners : List OwnedAction) (m : Maps) → AreWellFormed rules.members m → OwnsUnused m r owners → (others : List OwnedAction) → Among (footprint_of others (paired_transaction rules r owners m).maps) (footprint_of owners m ++ footprint_of others m) }
{}

/// Two requests whose footprints do not meet: that of the one is the same after the other, and either order gives the
/// same maps and the same two replies.
pub fn requests_on_other_keys_change_places()
    ensures keys { (rules : Rules) (r : Request) (owners : List OwnedAction) (m : Maps) → AreWellFormed rules.members m → OwnsUnused m r owners → (others : List OwnedAction) → AreApart (footprint_of owners m) (footprint_of others m) → footprint_of others (paired_transaction rules r owners m).maps ≡ footprint_of others m }
    ensures places { (rules : Rules) (m : Maps) (a : Request) (owners : List OwnedAction) (b : Request) (others : List OwnedAction) → AreWellFormed rules.members m → OwnsUnused m a owners → OwnsUnused m b others → AreApart (footprint_of owners m) (footprint_of others m) → ChangePlaces (paired_transaction rules a owners) (paired_transaction rules b others) m }
{}

/// While other keys' entries are out, a footprint that meets none of them is the one in the whole tables, and so is the
/// part of keys; and slots that are unused in the whole are unused.
pub fn footprints_are_the_same_while_others_are_out()
    ensures keys { (owners : List OwnedAction) (out : List Key) (m : Maps) → AreApart (footprint_of owners (cut out m)) out → footprint_of owners m ≡ footprint_of owners (cut out m) }
    ensures part { (keys out : List Key) (m : Maps) → AreApart keys out → restricted keys (cut out m) ≡ restricted keys m }
    ensures unused { (out : List Key) (slots : List (Option ℕ)) (m : Maps) → AreFreeSlots m slots → AreFreeSlots (cut out m) slots }
{}

//! What follows from the definitions alone.

ghost use Rattle.std.specs.Prelude.{◌≡◌, ℕ, ◌<◌, ◌^◌, true, List};
ghost use Rattle.gw_base.specs.declared.key.Key.{Key};
ghost use Rattle.gw_table.specs.Maps.{Maps};
ghost use Rattle.gw_table.specs.Parts.{Every, Only, IsPart, restricted, cut, overlaid};
ghost use Rattle.gw_table.specs.Reserved.{is_reserved, slot_name};
ghost use Rattle.gw_table.specs.WellFormed.{IsSound, AreWellFormed};

/// A part of sound tables is sound and has no entry but at its keys; well-formed tables are sound.
pub fn sound_part()
    ensures part { (keys : List Key) (m : Maps) → IsSound Every m → IsSound (Only keys) (restricted keys m) }
    ensures entries { (keys : List Key) (m : Maps) → IsPart (Only keys) (restricted keys m) }
    ensures whole { (limit : ℕ) (m : Maps) → AreWellFormed limit m → IsSound Every m }
{}

/// A part that is taken out and put back changes nothing.
pub fn part_put_back()
    ensures { (keys : List Key) (m : Maps) → overlaid keys (restricted keys m) (cut keys m) ≡ m }
{}

/// Different slots have different names, which are the gateway's own to give.
pub fn slots_have_names_of_their_own()
    ensures apart { (s t : ℕ) → s < 2 ^ 16 → t < 2 ^ 16 → slot_name s ≡ slot_name t → s ≡ t }
    ensures reserved { (s : ℕ) → is_reserved (slot_name s) ≡ true }
{}

//! What follows from the definitions alone: how the classes, which follow from keys and acknowledgements before
//! anything is executed, fit what is kept while the burst is executed. In each law `k` is kept at the burst's start,
//! with a key of its own in each pair, and `cs` are the changes so far, so `kept_after k cs` is kept at that point,
//! and `entries_in cs` are the pairs of the new requests so far.

ghost use Rattle.std.specs.Prelude.{◌≡◌, ◌≢◌, ℕ, ◌<◌, ◌≤◌, ◌∷◌, ◌++◌, [], List, None, Some, length, true, false};
ghost use Rattle.gw_kept.specs.declared.entry.Entry.{Entry};
ghost use Rattle.gw_kept.specs.declared.entry.RequestKey.{RequestKey as Key};
ghost use Rattle.gw_kept.specs.declared.point.Point.{Point as Item};
ghost use Rattle.gw_kept.specs.declared.point.Point.TheVariants as item;
ghost use Rattle.gw_kept.specs.declared.point.Removal.{Removal as Ack};
ghost use Rattle.gw_kept.specs.declared.class.Source.{Source as Origin};
ghost use Rattle.gw_kept.specs.declared.class.Class.TheVariants.{New, Repeat, Over, Nothing};
ghost use Rattle.gw_kept.specs.Pairs.{KeptList, key_of, bytes_for, AreDistinct};
ghost use Rattle.gw_kept.specs.Forgotten.{is_named, forgotten};
ghost use Rattle.gw_kept.specs.Changes.{Change, Keep, Remove, changed, kept_after, entries_in, AreNew};
ghost use Rattle.gw_kept.specs.Classes.{most_new, classes_of};
ghost use Rattle.gw_kept.specs.Repeats.{class_after, classes_after, bytes_of};

/// A repeat's key has a pair among those kept at that point, and the bytes of that pair are those that its source
/// names. So they can be sent without looking through the list.
pub fn repeats_get_kept_replies()
    ensures { (k : KeptList) (cs : List Change) (key : Key) (source : Origin) → AreDistinct k.pairs → AreNew k cs → class_after k cs key ≡ Repeat source
        → (bytes : List ℕ) × (bytes_of source k (entries_in cs) ≡ Some bytes) × (bytes_for key (kept_after k cs).pairs ≡ Some bytes) }
{}

/// A request that is no repeat has no pair among those kept at that point: it is new if fewer than 1,024 new ones
/// came before it, and over otherwise.
pub fn what_is_no_repeat_is_not_kept()
    ensures new { (k : KeptList) (cs : List Change) (key : Key) → AreDistinct k.pairs → AreNew k cs → class_after k cs key ≡ New → (bytes_for key (kept_after k cs).pairs ≡ None) × (length (entries_in cs) < most_new) }
    ensures over { (k : KeptList) (cs : List Change) (key : Key) → AreDistinct k.pairs → AreNew k cs → class_after k cs key ≡ Over → (bytes_for key (kept_after k cs).pairs ≡ None) × (most_new ≤ length (entries_in cs)) }
    ensures nothing { (k : KeptList) (cs : List Change) (key : Key) → class_after k cs key ≢ Nothing }
{}

/// The classes of a burst, one item after another: the reply of a new request counts from the next item on, what an
/// acknowledgement names is gone from the next item on, and nothing else changes what counts.
pub fn classes_go_in_turn()
    ensures start { (k : KeptList) (items : List Item) → classes_of k items ≡ classes_after k [] items }
    ensures nothing { (k : KeptList) (cs : List Change) (rest : List Item) → classes_after k cs (item.Nothing ∷ rest) ≡ Nothing ∷ classes_after k cs rest }
    ensures acknowledged { (k : KeptList) (cs : List Change) (r : Ack) (rest : List Item) → classes_after k cs (item.Ack r ∷ rest) ≡ Nothing ∷ classes_after k (cs ++ Remove r ∷ []) rest }
    ensures new { (k : KeptList) (cs : List Change) (e : Entry) (rest : List Item) → class_after k cs (key_of e) ≡ New → classes_after k cs (item.Request (key_of e) ∷ rest) ≡ New ∷ classes_after k (cs ++ Keep e ∷ []) rest }
    ensures other { (k : KeptList) (cs : List Change) (key : Key) (rest : List Item) → class_after k cs key ≢ New → classes_after k cs (item.Request key ∷ rest) ≡ class_after k cs key ∷ classes_after k cs rest }
{}

/// Keys stay distinct when changes are made; the reply of a new request may be kept next.
pub fn new_pairs_have_keys_of_their_own()
    ensures distinct { (k : KeptList) (cs : List Change) → AreDistinct k.pairs → AreNew k cs → AreDistinct (kept_after k cs).pairs }
    ensures new { (k : KeptList) (cs : List Change) (e : Entry) → AreDistinct k.pairs → AreNew k cs → class_after k cs (key_of e) ≡ New → AreNew k (cs ++ Keep e ∷ []) }
{}

/// Changes are made one after another, and never more pairs stay than are kept at most.
pub fn changes_go_in_turn()
    ensures turn { (k : KeptList) (cs : List Change) (c : Change) → kept_after k (cs ++ c ∷ []) ≡ changed (kept_after k cs) c }
    ensures few { (k : KeptList) (cs : List Change) → length k.pairs ≤ k.most → length (kept_after k cs).pairs ≤ k.most }
    ensures most { (k : KeptList) (cs : List Change) → (kept_after k cs).most ≡ k.most }
{}

/// What an acknowledgement names is not kept any more, whatever was kept before; any other key's reply is as it was.
pub fn what_is_acknowledged_is_not_kept()
    ensures named { (k : KeptList) (r : Ack) (key : Key) → is_named r.mid r.ranges key ≡ true → bytes_for key (forgotten k r.mid r.ranges).pairs ≡ None }
    ensures other { (k : KeptList) (r : Ack) (key : Key) → is_named r.mid r.ranges key ≡ false → bytes_for key (forgotten k r.mid r.ranges).pairs ≡ bytes_for key k.pairs }
{}

//! What follows from the definitions alone.

ghost use Rattle.std.specs.Prelude.{◌≡◌, ◌≢◌, ◌<◌, ◌++◌, ◌∷◌, ℕ, List, [], Option, All, Ok as Read};
ghost use Rattle.std.specs.List.{list_any};
ghost use Rattle.gw_base.specs.Addresses.{IsAddress};
ghost use Rattle.gw_base.specs.Mids.{IsMid};
ghost use Rattle.gw_base.specs.declared.command_words.Rules.{Rules};
ghost use Rattle.gw_base.specs.Keys.{has};
ghost use Rattle.gw_base.specs.declared.ids.CtxNum.{CtxNum};
ghost use Rattle.gw_reserve.specs.Ids.{Ids};
ghost use Rattle.gw_base.specs.declared.key.Key.{Key};
ghost use Rattle.gw_base.specs.declared.key.Key.TheVariants.{Whole};
ghost use Rattle.gw_msg.specs.Grammar.{SpellsRequest};
ghost use Rattle.gw_msg.specs.Reading.{message_of};
ghost use Rattle.gw_msg.specs.declared.message.Command.{Command};
ghost use Rattle.gw_msg.specs.declared.message.Request.{Request};
ghost use Rattle.gw_reply.specs.Messages.{reply_text};
ghost use Rattle.gw_reply_law.specs.Spellings.{IsReplyMessage, reply_message};
ghost use Rattle.gw_cmd.specs.KeptForms.{AreKept};
ghost use Rattle.gw_cmd.specs.Keys.{command_keys};
ghost use Rattle.gw_refusal.specs.declared.at.At.{At};
ghost use Rattle.gw_table.specs.Maps.{Maps, term, ctx};
ghost use Rattle.gw_table.specs.Reserved.{slot_name};
ghost use Rattle.gw_table.specs.Unused.{owned, AreUnused};
ghost use Rattle.gw_table.specs.WellFormed.{AreWellFormed};
ghost use Rattle.gw_tx.specs.Footprints.{footprint_of, is_whole_table, alone};
ghost use Rattle.gw_tx.specs.KeptForms.{AreSlots, IsReadRequest};
ghost use Rattle.gw_reserve.specs.Owned.{OwnedAction, AreFreeSlots};
ghost use Rattle.gw_tx.specs.Transactions.{transaction};

/// A transaction leaves well-formed tables well-formed, where the slots that it owns are unused in them.
pub fn transactions_keep_tables_well_formed()
    ensures { (rules : Rules) (r : Request) (ids : Ids) (m : Maps) → AreFreeSlots m ids.slots → AreWellFormed rules.members m → AreWellFormed rules.members (transaction rules r ids m).maps }
{}

/// A transaction makes no termination but in its own slots: those that later requests own stay free.
pub fn later_slots_stay_free()
    ensures { (rules : Rules) (r : Request) (ids : Ids) (m : Maps) (later : List ℕ) → AreUnused m [] (owned ids.slots ++ later) → AreUnused (transaction rules r ids m).maps [] later }
{}

/// What others own stays free, whichever transaction comes first. A slot that is not the transaction's own has no
/// termination after it where it had none before, and a number that is not its own no context.
pub fn what_others_own_stays_free()
    ensures slots { (rules : Rules) (r : Request) (ids : Ids) (m : Maps) (s : ℕ) → AreFreeSlots m ids.slots → s < 4096 → All (λ t. t ≢ s) (owned ids.slots) → term m (slot_name s) ≡ None → term (transaction rules r ids m).maps (slot_name s) ≡ None }
    ensures numbers { (n : CtxNum) (rules : Rules) (r : Request) (ids : Ids) (m : Maps) → AreFreeSlots m ids.slots → All (λ k. k ≢ n) (owned ids.contexts) → ctx m n ≡ None → ctx (transaction rules r ids m).maps n ≡ None }
{}

/// The keys of a command are those of a request of its own; and a request has every key exactly where one of its
/// actions is for each context, or one of its commands for all terminations or for those of the null context.
pub fn keys_of_requests()
    ensures command { (at : At) (slot : Option ℕ) (c : Command) (m : Maps) (k : Key) → has (footprint_of (alone at slot c ∷ []) m) k ≡ has (command_keys at slot c m) k }
    ensures whole { (m : Maps) (actions : List OwnedAction) → has (footprint_of actions m) Whole ≡ list_any is_whole_table actions }
{}

/// What this gateway sends can be read. A request of the grammar has TerminationIDs and descriptors of their forms;
/// such a request leaves tables whose names are names and whose kept texts have their forms; and the text of its
/// reply is a message from this mId whose one item is the reply of that number, and is read as a message with one
/// item.
pub fn answers_can_be_read()
    ensures requested { (r : Request) (text : List ℕ) → SpellsRequest r text → IsReadRequest r }
    ensures kept { (rules : Rules) (r : Request) (ids : Ids) (m : Maps) → IsAddress rules.media → AreSlots ids → IsReadRequest r → AreKept m → AreKept (transaction rules r ids m).maps }
    ensures message { (mid : List ℕ) (rules : Rules) (r : Request) (ids : Ids) (m : Maps) → IsMid mid → IsAddress rules.media → AreSlots ids → IsReadRequest r → AreKept m → IsReplyMessage mid r.id.0 (reply_text mid (transaction rules r ids m).answer) }
    ensures read { (mid : List ℕ) (rules : Rules) (r : Request) (ids : Ids) (m : Maps) → IsMid mid → IsAddress rules.media → AreSlots ids → IsReadRequest r → AreKept m → message_of (reply_text mid (transaction rules r ids m).answer) ≡ Read (reply_message mid) }
{}

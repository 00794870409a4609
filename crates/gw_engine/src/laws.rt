//! What follows from the definitions alone.

ghost use Rattle.std.specs.Prelude.{◌≡◌, ℕ, List, Ok as Read};
ghost use Rattle.gw_kept.specs.Changes.{AreNew};
ghost use Rattle.gw_kept.specs.Pairs.{AreDistinct};
ghost use Rattle.gw_msg.specs.Reading.{message_of};
ghost use Rattle.gw_reply_law.specs.Spellings.{IsReplyMessage, reply_message};
ghost use Rattle.gw_engine.specs.Bursts.{burst_outcome};
ghost use Rattle.gw_engine.specs.Phases.{phased};
ghost use Rattle.gw_engine.specs.Readable.{IsErrorMessage, error_message};
ghost use Rattle.gw_engine.specs.State.{GatewayValue};
ghost use Rattle.gw_engine.specs.declared.reading.ReadDatagram.{ReadDatagram};

/// What reading an answer gives: a message from this mId, with one item where the answer is a reply, and with none
/// where it is an error.
pub fn answers_are_read_as_messages()
    ensures reply { (mid : List ℕ) (number : ℕ) (text : List ℕ) → IsReplyMessage mid number text → message_of text ≡ Read (reply_message mid) }
    ensures error { (mid : List ℕ) (number : ℕ) (text : List ℕ) → IsErrorMessage mid number text → message_of text ≡ Read (error_message mid) }
{}

/// What a burst gives, one item after another, it gives in phases, each over the whole burst before the next begins:
/// the classes, from keys and acknowledgements alone and the pairs that are kept at its start; what each new request
/// owns of what is free then (`owners`); one fold of the transactions (`carried`), which knows of no answers and no
/// pairs; the pairs of the new requests; the answers, each from an error, a kept pair or one of the new ones; what
/// changes in the kept pairs, where each new one has a key of its own at its turn; and the state.
pub fn bursts_go_in_phases()
    ensures answers { (g : GatewayValue) (messages : List ReadDatagram) → AreDistinct g.state.kept.pairs → (phased g messages).answers ≡ (burst_outcome g messages).answers }
    ensures state { (g : GatewayValue) (messages : List ReadDatagram) → AreDistinct g.state.kept.pairs → (phased g messages).state ≡ (burst_outcome g messages).after.state }
    ensures new { (g : GatewayValue) (messages : List ReadDatagram) → AreDistinct g.state.kept.pairs → AreNew g.state.kept (phased g messages).changes }
{}

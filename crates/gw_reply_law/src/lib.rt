//! What this gateway sends can be read: a law that ties the text of replies to the grammar of messages.
#![tactic(auto)]

ghost use Rattle.std.specs.Prelude.{◌≡◌, ℕ, List, Ok as Read};
ghost use Rattle.gw_base.specs.Mids.{IsMid};
ghost use Rattle.gw_msg.specs.Grammar.{Spells};
ghost use Rattle.gw_msg.specs.Reading.{message_of};
ghost use Rattle.gw_reply.specs.KeptReplies.{IsKeptTree};
ghost use Rattle.gw_reply.specs.Messages.{reply_text};
ghost use Rattle.gw_reply.specs.declared.reply.TxReply.{TxReply as Tree};
ghost use Rattle.gw_reply_law.specs.Spellings.{IsReplyMessage, reply_message};

/// The text of each reply whose TerminationIDs and kept texts have their forms, the one with error 533 too, is a
/// message from this mId whose one item is the reply of that number. So it spells a message with one item, and that is
/// what reading it gives.
pub fn replies_are_messages()
    ensures message { (mid : List ℕ) (reply : Tree) → IsMid mid → IsKeptTree reply → IsReplyMessage mid reply.id.0 (reply_text mid reply) }
    ensures spelled { (mid : List ℕ) (reply : Tree) → IsMid mid → IsKeptTree reply → Spells (reply_message mid) (reply_text mid reply) }
    ensures read { (mid : List ℕ) (reply : Tree) → IsMid mid → IsKeptTree reply → message_of (reply_text mid reply) ≡ Read (reply_message mid) }
{}

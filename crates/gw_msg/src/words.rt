//! Reading the single words of a message. After a fault nothing is said of the cursor.

ghost use Rattle.std.specs.Prelude.{◌≡◌, Some};
ghost use Rattle.gw_text.specs.Runs.{begins};
ghost use Rattle.gw_text.specs.Reader.{word_as, solid_as};
ghost use Rattle.gw_text.specs.Parts.{Finds};
ghost use Rattle.gw_msg.specs.Grammar.{may_be_wild, has_group};
ghost use Rattle.gw_msg.specs.Words.{verb_of, flow_of, context_item_of, is_context_property_start, is_error_start};
ghost use Rattle.gw_msg.specs.NameWords.{term_of, mid_of};
ghost use Rattle.gw_msg.specs.ActionReading.{mark_at, context_id_at};

use crate::message::ContextItem;
use gw_base::{CtxNum, CtxRef, Flow, Mid, TermRef, Verb};
use gw_text::{Cursor, ParseFault, Token};

/// Whether the bytes come next, in any case; they are taken.
#[tactic(auto, unfolding(crate::specs::ActionReading::mark_at))]
pub fn mark(cursor: &mut Cursor<'_>, bytes: &[u8]) -> bool
    ensures { mark_at bytes.now cursor.old ≡ Some (result, cursor.new) }
{
    cursor.prefix(bytes)
}

/// Whether a context property comes next: of what may stand in an action, properties alone begin with one of these
/// letters.
#[tactic(auto, using(crate::proofs::Starts::begins_none, crate::proofs::Starts::begins_some))]
pub fn is_context_property_next(cursor: &Cursor<'_>) -> bool
    ensures { result ≡ begins is_context_property_start cursor.now }
{
    match cursor.peek() {
        Some(b) => b"TtPpEeCc".contains(&b),
        None => false,
    }
}

/// Whether an error comes next: of the tokens that may begin a body, `Error` alone begins with an E.
#[tactic(auto, using(crate::proofs::Starts::begins_none, crate::proofs::Starts::begins_some))]
pub fn is_error_next(cursor: &Cursor<'_>) -> bool
    ensures { result ≡ begins is_error_start cursor.now }
{
    match cursor.peek() {
        Some(b) => b"Ee".contains(&b),
        None => false,
    }
}

/// The command that a token names.
pub fn verb(cursor: &mut Cursor<'_>) -> Result<Verb, ParseFault>
    ensures { Finds result cursor.new (word_as verb_of cursor.old) }
{
    match cursor.named()?.1 {
        Some(Token::Add) => Ok(Verb::Add),
        Some(Token::Modify) => Ok(Verb::Modify),
        Some(Token::Move) => Ok(Verb::Move),
        Some(Token::Subtract) => Ok(Verb::Subtract),
        Some(Token::AuditValue) => Ok(Verb::AuditValue),
        Some(Token::AuditCapability) => Ok(Verb::AuditCapability),
        Some(Token::Notify) => Ok(Verb::Notify),
        Some(Token::ServiceChange) => Ok(Verb::ServiceChange),
        _ => Err(ParseFault::Syntax),
    }
}

/// Whether `W-` may stand in front of the command.
pub fn may_be_wild(verb: Verb) -> bool
    ensures { result ≡ may_be_wild verb }
{
    matches!(
        verb,
        Verb::Subtract | Verb::AuditValue | Verb::AuditCapability
    )
}

/// Whether what stands behind the command's TerminationID is read as a group.
pub fn has_group(verb: Verb) -> bool
    ensures { result ≡ has_group verb }
{
    matches!(verb, Verb::AuditCapability | Verb::Notify)
}

/// How media flow, in a Topology.
pub fn flow(cursor: &mut Cursor<'_>) -> Result<Flow, ParseFault>
    ensures { Finds result cursor.new (word_as flow_of cursor.old) }
{
    match cursor.named()?.1 {
        Some(Token::Bothway) => Ok(Flow::Bothway),
        Some(Token::Isolate) => Ok(Flow::Isolate),
        Some(Token::Oneway) => Ok(Flow::Oneway),
        _ => Err(ParseFault::Syntax),
    }
}

/// A property that a ContextAudit requests.
pub fn context_item(cursor: &mut Cursor<'_>) -> Result<ContextItem, ParseFault>
    ensures { Finds result cursor.new (word_as context_item_of cursor.old) }
{
    match cursor.named()?.1 {
        Some(Token::Topology) => Ok(ContextItem::Topology),
        Some(Token::Priority) => Ok(ContextItem::Priority),
        Some(Token::Emergency) => Ok(ContextItem::Emergency),
        _ => Err(ParseFault::Syntax),
    }
}

/// The ContextID of an action.
#[tactic(auto, unfolding(crate::specs::ActionReading::context_id_at))]
pub fn context_id(cursor: &mut Cursor<'_>) -> Result<CtxRef, ParseFault>
    ensures { Finds result cursor.new (context_id_at cursor.old) }
{
    if cursor.byte(b'$') {
        return Ok(CtxRef::Choose);
    }
    if cursor.byte(b'*') {
        return Ok(CtxRef::All);
    }
    if cursor.byte(b'-') {
        return Ok(CtxRef::Null);
    }
    let number = cursor.uint32()?;
    Ok(CtxRef::Num(CtxNum(number.value)))
}

/// The TerminationID of a command, or of a Topology.
#[tactic(auto, using(crate::proofs::WordLemmas::term_read, crate::proofs::WordLemmas::term_not_read))]
pub fn term(cursor: &mut Cursor<'_>) -> Result<TermRef, ParseFault>
    ensures { Finds result cursor.new (word_as term_of cursor.old) }
{
    Ok(TermRef::read(cursor.word()?)?)
}

/// The sender's mId.
#[tactic(auto, using(crate::proofs::WordLemmas::mid_read, crate::proofs::WordLemmas::mid_not_read))]
pub fn mid(cursor: &mut Cursor<'_>) -> Result<Mid, ParseFault>
    ensures { Finds result cursor.new (solid_as mid_of cursor.old) }
{
    Ok(Mid::read(cursor.solid()?)?)
}

//! Reading a whole message.

ghost use Rattle.std.specs.Prelude.{◌≡◌, ◌≢◌, ◌⊎◌, ℕ, List, Result, Err, MatchBool, Some, None, codes};
ghost use Rattle.gw_text.specs.Sign.{prefix_at};
ghost use Rattle.gw_text.specs.Parts.{Finds};
ghost use Rattle.gw_msg.specs.Reading.{IsAnswer, version_at, header_at, message_of};
ghost use Rattle.gw_msg.specs.Grammar.{IsReadingOf, Spells, HasVersionFault};
ghost use Rattle.gw_msg.specs.declared.message.Message.{Message as SpelledMessage};
ghost use Rattle.gw_msg.specs.declared.fault.ReadFault.{ReadFault as Fault};
ghost use Rattle.gw_msg.specs.declared.fault.ReadFault.TheVariants.{Version, NoMemory};

use crate::fault::ReadFault;
use crate::items::{Trees, content};
use crate::message::Message;
use bumpalo::Bump;
use gw_text::{Cursor, ParseFault};
use std::alloc::Global;

/// The version that this gateway speaks.
const SPOKEN_VERSION: u32 = 1;

/// The most digits of a version.
const VERSION_DIGITS: usize = 2;

/// The greatest number that they write.
const VERSION_MAX: u32 = 99;

/// What follows the first token of a header: the version, which is answered.
#[tactic(auto, unfolding(crate::specs::Reading::version_at))]
fn header_end(cursor: &mut Cursor<'_>) -> Result<u32, ParseFault>
    ensures { Finds result cursor.new (version_at cursor.old) }
{
    if !cursor.byte(b'/') {
        return Err(ParseFault::Syntax);
    }
    let version = cursor.number(VERSION_DIGITS, VERSION_MAX)?;
    cursor.sep()?;
    Ok(version.value)
}

/// Takes the name of the protocol, in any case, if it comes next. It is mostly sent in capital letters.
fn protocol_name(cursor: &mut Cursor<'_>) -> bool
    ensures { MatchBool result (prefix_at (codes "MEGACO") cursor.old ≡ Some cursor.new) ((prefix_at (codes "MEGACO") cursor.old ≡ None) × (cursor.new ≡ cursor.old)) }
{
    if cursor.exact_prefix(b"MEGACO") {
        return true;
    }
    cursor.prefix(b"MEGACO")
}

/// The header: its version.
#[tactic(auto, unfolding(crate::specs::Reading::header_at, gw_text::specs::SpaceScan::skip))]
fn header(cursor: &mut Cursor<'_>) -> Result<u32, ParseFault>
    ensures { Finds result cursor.new (header_at cursor.old) }
{
    cursor.lwsp();
    if !protocol_name(cursor) && !cursor.byte(b'!') {
        return Err(ParseFault::Syntax);
    }
    header_end(cursor)
}

#[tactic(auto, unfolding(crate::specs::Reading::message_of))]
fn answer<'a>(bump: &'a Bump, text: &'a [u8], trees: Trees) -> Result<Message<'a>, ReadFault>
    ensures { IsAnswer text.now result }
{
    let mut cursor = Cursor::new(text);
    if header(&mut cursor)? != SPOKEN_VERSION {
        return Err(ReadFault::Version);
    }
    let message = content(bump, &mut cursor, trees)?;
    if !cursor.is_empty() {
        return Err(ReadFault::Syntax);
    }
    Ok(message)
}

/// The message that the text spells. It is read from left to right, and the cost is linear in the length of the text:
/// each word and each run of white space is scanned a fixed number of times at most. Behind a word white space is
/// scanned once for each sign that may stand there, which are five at most, and a word is read again for what it stands
/// for. The lists of the message lie in the arena.
///
/// # Errors
///
/// `Version` where the text begins as a message of another version than 1, whatever follows; `Syntax` where it does not
/// and spells no message; `NoMemory` where an allocation was refused, behind a header of version 1 alone. What was read
/// before stays in the arena until that goes.
pub fn read_message<'a>(bump: &'a Bump, text: &'a [u8]) -> Result<Message<'a>, ReadFault>
    ensures { IsReadingOf text.now result }
{
    answer(bump, text, Trees::Kept)
}

/// The message that the text spells, as [`read_message`] reads it, without the trees of its requests: of each it is
/// kept where its text begins. So a message takes some 40 bytes of the arena for each of its transactions, however many
/// commands they have. While it is read, the tree of one transaction is there at a time, in an arena over `alloc`, and
/// the list of its items, which go with the call.
///
/// # Errors
///
/// As of [`read_message`].
pub fn skim_message<'a>(
    alloc: Global,
    bump: &'a Bump,
    text: &'a [u8],
) -> Result<Message<'a>, ReadFault>
    ensures { IsReadingOf text.now result }
{
    answer(bump, text, Trees::Skimmed(alloc))
}

/// A text spells one message at most, and none where its header has another version.
pub fn one_message()
    ensures message { (text : List ℕ) (m n : SpelledMessage) → Spells m text → Spells n text → m ≡ n }
    ensures version { (text : List ℕ) (m : SpelledMessage) → Spells m text → ¬ HasVersionFault text }
{}

/// Each text has one answer but where memory is refused, and `message_of` is that answer. A text without a header of
/// version 1 is never answered out of memory.
pub fn one_answer()
    ensures answer { (text : List ℕ) → IsReadingOf text (message_of text) }
    ensures memory { (text : List ℕ) → message_of text ≢ Err NoMemory }
    ensures version { (text : List ℕ) (answer : Result SpelledMessage Fault) → IsReadingOf text answer → HasVersionFault text → answer ≡ Err Version }
    ensures only { (text : List ℕ) (answer : Result SpelledMessage Fault) → IsReadingOf text answer → (answer ≡ message_of text) ⊎ (answer ≡ Err NoMemory) }
{}

//! The body of a message: its items, or an error.

ghost use Rattle.std.proofs.Common.{arith};
ghost use Rattle.std.specs.Prelude.{◌≡◌, ◌<◌, Some, None, vec_len, vec_capacity, IfOk, OnOk, MatchResult};
ghost use Rattle.gw_text.specs.Lexical.{right_brace};
ghost use Rattle.gw_text.specs.Sign.{sign_at};
ghost use Rattle.gw_text.specs.Parts.{Gives, Finds};
ghost use Rattle.gw_text.specs.Reader.{items_at, solid_as};
ghost use Rattle.gw_msg.specs.ActionReading.{request_tree_at};
ghost use Rattle.gw_msg.specs.NameWords.{mid_of};
ghost use Rattle.gw_msg.specs.RequestSources.{Glances};
ghost use Rattle.gw_msg.specs.Reading.{request_at, reply_at, pending_at, last_at, range_at, ack_at, item_at, quoted_or_nothing, error_at, error_body_at, body_at, content_at};

use crate::message::{AckRange, Item, Message, Request};
use crate::sender::Sender;
use crate::source::RequestSource;
use crate::words::{is_error_next, mid};
use bumpalo::Bump;
use gw_base::{Items, Listed, TxId};
use gw_text::parts::{Parse, braced, list, put, sign, token};
use gw_text::{Cursor, ParseFault, Token};
use std::alloc::{AllocError, Global};

/// What becomes of the trees of requests as they are read.
#[derive(Clone, Copy)]
pub(crate) enum Trees {
    /// They are kept with the message.
    Kept,
    /// Each is dropped once it is read whole. Meanwhile it lies in an arena over this allocator.
    Skimmed(Global),
}

/// How deep groups may lie in a reply.
const REPLY_DEPTH: u32 = 16;

/// As many bytes as an item of a message of many mostly has at least.
const ITEM_LENGTH: usize = 32;

/// The most digits of an error code.
const CODE_DIGITS: usize = 4;

/// The greatest number that they write.
const CODE_MAX: u32 = 9999;

/// Takes the brace that closes a transaction, with the white space on both sides. Mostly there is none in front of it,
/// and behind it one blank or none.
#[inline(always)]
#[tactic(auto, unfolding(gw_text::specs::Sign::sign_at, gw_text::specs::Sign::byte_at, gw_text::specs::SpaceScan::skip, gw_text::specs::SpaceScan::space_len))]
fn close(cursor: &mut Cursor<'_>) -> Result<(), ParseFault>
    ensures { MatchResult result (λ _. sign_at right_brace cursor.old ≡ Some cursor.new) (λ e. (e ≡ ParseFault.Syntax) × (sign_at right_brace cursor.old ≡ None)) }
{
    if cursor.byte(b'}') {
        cursor.lwsp();
        return Ok(());
    }
    sign(cursor, b'}')
}

/// The tree of a transaction, behind its token: its number and its actions.
#[tactic(auto, using(crate::proofs::Laws::action_shrinks), unfolding(crate::specs::ActionReading::request_tree_at))]
pub(crate) fn request_tree<'a>(
    bump: &'a Bump,
    cursor: &mut Cursor<'a>,
) -> Result<Request<'a>, ParseFault>
    ensures { Gives result cursor.new (request_tree_at cursor.old) }
{
    sign(cursor, b'=')?;
    let id = cursor.uint32()?;
    sign(cursor, b'{')?;
    let actions = list(bump, cursor)?;
    close(cursor)?;
    Ok(Request {
        id: TxId(id.value),
        actions,
    })
}

/// What is kept of a transaction whose tree is dropped: its number, and how many bytes are left behind it. Its tree
/// lies in the arena, and no longer than its text is read.
fn glance<'s>(scratch: &'s Bump, mut begin: Cursor<'s>) -> Result<(TxId, usize), ParseFault>
    ensures { Glances result begin.entry }
{
    let request = request_tree(scratch, &mut begin)?;
    Ok((request.id, begin.left()))
}

/// A transaction without its tree, behind its token. It is read again from here.
fn skimmed<'a>(scratch: &mut Bump, cursor: &mut Cursor<'a>) -> Result<RequestSource<'a>, ParseFault>
    ensures { Gives result cursor.new (request_tree_at cursor.old) }
{
    let begin = cursor.again();
    let (id, left) = glance(scratch, cursor.again())?;
    cursor.leave(left);
    // Where it fails, the arena stays as it is and goes on growing.
    let _ = scratch.reset();
    Ok(RequestSource::of_text(begin, id))
}

/// A transaction, behind its token: with its tree, or without it where there is an arena to read it in.
#[inline(always)]
fn source<'a>(
    bump: &'a Bump,
    cursor: &mut Cursor<'a>,
    scratch: Option<&mut Bump>,
) -> Result<RequestSource<'a>, ParseFault>
    ensures { Gives result cursor.new (request_tree_at cursor.old) }
{
    match scratch {
        None => Ok(RequestSource::of_tree(request_tree(bump, cursor)?)),
        Some(scratch) => skimmed(scratch, cursor),
    }
}

/// A transaction as a part of the body, behind its token.
#[inline(always)]
fn request<'a>(
    bump: &'a Bump,
    cursor: &mut Cursor<'a>,
    scratch: Option<&mut Bump>,
) -> Result<Item<'a>, ParseFault>
    ensures { Gives result cursor.new (request_at cursor.old) }
{
    Ok(Item::Request(source(bump, cursor, scratch)?))
}

/// A reply, behind its token.
#[tactic(auto, unfolding(crate::specs::Reading::reply_at, gw_text::specs::SpaceScan::skip))]
fn reply<'a>(cursor: &mut Cursor<'a>) -> Result<Item<'a>, ParseFault>
    ensures { Finds result cursor.new (reply_at cursor.old) }
{
    sign(cursor, b'=')?;
    cursor.uint32()?;
    cursor.lwsp();
    cursor.balanced(REPLY_DEPTH)?;
    Ok(Item::Ignored)
}

/// A pending transaction, behind its token.
#[tactic(auto, unfolding(crate::specs::Reading::pending_at))]
fn pending<'a>(cursor: &mut Cursor<'a>) -> Result<Item<'a>, ParseFault>
    ensures { Finds result cursor.new (pending_at cursor.old) }
{
    sign(cursor, b'=')?;
    cursor.uint32()?;
    sign(cursor, b'{')?;
    sign(cursor, b'}')?;
    Ok(Item::Ignored)
}

/// What follows the first number of a range.
fn last(cursor: &mut Cursor<'_>, first: u32) -> Result<AckRange, ParseFault>
    ensures { Finds result cursor.new (last_at first cursor.old) }
{
    if !cursor.byte(b'-') {
        return Ok(AckRange { first, last: first });
    }
    let last = cursor.uint32()?;
    Ok(AckRange {
        first,
        last: last.value,
    })
}

impl<'a> Parse<'a> for AckRange {
    ghost read_at = { range_at };

    ghost fits = { Prim.search arith };

    #[tactic(auto, unfolding(crate::specs::Reading::range_at))]
    fn read(_bump: &'a Bump, cursor: &mut Cursor<'a>) -> Result<AckRange, ParseFault> {
        let first = cursor.uint32()?;
        last(cursor, first.value)
    }
}

/// Acknowledged replies, behind their token.
#[tactic(auto, using(crate::proofs::ItemLaws::range_shrinks), unfolding(crate::specs::Reading::ack_at))]
fn ack<'a>(bump: &'a Bump, cursor: &mut Cursor<'a>) -> Result<Item<'a>, ParseFault>
    ensures { Gives result cursor.new (ack_at cursor.old) }
{
    Ok(Item::Ack(braced(bump, cursor)?))
}

/// A part of the body: its token, and what is behind it. Where there is an arena to read it in, the tree of a
/// transaction is dropped.
#[inline(always)]
#[tactic(auto, unfolding(crate::specs::Reading::item_at))]
fn item<'a>(
    bump: &'a Bump,
    cursor: &mut Cursor<'a>,
    scratch: Option<&mut Bump>,
) -> Result<Item<'a>, ParseFault>
    ensures { Gives result cursor.new (item_at cursor.old) }
{
    match token(cursor)? {
        Token::Transaction => request(bump, cursor, scratch),
        Token::Reply => reply(cursor),
        Token::Pending => pending(cursor),
        Token::TransactionResponseAck => ack(bump, cursor),
        _ => Err(ParseFault::Syntax),
    }
}

/// Makes room for another item. Where there is none, it is made for as many as so many bytes of text mostly have.
///
/// # Errors
///
/// `AllocError` where an allocation was refused.
#[inline(always)]
fn make_room<'a>(parts: &mut Vec<Item<'a>, &'a Bump>, left: usize) -> Result<(), AllocError>
    ensures items { OnOk result (parts.new.items ≡ parts.old.items) }
    ensures room { OnOk result (vec_len parts.new < vec_capacity parts.new) }
{
    if parts.capacity() <= parts.len() {
        parts.reserve(left / ITEM_LENGTH + 1)?;
    }
    Ok(())
}

/// The items to the end of the text, each of a byte at least, with the trees of transactions. Most messages have one
/// item, which then takes a block of its own size.
fn whole_items<'a>(
    bump: &'a Bump,
    cursor: &mut Cursor<'a>,
) -> Result<Listed<'a, Item<'a>>, ParseFault>
    ensures { Gives result cursor.new (items_at item_at cursor.old) }
{
    let mut parts = Vec::new(bump);
    loop {
        let part = item(bump, cursor, None)?;
        cursor.lwsp();
        if cursor.is_empty() {
            if parts.is_empty() {
                return Ok(Listed::one(bump, part)?);
            }
            put(&mut parts, part)?;
            return Ok(Listed::kept(parts));
        }
        make_room(&mut parts, cursor.left())?;
        parts.push_reserved(part);
    }
}

/// The items to the end of the text, each of a byte at least, without the trees of transactions: one is there at a
/// time.
fn brief_items<'a>(
    alloc: Global,
    bump: &'a Bump,
    cursor: &mut Cursor<'a>,
) -> Result<Items<Item<'a>>, ParseFault>
    ensures { Gives result cursor.new (items_at item_at cursor.old) }
{
    let mut scratch = Bump::new(alloc);
    let mut parts = Items::new(alloc);
    loop {
        let part = item(bump, cursor, Some(&mut scratch))?;
        parts.push(part)?;
        cursor.lwsp();
        if cursor.is_empty() {
            return Ok(parts);
        }
    }
}

/// The items, in the arena, where they take no more than their size: a list that grew there would leave a block behind
/// at each allocation.
fn placed_items<'a>(
    bump: &'a Bump,
    items: Items<Item<'a>>,
) -> Result<Listed<'a, Item<'a>>, AllocError>
    ensures { IfOk result (λ placed. placed ≡ items.entry) }
{
    let mut placed = Vec::with_capacity(bump, items.len())?;
    for item in items.into_vec() {
        put(&mut placed, item)?;
    }
    Ok(Listed::kept(placed))
}

/// The items to the end of the text.
#[tactic(auto, using(crate::proofs::ItemLaws::item_shrinks))]
fn all_items<'a>(
    bump: &'a Bump,
    cursor: &mut Cursor<'a>,
    trees: Trees,
) -> Result<Listed<'a, Item<'a>>, ParseFault>
    ensures { Gives result cursor.new (items_at item_at cursor.old) }
{
    match trees {
        Trees::Kept => whole_items(bump, cursor),
        Trees::Skimmed(alloc) => Ok(placed_items(bump, brief_items(alloc, bump, cursor)?)?),
    }
}

/// The text of an error, which may be missing.
#[tactic(auto, unfolding(crate::specs::Reading::quoted_or_nothing))]
fn error_text(cursor: &mut Cursor<'_>) -> Result<(), ParseFault>
    ensures { Finds result cursor.new (quoted_or_nothing cursor.old) }
{
    if cursor.is_at(b'"') {
        cursor.quoted()?;
    }
    Ok(())
}

/// An error, which stands in place of the parts.
#[tactic(auto, unfolding(crate::specs::Reading::error_at))]
fn error(cursor: &mut Cursor<'_>) -> Result<(), ParseFault>
    ensures { Finds result cursor.new (error_at cursor.old) }
{
    let Token::Error = token(cursor)? else {
        return Err(ParseFault::Syntax);
    };
    sign(cursor, b'=')?;
    cursor.number(CODE_DIGITS, CODE_MAX)?;
    sign(cursor, b'{')?;
    error_text(cursor)?;
    sign(cursor, b'}')
}

/// An error, to the end of the text. It gives no items.
#[tactic(auto, unfolding(crate::specs::Reading::error_body_at, gw_text::specs::SpaceScan::skip))]
fn error_body<'a>(cursor: &mut Cursor<'a>) -> Result<Listed<'a, Item<'a>>, ParseFault>
    ensures { Gives result cursor.new (error_body_at cursor.old) }
{
    error(cursor)?;
    cursor.lwsp();
    if !cursor.is_empty() {
        return Err(ParseFault::Syntax);
    }
    Ok(Listed::nothing())
}

/// The body, to the end of the text.
#[tactic(auto, unfolding(crate::specs::Reading::body_at))]
fn body<'a>(
    bump: &'a Bump,
    cursor: &mut Cursor<'a>,
    trees: Trees,
) -> Result<Listed<'a, Item<'a>>, ParseFault>
    ensures { Gives result cursor.new (body_at cursor.old) }
{
    if is_error_next(cursor) {
        return error_body(cursor);
    }
    all_items(bump, cursor, trees)
}

/// The sender, whose mId lies in the arena.
fn sender<'a>(bump: &'a Bump, cursor: &mut Cursor<'a>) -> Result<Sender<'a>, ParseFault>
    ensures { Gives result cursor.new (solid_as mid_of cursor.old) }
{
    match bump.try_alloc(mid(cursor)?) {
        Ok(mid) => Ok(Sender::new(mid)),
        Err(_) => Err(ParseFault::NoMemory),
    }
}

/// What stands behind the header: the sender and the body, to the end of the text.
#[tactic(auto, unfolding(crate::specs::Reading::content_at))]
pub(crate) fn content<'a>(
    bump: &'a Bump,
    cursor: &mut Cursor<'a>,
    trees: Trees,
) -> Result<Message<'a>, ParseFault>
    ensures { Gives result cursor.new (content_at cursor.old) }
{
    let mid = sender(bump, cursor)?;
    cursor.sep()?;
    let items = body(bump, cursor, trees)?;
    Ok(Message { mid, items })
}

//! Parts of a message that are read from a text, alone or in lists. After a fault nothing is said of the cursor.

ghost use Rattle.std.proofs.Common.{arith};
ghost use Rattle.std.specs.Prelude.{◌≡◌, ◌++◌, ◌∷◌, [], ℕ, List, Option, Some, None, MatchResult, OnOk};
ghost use Rattle.std.specs.Mem.{FitsInMemory};
ghost use Rattle.gw_text.specs.Sign.{sign_at};
ghost use Rattle.gw_text.specs.Reader.{word_as, word_read, list_at, closed_list_at, braced_at, optional_at, braced_or_empty_at, items_at};
ghost use Rattle.gw_text.specs.Tokens.{token_of};
ghost use Rattle.gw_text.specs.Parts.{Gives, Finds, Shrinks, ShrinksMore};

use crate::cursor::Cursor;
use crate::fault::ParseFault;
use crate::token::Token;
use bumpalo::Bump;
use gw_base::{Listed, Span};
use std::alloc::AllocError;

/// A part of a message.
pub trait Parse<'a>: Drop {
    // what reading gives at the front of a text
    ghost read_at: { List ℕ → Option (Self × List ℕ) };

    /// Reads the part that stands at the cursor.
    ///
    /// # Errors
    ///
    /// `Syntax` where there is none; `NoMemory` where an allocation was refused.
    fn read(bump: &'a Bump, cursor: &mut Cursor<'a>) -> Result<Self, ParseFault>
        ensures { Gives result cursor.new (read_at cursor.old) };

    // so that a list of one part is a block of the part's own size
    ghost fits: { FitsInMemory Self.row };
}

/// Takes the sign, which must come next, with the white space on both sides.
///
/// # Errors
///
/// `Syntax` where it does not come next.
pub fn sign(cursor: &mut Cursor<'_>, b: u8) -> Result<(), ParseFault>
    ensures { MatchResult result (λ _. sign_at b cursor.old ≡ Some cursor.new) (λ e. (e ≡ ParseFault.Syntax) × (sign_at b cursor.old ≡ None)) }
{
    if cursor.sign(b) {
        Ok(())
    } else {
        Err(ParseFault::Syntax)
    }
}

/// Takes the word that comes next, which must be a token, in its long form or its short form and in any case.
///
/// # Errors
///
/// `Syntax` where no word comes next, or one that is no token.
pub fn token(cursor: &mut Cursor<'_>) -> Result<Token, ParseFault>
    ensures { Finds result cursor.new (word_as token_of cursor.old) }
{
    match cursor.named()?.1 {
        Some(token) => Ok(token),
        None => Err(ParseFault::Syntax),
    }
}

/// A word, as sent.
///
/// # Errors
///
/// `Syntax` where no word comes next.
pub fn word<'a>(cursor: &mut Cursor<'a>) -> Result<Span<'a>, ParseFault>
    ensures { Finds result cursor.new (word_read cursor.old) }
{
    Ok(Span::new(cursor.word()?))
}

// A word, as sent.
impl<'a> Parse<'a> for Span<'a> {
    ghost read_at = { word_read };

    ghost fits = { Prim.search arith };

    fn read(_bump: &'a Bump, cursor: &mut Cursor<'a>) -> Result<Span<'a>, ParseFault> {
        word(cursor)
    }
}

/// The part goes behind those before it.
///
/// # Errors
///
/// `AllocError` where an allocation was refused; the parts are then as they were, and this one is dropped.
#[inline(always)]
pub fn put<T: Drop>(parts: &mut Vec<T, &Bump>, part: T) -> Result<(), AllocError>
    ensures { MatchResult result (λ _. parts.new.items ≡ parts.old.items ++ part ∷ []) (λ _. parts.new.items ≡ parts.old.items) }
{
    parts.push(part)?;
    Ok(())
}

/// The part goes last, and no room is left behind it.
///
/// # Errors
///
/// `AllocError` where an allocation was refused.
#[inline(always)]
fn put_last<T: Drop>(parts: &mut Vec<T, &Bump>, part: T) -> Result<(), AllocError>
    ensures { OnOk result (parts.new.items ≡ parts.old.items ++ part ∷ []) }
{
    parts.reserve_exact(1)?;
    put(parts, part)
}

/// Reads one part or more, with commas between them. Each part is read once. Most lists have one, which then takes a
/// block of its own size.
///
/// # Errors
///
/// `Syntax` where there are none; `NoMemory` where an allocation was refused.
#[tactic(auto, using(crate::proofs::PartLoops::list_steps))]
pub fn list<'a, T: Parse<'a>>(
    bump: &'a Bump,
    cursor: &mut Cursor<'a>,
) -> Result<Listed<'a, T>, ParseFault>
    requires { Shrinks T.read_at }
    ensures { Gives result cursor.new (list_at T.read_at cursor.old) }
{
    let mut parts = Vec::new(bump);
    loop {
        let part = T::read(bump, cursor)?;
        if !cursor.sign(b',') {
            if parts.is_empty() {
                return Ok(Listed::one(bump, part)?);
            }
            put_last(&mut parts, part)?;
            return Ok(Listed::kept(parts));
        }
        put(&mut parts, part)?;
    }
}

/// Reads one part or more, with commas between them, and the brace that closes them.
///
/// # Errors
///
/// `Syntax` where there are none; `NoMemory` where an allocation was refused.
fn closed<'a, T: Parse<'a>>(
    bump: &'a Bump,
    cursor: &mut Cursor<'a>,
) -> Result<Listed<'a, T>, ParseFault>
    requires { Shrinks T.read_at }
    ensures { Gives result cursor.new (closed_list_at T.read_at cursor.old) }
{
    let parts = list(bump, cursor)?;
    sign(cursor, b'}')?;
    Ok(parts)
}

/// Reads one part or more in braces, with commas between them.
///
/// # Errors
///
/// `Syntax` where there are none; `NoMemory` where an allocation was refused.
pub fn braced<'a, T: Parse<'a>>(
    bump: &'a Bump,
    cursor: &mut Cursor<'a>,
) -> Result<Listed<'a, T>, ParseFault>
    requires { Shrinks T.read_at }
    ensures { Gives result cursor.new (braced_at T.read_at cursor.old) }
{
    sign(cursor, b'{')?;
    closed(bump, cursor)
}

/// Reads one part or more in braces, with commas between them, where a brace comes next; else nothing.
///
/// # Errors
///
/// `Syntax` where a brace comes next and no such list stands there; `NoMemory` where an allocation was refused.
#[tactic(auto, unfolding(crate::specs::Reader::optional_at))]
pub fn optional_braced<'a, T: Parse<'a>>(
    bump: &'a Bump,
    cursor: &mut Cursor<'a>,
) -> Result<Listed<'a, T>, ParseFault>
    requires { Shrinks T.read_at }
    ensures { Gives result cursor.new (optional_at T.read_at cursor.old) }
{
    if !cursor.sign(b'{') {
        return Ok(Listed::nothing());
    }
    closed(bump, cursor)
}

/// Reads any number of parts in braces, with commas between them.
///
/// # Errors
///
/// `Syntax` where there is no such list; `NoMemory` where an allocation was refused.
#[tactic(auto, unfolding(crate::specs::Reader::braced_or_empty_at))]
pub fn braced_or_empty<'a, T: Parse<'a>>(
    bump: &'a Bump,
    cursor: &mut Cursor<'a>,
) -> Result<Listed<'a, T>, ParseFault>
    requires { Shrinks T.read_at }
    ensures { Gives result cursor.new (braced_or_empty_at T.read_at cursor.old) }
{
    sign(cursor, b'{')?;
    if cursor.sign(b'}') {
        return Ok(Listed::nothing());
    }
    closed(bump, cursor)
}

/// Reads one part or more, with white space between them or none, to the end of the text. Each part takes a byte at
/// least.
///
/// # Errors
///
/// `Syntax` where anything else stands there; `NoMemory` where an allocation was refused.
#[tactic(auto, using(crate::proofs::PartLoops::items_loop_fails))]
pub fn items<'a, T: Parse<'a>>(
    bump: &'a Bump,
    cursor: &mut Cursor<'a>,
) -> Result<Listed<'a, T>, ParseFault>
    requires { ShrinksMore T.read_at }
    ensures { Gives result cursor.new (items_at T.read_at cursor.old) }
{
    let mut parts = Vec::new(bump);
    loop {
        let part = T::read(bump, cursor)?;
        cursor.lwsp();
        if cursor.is_empty() {
            if parts.is_empty() {
                return Ok(Listed::one(bump, part)?);
            }
            put_last(&mut parts, part)?;
            return Ok(Listed::kept(parts));
        }
        put(&mut parts, part)?;
    }
}

//! The parts of a Media descriptor, as they are read. After a fault nothing is said of the cursor.

ghost use Rattle.std.proofs.Common.{arith};
ghost use Rattle.gw_desc.specs.Reading.{media_part_at, octets_text_at, stream_at, stream_part_at, stream_rest};
ghost use Rattle.gw_text.specs.Parts.{Gives, Finds};

use crate::descriptor::{MediaPart, StreamPart};
use bumpalo::Bump;
use gw_base::Span;
use gw_text::parts::{Parse, braced, sign, token};
use gw_text::{Cursor, ParseFault, Token};

/// The most digits of a stream's number (RFC 3525, section 7.1.6).
const STREAM_DIGITS: usize = 5;

/// The greatest number of a stream.
const STREAM_MAX: u32 = 65_535;

/// Octets in braces, with the white space round them.
#[tactic(auto, unfolding(crate::specs::Reading::octets_text_at, gw_text::specs::SpaceScan::skip))]
fn octets<'a>(cursor: &mut Cursor<'a>) -> Result<Span<'a>, ParseFault>
    ensures { Finds result cursor.new (octets_text_at cursor.old) }
{
    cursor.lwsp();
    if !cursor.byte(b'{') {
        return Err(ParseFault::Syntax);
    }
    let octets = Span::new(cursor.octets()?);
    if !cursor.byte(b'}') {
        return Err(ParseFault::Syntax);
    }
    cursor.lwsp();
    Ok(octets)
}

/// What follows the word of a part of a stream.
#[tactic(auto, using(crate::proofs::PropertyLaws::property_shrinks))]
fn stream_part<'a>(
    bump: &'a Bump,
    cursor: &mut Cursor<'a>,
    word: Token,
) -> Result<StreamPart<'a>, ParseFault>
    ensures { Gives result cursor.new (stream_rest word cursor.old) }
{
    match word {
        Token::Local => Ok(StreamPart::Local(octets(cursor)?)),
        Token::Remote => Ok(StreamPart::Remote(octets(cursor)?)),
        Token::LocalControl => Ok(StreamPart::LocalControl(braced(bump, cursor)?)),
        _ => Err(ParseFault::Syntax),
    }
}

impl<'a> Parse<'a> for StreamPart<'a> {
    ghost read_at = { stream_part_at };

    ghost fits = { Prim.search arith };

    #[tactic(auto, unfolding(crate::specs::Reading::stream_part_at))]
    fn read(bump: &'a Bump, cursor: &mut Cursor<'a>) -> Result<StreamPart<'a>, ParseFault> {
        let word = token(cursor)?;
        stream_part(bump, cursor, word)
    }
}

/// What follows the word `Stream`: its number and its parts.
#[tactic(auto, using(crate::proofs::MediaLaws::stream_part_shrinks), unfolding(crate::specs::Reading::stream_at))]
fn stream<'a>(bump: &'a Bump, cursor: &mut Cursor<'a>) -> Result<MediaPart<'a>, ParseFault>
    ensures { Gives result cursor.new (stream_at cursor.old) }
{
    sign(cursor, b'=')?;
    let id = cursor.number(STREAM_DIGITS, STREAM_MAX)?;
    let parts = braced(bump, cursor)?;
    Ok(MediaPart::Stream(id.value as u16, parts))
}

impl<'a> Parse<'a> for MediaPart<'a> {
    ghost read_at = { media_part_at };

    ghost fits = { Prim.search arith };

    #[tactic(auto, using(crate::proofs::PropertyLaws::property_shrinks), unfolding(crate::specs::Reading::media_part_at))]
    fn read(bump: &'a Bump, cursor: &mut Cursor<'a>) -> Result<MediaPart<'a>, ParseFault> {
        match token(cursor)? {
            Token::Stream => stream(bump, cursor),
            Token::TerminationState => Ok(MediaPart::TerminationState(braced(bump, cursor)?)),
            word => Ok(MediaPart::Outside(stream_part(bump, cursor, word)?)),
        }
    }
}

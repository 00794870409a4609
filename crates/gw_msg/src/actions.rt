//! The actions of a transaction and their commands, as they are read.

ghost use Rattle.std.proofs.Common.{arith};
ghost use Rattle.gw_text.specs.Parts.{Gives};
ghost use Rattle.gw_msg.specs.ActionReading.{details_of, command_at, contents_at, action_at};

use crate::message::{Action, Command, ContextProp};
use crate::words::{
    context_id, has_group, is_context_property_next, mark, may_be_wild, term, verb,
};
use bumpalo::Bump;
use gw_base::Listed;
use gw_desc::{Descriptor, optional_group};
use gw_text::parts::{Parse, list, optional_braced, put, sign, token};
use gw_text::{Cursor, ParseFault, Token};

/// What stands behind a TerminationID: the command's descriptors, or a group, which is read and dropped.
#[tactic(auto, using(gw_desc::proofs::DescriptorLaws::descriptor_shrinks), unfolding(crate::specs::ActionReading::details_of))]
fn details<'a>(
    bump: &'a Bump,
    cursor: &mut Cursor<'a>,
    has_group: bool,
) -> Result<Listed<'a, Descriptor<'a>>, ParseFault>
    ensures { Gives result cursor.new (details_of has_group cursor.old) }
{
    if !has_group {
        return optional_braced(bump, cursor);
    }
    optional_group(cursor)?;
    Ok(Listed::nothing())
}

impl<'a> Parse<'a> for Command<'a> {
    ghost read_at = { command_at };

    ghost fits = { Prim.search arith };

    #[tactic(auto, unfolding(crate::specs::ActionReading::command_at))]
    fn read(bump: &'a Bump, cursor: &mut Cursor<'a>) -> Result<Command<'a>, ParseFault> {
        let optional = mark(cursor, b"O-");
        let wild = mark(cursor, b"W-");
        let verb = verb(cursor)?;
        if wild && !may_be_wild(verb) {
            return Err(ParseFault::Syntax);
        }
        sign(cursor, b'=')?;
        let term = term(cursor)?;
        let descriptors = details(bump, cursor, has_group(verb))?;
        Ok(Command {
            verb,
            term,
            optional,
            wild,
            descriptors,
        })
    }
}

/// What an action requests of its context: the properties, and the commands behind them.
fn contents<'a>(
    bump: &'a Bump,
    cursor: &mut Cursor<'a>,
) -> Result<(Listed<'a, ContextProp<'a>>, Listed<'a, Command<'a>>), ParseFault>
    ensures { Gives result cursor.new (contents_at cursor.old) }
{
    let mut props = Vec::new(bump);
    while is_context_property_next(cursor) {
        let prop = ContextProp::read(bump, cursor)?;
        put(&mut props, prop)?;
        if !cursor.sign(b',') {
            return Ok((Listed::kept(props), Listed::nothing()));
        }
    }
    let commands = list(bump, cursor)?;
    Ok((Listed::kept(props), commands))
}

impl<'a> Parse<'a> for Action<'a> {
    ghost read_at = { action_at };

    ghost fits = { Prim.search arith };

    #[tactic(auto, unfolding(crate::specs::ActionReading::action_at))]
    fn read(bump: &'a Bump, cursor: &mut Cursor<'a>) -> Result<Action<'a>, ParseFault> {
        let Token::Context = token(cursor)? else {
            return Err(ParseFault::Syntax);
        };
        sign(cursor, b'=')?;
        let ctx = context_id(cursor)?;
        sign(cursor, b'{')?;
        let (props, commands) = contents(bump, cursor)?;
        sign(cursor, b'}')?;
        Ok(Action {
            ctx,
            props,
            commands,
        })
    }
}

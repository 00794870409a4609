//! A request where it stands in its message.

ghost use Rattle.std.specs.Prelude.{◌≡◌, IfOk, IfSome};
ghost use Rattle.gw_msg.specs.RequestSources.{Begins, IsText, request_from};

use crate::items::request_tree;
use crate::message::Request;
use bumpalo::Bump;
use gw_base::{NoMemory, TxId};
use gw_text::{Cursor, ParseFault};
use std::marker::Model;

/// What is kept of a request.
#[derive(Drop)]
enum Form<'a> {
    /// Its tree.
    Tree(Request<'a>),
    /// Its number, and where its text begins, behind its token.
    Text { id: TxId, begin: Cursor<'a> },
}

/// A request of a message: its tree, or where it stands in the datagram, from which the tree is read again. Contracts
/// see the request itself.
#[derive(Drop)]
pub struct RequestSource<'a> {
    form: Form<'a>,
}

impl<'a> Model for RequestSource<'a> {
    ghost use Rattle.gw_msg.specs.declared.message.Request.{Request as Whole};
    ghost use Rattle.gw_msg.specs.RequestSources.{request_in, IsRequestSource};

    ghost Value = { Whole };

    ghost view = { λ a. request_in a.form };

    ghost invariant = { λ a. IsRequestSource a.form };
}

impl<'a> RequestSource<'a> {
    /// A request with its tree.
    pub(crate) fn of_tree(request: Request<'a>) -> RequestSource<'a>
        ensures { result ≡ request.entry }
    {
        RequestSource {
            form: Form::Tree(request),
        }
    }

    /// A request whose tree is dropped. The caller knows that it is what stands at the cursor, behind its token, and
    /// its number.
    pub(crate) fn of_text(begin: Cursor<'a>, id: TxId) -> RequestSource<'a>
        requires { IsText id begin }
        ensures { result ≡ request_from begin.entry }
    {
        RequestSource {
            form: Form::Text { id, begin },
        }
    }

    /// The number that its reply repeats.
    pub fn id(&self) -> TxId
        ensures { result ≡ self.now.id }
    {
        match &self.form {
            Form::Tree(request) => request.id,
            Form::Text { id, .. } => *id,
        }
    }

    /// Its tree, if that is kept.
    pub fn kept_tree(&self) -> Option<&Request<'a>>
        ensures { IfSome result (λ tree. tree.now ≡ self.now) }
    {
        match &self.form {
            Form::Tree(request) => Some(request),
            Form::Text { .. } => None,
        }
    }

    /// Its tree. One that is not kept is read again, into the arena; the work is linear in its text.
    ///
    /// # Errors
    ///
    /// Out of memory, where it is read again.
    pub fn tree<'h>(&'h self, bump: &'h Bump) -> Result<&'h Request<'h>, NoMemory>
        ensures { IfOk result (λ tree. tree.now ≡ self.now) }
    {
        match &self.form {
            Form::Tree(request) => Ok(request),
            Form::Text { begin, .. } => read_again(bump, begin.again()),
        }
    }
}

/// The request whose text begins here. The caller knows that one does.
fn read_again<'h>(bump: &'h Bump, mut begin: Cursor<'h>) -> Result<&'h Request<'h>, NoMemory>
    requires { Begins begin (request_from begin) }
    ensures { IfOk result (λ tree. tree.now ≡ request_from begin.entry) }
{
    match request_tree(bump, &mut begin) {
        Ok(request) => placed(bump, request),
        Err(ParseFault::NoMemory) => Err(NoMemory),
        Err(ParseFault::Syntax) => unreachable!(),
    }
}

/// The request, in the arena.
fn placed<'h>(bump: &'h Bump, request: Request<'h>) -> Result<&'h Request<'h>, NoMemory>
    ensures { IfOk result (λ tree. tree.now ≡ request.entry) }
{
    match bump.try_alloc(request) {
        Ok(request) => Ok(request),
        Err(_) => Err(NoMemory),
    }
}

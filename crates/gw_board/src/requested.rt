//! What a burst requests, each with what it owns.

ghost use Rattle.std.specs.Prelude.{◌≡◌, true, IfOk, IfSome, IsTrue};
ghost use Rattle.gw_base.specs.declared.key.Key.TheVariants.{Whole};
ghost use Rattle.gw_base.specs.Keys.{has};
ghost use Rattle.gw_table.specs.Maps.{Maps};
ghost use Rattle.gw_board.specs.Carried.{keys_of};

use bumpalo::Bump;
use gw_base::{NoMemory, TxId};
use gw_foot::is_for_all;
use gw_msg::{Request, RequestSource, Sender};
use gw_reserve::Owned;
use std::marker::Model;

/// A request, borrowed from the message that it came in, which keeps its tree, or where its text begins. Contracts
/// see the request itself.
#[derive(Drop)]
pub struct RequestRef<'h, 'a> {
    source: &'h RequestSource<'a>,
}

impl<'h, 'a> Model for RequestRef<'h, 'a> {
    ghost use Rattle.gw_msg.specs.declared.message.Request.{Request as Whole};

    ghost Value = { Whole };

    ghost view = { λ a. a.source.now };
}

impl<'h, 'a> RequestRef<'h, 'a> {
    /// The request, borrowed.
    pub fn new(source: &'h RequestSource<'a>) -> Self
        ensures { result ≡ source.now }
    {
        RequestRef { source }
    }

    /// The same, borrowed once more.
    pub fn again(&self) -> Self
        ensures { result ≡ self.now }
    {
        RequestRef {
            source: self.source,
        }
    }

    /// The number that its reply repeats.
    pub fn id(&self) -> TxId
        ensures { result ≡ self.now.id }
    {
        self.source.id()
    }

    /// Its tree, if the message keeps it.
    pub(crate) fn kept_tree(&self) -> Option<&Request<'a>>
        ensures { IfSome result (λ tree. tree.now ≡ self.now) }
    {
        self.source.kept_tree()
    }

    /// Its tree. Where the message does not keep it, it is read again, into this arena; the work is linear in its text.
    ///
    /// # Errors
    ///
    /// Out of memory, where it is read again.
    pub fn tree<'s>(&'s self, bump: &'s Bump) -> Result<&'s Request<'s>, NoMemory>
        ensures { IfOk result (λ tree. tree.now ≡ self.now) }
    {
        self.source.tree(bump)
    }
}

/// A request that is to be executed, with what it owns.
#[derive(Drop)]
pub struct BurstRequest<'h, 'a> {
    /// The sender.
    pub mid: Sender<'a>,
    /// The request.
    pub request: RequestRef<'h, 'a>,
    /// What it owns: an entry for each of its actions, and for each of its commands.
    pub owned: Owned,
}

/// Whether the tree of the request is kept and shows that it is whole-table, so that its keys are all that there are.
pub(crate) fn is_seen_for_all(requested: &BurstRequest<'_, '_>) -> bool
    ensures { IsTrue result → (m : Maps) → has (keys_of requested.now m) Whole ≡ true }
{
    match requested.request.kept_tree() {
        Some(request) => is_for_all(request),
        None => false,
    }
}

/// A request with what it owns, borrowed. Contracts see these.
#[derive(Drop)]
pub(crate) struct Task<'b, 'h, 'a> {
    requested: &'b BurstRequest<'h, 'a>,
}

impl<'b, 'h, 'a> Model for Task<'b, 'h, 'a> {
    ghost use Rattle.gw_board.specs.declared.requested.BurstRequest.{BurstRequest as Whole};

    ghost Value = { Whole };

    ghost view = { λ a. a.requested.now };
}

impl<'b, 'h, 'a> Task<'b, 'h, 'a> {
    pub(crate) fn new(requested: &'b BurstRequest<'h, 'a>) -> Self
        ensures { result ≡ requested.now }
    {
        Task { requested }
    }

    pub(crate) fn get(&self) -> &'b BurstRequest<'h, 'a>
        ensures { result.now ≡ self.now }
    {
        self.requested
    }

    /// The same, borrowed once more.
    pub(crate) fn again(&self) -> Task<'b, 'h, 'a>
        ensures { result ≡ self.now }
    {
        Task {
            requested: self.requested,
        }
    }
}

//! A context: its members and its properties.

ghost use Rattle.std.specs.Prelude.{◌≡◌, ◌≤◌, ◌↔◌, length, IfOk, OnOk, OnErr, IsErrOf, true, false};
ghost use Rattle.gw_base.specs.NameLists.{is_in};
ghost use Rattle.gw_ctx.specs.Contexts.{new_context, joined, left, prioritized, with_emergency, linked};

use crate::fault::JoinFault;
use crate::links::{LinkIter, Links};
use gw_base::{Link, NoMemory, TermName};
use indexmap::IndexSet;
use std::alloc::{AllocError, Global};
use std::marker::Model;

/// A context (RFC 3525, section 6.1): its members in joining order, its priority, whether it is an emergency, and the
/// links between members in the order in which they were made. Contracts see it as the record of `specs/Contexts.antt`.
pub struct Context {
    members: IndexSet<TermName>,
    priority: u8,
    emergency: bool,
    links: Links,
}

// By hand, so that a function that lets a context go does so by one call. A derived one would stand in it field by
// field.
impl Drop for Context {
    fn drop(self) {
        let Context {
            members: _,
            priority: _,
            emergency: _,
            links: _,
        } = self;
    }
}

impl Model for Context {
    ghost use Rattle.gw_ctx.specs.Contexts.{ContextRecord, coded_context};

    ghost Value = { ContextRecord };

    ghost coded = { coded_context };

    ghost view = { λ a. record { members = a.members.keys; priority = a.priority; emergency = a.emergency; links = a.links } };
}

impl Clone for Context {
    ghost is_clone = { λ a b. b ≡ a };

    fn clone(&self) -> Result<Self, AllocError> {
        self.copy()
    }
}

impl Context {
    /// A context without members and links, of priority 0 and no emergency, which takes no memory.
    pub fn new(alloc: Global) -> Self
        ensures { result ≡ new_context }
    {
        Context {
            members: IndexSet::new(alloc),
            priority: 0,
            emergency: false,
            links: Links::new(alloc),
        }
    }

    /// The members in joining order.
    pub fn members(&self) -> &IndexSet<TermName>
        ensures { result.now.keys ≡ self.now.members }
    {
        &self.members
    }

    /// The priority (RFC 3525, section 6.1.1): 0 at first.
    pub fn priority(&self) -> u8
        ensures { result ≡ self.now.priority }
    {
        self.priority
    }

    /// Whether the context is an emergency (RFC 3525, section 6.1.1): not at first.
    pub fn emergency(&self) -> bool
        ensures { result ≡ self.now.emergency }
    {
        self.emergency
    }

    /// The links between members (RFC 3525, section 7.1.18), one by one, in the order in which they were made: none at
    /// first.
    pub fn links(&self) -> LinkIter<'_>
        ensures { result ≡ self.now.links }
    {
        self.links.iter()
    }

    /// The name joins as the last member. The caller knows that it is none yet.
    ///
    /// # Errors
    ///
    /// `Full` exactly where `limit` or more members stand, or out of memory. The members are then as they were.
    pub fn join(&mut self, name: TermName, limit: usize) -> Result<(), JoinFault>
        requires { is_in name self.old.members ≡ false }
        ensures ok { OnOk result (self.new ≡ joined name self.old) }
        ensures full { IsErrOf result JoinFault.Full ↔ (limit ≤ length self.old.members) }
        ensures err { OnErr result (self.new ≡ self.old) }
    {
        if limit <= self.members.len() {
            return Err(JoinFault::Full);
        }
        self.members.insert(name)?;
        Ok(())
    }

    /// The name leaves with its links, and the order of the others stays. Answers whether it was a member. The work is
    /// one pass of the members and of the names that were linked, and one of the links where it is among those.
    pub fn leave(&mut self, name: &TermName) -> bool
        ensures left { self.new ≡ left name.now self.old }
        ensures there { result ≡ is_in name.now self.old.members }
    {
        self.links.drop_of(name);
        self.members.shift_remove(name)
    }

    /// Sets the priority: 0 to 15 by the profile, which the caller keeps.
    pub fn set_priority(&mut self, priority: u8)
        ensures { self.new ≡ prioritized priority self.old }
    {
        self.priority = priority;
    }

    /// The context is an emergency from now on.
    pub fn set_emergency(&mut self)
        ensures { self.new ≡ with_emergency true self.old }
    {
        self.emergency = true;
    }

    /// How media flow between two names from now on: the link of the pair, in either order, goes, and this one goes
    /// last, unless it is both ways. The work is one pass of the names that were linked, and one of the links.
    ///
    /// # Errors
    ///
    /// Out of memory. The context is then as it was.
    pub fn link(&mut self, link: Link) -> Result<(), NoMemory>
        ensures ok { OnOk result (self.new ≡ linked link self.old) }
        ensures err { OnErr result (self.new ≡ self.old) }
    {
        self.links.put(link)
    }

    /// An equal context.
    ///
    /// # Errors
    ///
    /// Out of memory.
    pub fn copy(&self) -> Result<Context, AllocError>
        ensures { IfOk result (λ copy. copy ≡ self.now) }
    {
        Ok(Context {
            members: self.members.clone()?,
            priority: self.priority,
            emergency: self.emergency,
            links: self.links.copy()?,
        })
    }
}

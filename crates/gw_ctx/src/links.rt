//! The links of a context.

ghost use Rattle.std.specs.Prelude.{◌≡◌, ◌++◌, [], IfOk, OnOk, OnErr, length};
ghost use Rattle.std.specs.Iterator.{YieldsFirst, item_count};
ghost use Rattle.gw_ctx.specs.Places.{IsWithin, link_at};
ghost use Rattle.gw_ctx.specs.Contexts.{links_without, links_beside, kept_link};

use crate::names::{place_in, place_of};
use crate::pairs::{Pair, drop_at, put_pair};
use gw_base::{Link, NoMemory, TermName};
use std::alloc::{AllocError, Global};
use std::marker::Model;

/// The links of a context in the order in which they were made, at most one for a pair of names. Contracts see the list
/// of them.
///
/// Each name that was linked is kept once until it leaves, and of a link the places of its two names: so the 2,016
/// links between 64 members take 48 KB and not 260.
#[derive(Drop)]
pub(crate) struct Links {
    names: Vec<TermName>,
    pairs: Vec<Pair>,
}

impl Model for Links {
    ghost use Rattle.std.specs.Prelude.{List};
    ghost use Rattle.gw_base.specs.declared.context_words.Link.{Link};
    ghost use Rattle.gw_ctx.specs.Contexts.{coded_link};
    ghost use Rattle.gw_ctx.specs.Places.{AreKept, links_at};
    ghost use Rattle.std.specs.Coded.{coded_list};

    ghost Value = { List Link };

    ghost coded = { coded_list coded_link };

    ghost view = { λ a. links_at a.names.items a.pairs.items };

    ghost invariant = { λ a. AreKept a.names.items a.pairs.items };
}

/// The link of the names at the two places.
fn link_at(names: &[TermName], pair: Pair) -> Link
    requires { IsWithin (length names.now) pair }
    ensures { result ≡ link_at names.now pair }
{
    Link {
        a: names[pair.a],
        b: names[pair.b],
        flow: pair.flow,
    }
}

impl Links {
    /// No links, which take no memory.
    pub(crate) fn new(alloc: Global) -> Self
        ensures { result ≡ [] }
    {
        Links {
            names: Vec::new(alloc),
            pairs: Vec::new(alloc),
        }
    }

    /// The links one by one.
    pub(crate) fn iter(&self) -> LinkIter<'_>
        ensures { result ≡ self.now }
    {
        LinkIter {
            names: &self.names,
            pairs: &self.pairs,
        }
    }

    /// The links of the name go. The work is one pass of the names, and of the links where the name is there.
    pub(crate) fn drop_of(&mut self, name: &TermName)
        ensures { self.new ≡ links_without name.now self.old }
    {
        if let Some(place) = place_of(&self.names, name) {
            self.names.swap_remove(place);
            drop_at(&mut self.pairs, self.names.len(), place);
        }
    }

    /// The link takes the place of the one of its pair, and goes last, unless it is both ways. The work is one pass of
    /// the names and of the links.
    ///
    /// # Errors
    ///
    /// Out of memory. The links are then as they were.
    pub(crate) fn put(&mut self, link: Link) -> Result<(), NoMemory>
        ensures ok { OnOk result (self.new ≡ links_beside link self.old ++ kept_link link link.flow) }
        ensures err { OnErr result (self.new ≡ self.old) }
    {
        self.names.reserve(2)?;
        self.pairs.reserve(1)?;
        let a = place_in(&mut self.names, link.a);
        let b = place_in(&mut self.names, link.b);
        let flow = link.flow;
        put_pair(&mut self.pairs, Pair { a, b, flow });
        Ok(())
    }

    /// Equal links.
    ///
    /// # Errors
    ///
    /// Out of memory.
    pub(crate) fn copy(&self) -> Result<Links, AllocError>
        ensures { IfOk result (λ copy. copy ≡ self.now) }
    {
        let alloc = *self.names.allocator();
        Ok(Links {
            names: Vec::from_slice(alloc, self.names.as_slice())?,
            pairs: Vec::from_slice(alloc, self.pairs.as_slice())?,
        })
    }
}

/// The links of a context one by one, in the order in which they were made. Contracts see the list of those that are to
/// come.
#[derive(Drop)]
pub struct LinkIter<'a> {
    names: &'a [TermName],
    pairs: &'a [Pair],
}

impl<'a> Model for LinkIter<'a> {
    ghost use Rattle.std.specs.Prelude.{List, length, All};
    ghost use Rattle.gw_base.specs.declared.context_words.Link.{Link};
    ghost use Rattle.gw_ctx.specs.Places.{IsWithin, links_at};

    ghost Value = { List Link };

    ghost view = { λ a. links_at a.names.now a.pairs.now };

    ghost invariant = { λ a. All (IsWithin (length a.names.now)) a.pairs.now };
}

impl<'a> Iterator for LinkIter<'a> {
    type Item = Link;

    ghost next_gives = { YieldsFirst (λ links. links) };

    ghost remaining = { item_count (λ links. links) };

    fn next(&mut self) -> Option<Link> {
        let (first, others) = self.pairs.split_first()?;
        self.pairs = others;
        Some(link_at(self.names, *first))
    }

    fn size_hint(&self) -> (usize, Option<usize>) {
        let left = self.pairs.len();
        (left, Some(left))
    }
}

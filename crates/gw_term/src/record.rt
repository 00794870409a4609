//! The record of a termination.

ghost use Rattle.std.specs.Prelude.{◌≡◌, IfOk};

use crate::held::HeldProperty;
use crate::settings::Settings;
use crate::text::Text;
use gw_base::{CtxNum, Items, NoMemory, Service};
use gw_desc::Mode;
use std::alloc::AllocError;

/// A stream of a termination (RFC 3525, sections 7.1.6 and 7.1.7).
pub struct Stream {
    /// Its mode.
    pub mode: Mode,
    /// The properties of its LocalControl but Mode: at most 32.
    pub properties: Items<HeldProperty>,
    /// Its Local, if there is one.
    pub local: Text,
    /// Its Remote, if there is one.
    pub remote: Text,
}

// By hand, so that a function that drops a stream does so by one call. A derived one would stand in it field by
// field.
impl Drop for Stream {
    fn drop(self) {
        let Stream {
            mode: _,
            properties: _,
            local: _,
            remote: _,
        } = self;
    }
}

/// What is kept of a termination (RFC 3525, section 6.2).
pub struct Termination {
    /// The context that it is in, or none for the null context.
    pub place: Option<CtxNum>,
    /// Its service state.
    pub service: Service,
    /// Its slot, below 4,096, if it is an ephemeral one.
    pub slot: Option<u16>,
    /// What was set of it: properties, streams and tails.
    pub settings: Settings,
}

// As for a stream.
impl Drop for Termination {
    fn drop(self) {
        let Termination {
            place: _,
            service: _,
            slot: _,
            settings: _,
        } = self;
    }
}

// The copy shares what was set of it.
impl Clone for Termination {
    ghost is_clone = { λ a b. b ≡ a };

    fn clone(&self) -> Result<Self, AllocError> {
        Ok(Termination {
            place: self.place,
            service: self.service,
            slot: self.slot,
            settings: self.settings.copied()?,
        })
    }
}

impl Termination {
    ghost use Rattle.gw_term.specs.Record.{unset, provisioned, ephemeral, placed, serviced, reset};

    /// A termination of which nothing was set.
    fn unset(place: Option<CtxNum>, service: Service, slot: Option<u16>) -> Termination
        ensures { result ≡ unset place service slot }
    {
        Termination {
            place,
            service,
            slot,
            settings: Settings::none(),
        }
    }

    /// A termination that was configured: in the null context and in service.
    pub fn provisioned() -> Termination
        ensures { result ≡ provisioned }
    {
        Termination::unset(None, Service::InService, None)
    }

    /// One that is made for this slot, below 4,096, in the null context and in service.
    pub fn ephemeral(slot: u16) -> Termination
        ensures { result ≡ ephemeral slot }
    {
        Termination::unset(None, Service::InService, Some(slot))
    }

    /// The context that it is in, or none for the null context.
    pub fn place(&self) -> Option<CtxNum>
        ensures { result ≡ self.now.place }
    {
        self.place
    }

    /// Its service state.
    pub fn service(&self) -> Service
        ensures { result ≡ self.now.service }
    {
        self.service
    }

    /// It is in another context, or in the null context.
    pub fn set_place(&mut self, place: Option<CtxNum>)
        ensures { self.new ≡ placed self.old place }
    {
        self.place = place;
    }

    /// It has another service state.
    pub fn set_service(&mut self, service: Service)
        ensures { self.new ≡ serviced self.old service }
    {
        self.service = service;
    }

    /// It goes to the null context without streams, properties and tails; its service state and its slot stay.
    pub fn reset(&mut self)
        ensures { self.new ≡ reset self.old }
    {
        *self = Termination::unset(None, self.service, self.slot);
    }

    /// A copy, equal to it. It takes a count.
    ///
    /// # Errors
    ///
    /// Out of memory.
    pub fn copy(&self) -> Result<Termination, NoMemory>
        ensures { IfOk result (λ copy. copy ≡ self.now) }
    {
        Ok(self.clone()?)
    }
}

//! The text of the properties of a context in an action reply.

ghost use Rattle.std.specs.Prelude.{◌≡◌};
ghost use Rattle.gw_reply.specs.ContextParts.{flow_word};

use crate::context_parts::ContextPart;
use crate::wire::{Written, write_number, write_parts};
use gw_base::{Flow, Link};
use std::alloc::AllocError;

fn flow_word(flow: Flow) -> &'static str
    ensures { result.now ≡ flow_word flow }
{
    match flow {
        Flow::Bothway => "Bothway",
        Flow::Isolate => "Isolate",
        Flow::Oneway => "Oneway",
    }
}

impl Written for Link {
    ghost use Rattle.gw_reply.specs.ContextParts.{link_text};

    ghost text = { link_text };

    fn write_to(&self, out: &mut Vec<u8>) -> Result<(), AllocError> {
        out.extend_from_slice(self.a.as_bytes())?;
        out.push(b',')?;
        out.extend_from_slice(self.b.as_bytes())?;
        out.push(b',')?;
        out.extend_from_slice(flow_word(self.flow).as_bytes())
    }
}

impl Written for ContextPart {
    ghost use Rattle.gw_reply.specs.ContextParts.{context_part_text};

    ghost text = { context_part_text };

    fn write_to(&self, out: &mut Vec<u8>) -> Result<(), AllocError> {
        match self {
            ContextPart::Priority(priority) => {
                out.extend_from_slice(b"Priority=")?;
                write_number(u32::from(*priority), out)
            }
            ContextPart::Emergency => out.extend_from_slice(b"Emergency"),
            ContextPart::Topology(links) => {
                out.extend_from_slice(b"Topology{")?;
                write_parts(false, links.as_slice(), out)?;
                out.push(b'}')?;
                Ok(())
            }
        }
    }
}

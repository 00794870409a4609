//! The tables as text, for an operator.

ghost use Rattle.std.specs.Prelude.{◌≡◌, ◌++◌, OnOk, option_copied};
ghost use Rattle.std.specs.List.{flat_map};
ghost use Rattle.gw_reply.specs.ContextParts.{flow_word};
ghost use Rattle.gw_table.specs.TableTexts.{place_text, service_text, member_text, context_line, priority_line, emergency_line, topology_line, context_text, term_line, context_lines, term_lines, tables_text};
ghost use Rattle.gw_table.specs.Stored.{maps_of};

use crate::tables::Tables;
use gw_base::{CtxNum, Flow, Link, NoMemory, Service, TermName};
use gw_ctx::Context;
use gw_reply::write_number;
use gw_term::Termination;
use std::alloc::{AllocError, Global};

fn write_place(place: Option<CtxNum>, out: &mut Vec<u8>) -> Result<(), AllocError>
    ensures { OnOk result (out.new.items ≡ out.old.items ++ place_text place) }
{
    match place {
        Some(CtxNum(number)) => write_number(number, out),
        None => out.extend_from_slice(b"-"),
    }
}

fn write_service(service: Service, out: &mut Vec<u8>) -> Result<(), AllocError>
    ensures { OnOk result (out.new.items ≡ out.old.items ++ service_text service) }
{
    match service {
        Service::Test => out.extend_from_slice(b"Test"),
        Service::OutOfService => out.extend_from_slice(b"OutOfService"),
        Service::InService => out.extend_from_slice(b"InService"),
    }
}

fn write_members(members: &[TermName], out: &mut Vec<u8>) -> Result<(), AllocError>
    ensures { OnOk result (out.new.items ≡ out.old.items ++ flat_map member_text members.now) }
{
    for name in members {
        out.push(b' ')?;
        out.extend_from_slice(name.as_bytes())?;
    }
    Ok(())
}

fn write_context_line(
    number: CtxNum,
    members: &[TermName],
    out: &mut Vec<u8>,
) -> Result<(), AllocError>
    ensures { OnOk result (out.new.items ≡ out.old.items ++ context_line number members.now) }
{
    out.extend_from_slice(b"context ")?;
    write_number(number.0, out)?;
    write_members(members, out)?;
    out.push(b'\n')?;
    Ok(())
}

/// A line where the priority is not 0.
fn write_priority(number: CtxNum, priority: u8, out: &mut Vec<u8>) -> Result<(), AllocError>
    ensures { OnOk result (out.new.items ≡ out.old.items ++ priority_line number priority) }
{
    if priority == 0 {
        return Ok(());
    }
    out.extend_from_slice(b"priority ")?;
    write_number(number.0, out)?;
    out.push(b' ')?;
    write_number(u32::from(priority), out)?;
    out.push(b'\n')?;
    Ok(())
}

/// A line where the context is an emergency.
fn write_emergency(number: CtxNum, emergency: bool, out: &mut Vec<u8>) -> Result<(), AllocError>
    ensures { OnOk result (out.new.items ≡ out.old.items ++ emergency_line number emergency) }
{
    if !emergency {
        return Ok(());
    }
    out.extend_from_slice(b"emergency ")?;
    write_number(number.0, out)?;
    out.push(b'\n')?;
    Ok(())
}

fn flow_word(flow: Flow) -> &'static str
    ensures { result.now ≡ flow_word flow }
{
    match flow {
        Flow::Bothway => "Bothway",
        Flow::Isolate => "Isolate",
        Flow::Oneway => "Oneway",
    }
}

fn write_link(number: CtxNum, link: Link, out: &mut Vec<u8>) -> Result<(), AllocError>
    ensures { OnOk result (out.new.items ≡ out.old.items ++ topology_line number link) }
{
    out.extend_from_slice(b"topology ")?;
    write_number(number.0, out)?;
    out.push(b' ')?;
    out.extend_from_slice(link.a.as_bytes())?;
    out.push(b' ')?;
    out.extend_from_slice(link.b.as_bytes())?;
    out.push(b' ')?;
    out.extend_from_slice(flow_word(link.flow).as_bytes())?;
    out.push(b'\n')?;
    Ok(())
}

/// A line for each link.
fn write_links(number: CtxNum, context: &Context, out: &mut Vec<u8>) -> Result<(), AllocError>
    ensures { OnOk result (out.new.items ≡ out.old.items ++ flat_map (topology_line number) context.now.links) }
{
    for link in context.links() {
        write_link(number, link, out)?;
    }
    Ok(())
}

/// The line of a context, and behind it those of its properties.
fn write_context(
    number: CtxNum,
    context: Option<&Context>,
    out: &mut Vec<u8>,
) -> Result<(), AllocError>
    ensures { OnOk result (out.new.items ≡ out.old.items ++ context_text number (option_copied context.entry)) }
{
    if let Some(context) = context {
        write_context_line(number, context.members().as_slice(), out)?;
        write_priority(number, context.priority(), out)?;
        write_emergency(number, context.emergency(), out)?;
        write_links(number, context, out)?;
    }
    Ok(())
}

fn write_term(
    name: TermName,
    termination: Option<&Termination>,
    out: &mut Vec<u8>,
) -> Result<(), AllocError>
    ensures { OnOk result (out.new.items ≡ out.old.items ++ term_line name (option_copied termination.entry)) }
{
    if let Some(termination) = termination {
        out.extend_from_slice(b"term ")?;
        out.extend_from_slice(name.as_bytes())?;
        out.push(b' ')?;
        write_place(termination.place(), out)?;
        out.push(b' ')?;
        write_service(termination.service(), out)?;
        out.push(b'\n')?;
    }
    Ok(())
}

/// The lines of each of the contexts.
fn write_contexts(tables: &Tables, numbers: &[CtxNum], out: &mut Vec<u8>) -> Result<(), AllocError>
    ensures { OnOk result (out.new.items ≡ out.old.items ++ context_lines (maps_of tables.now) numbers.now) }
{
    for number in numbers {
        write_context(*number, tables.find_ctx(*number), out)?;
    }
    Ok(())
}

/// A line for each of the terminations.
fn write_terms(tables: &Tables, names: &[TermName], out: &mut Vec<u8>) -> Result<(), AllocError>
    ensures { OnOk result (out.new.items ≡ out.old.items ++ term_lines (maps_of tables.now) names.now) }
{
    for name in names {
        write_term(*name, tables.find_term(name), out)?;
    }
    Ok(())
}

impl Tables {
    /// Writes a line `context <number> <members>` for each context, the numbers rising, each with lines behind it for
    /// its properties: `priority <number> <priority>` where it is not 0, `emergency <number>` where it is one, and
    /// `topology <number> <name> <name> <Oneway or Isolate>` for each link. Behind the contexts stands a line `term
    /// <name> <context or -> <service state>` for each termination, in the order of the bytes of their names. The
    /// work is linear in the text, but for a look-up for each context and termination.
    ///
    /// # Errors
    ///
    /// Out of memory. A front of the text may then be written.
    pub fn write_text(&self, alloc: Global, out: &mut Vec<u8>) -> Result<(), NoMemory>
        ensures { OnOk result (out.new.items ≡ out.old.items ++ tables_text (maps_of self.now)) }
    {
        let numbers = self.numbers(alloc)?;
        write_contexts(self, numbers.as_slice(), out)?;
        let names = self.names(alloc)?;
        write_terms(self, names.as_slice(), out)?;
        Ok(())
    }
}

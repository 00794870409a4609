//! The properties of its context in the reply to an action.

ghost use Rattle.std.specs.Prelude.{◌≡◌, ◌&&◌, not, IfOk, option_to_list};
ghost use Rattle.std.specs.List.{flat_map, list_any};
ghost use Rattle.gw_reply.specs.ContextParts.{context_part_text};
ghost use Rattle.gw_reply.specs.Writers.{inside, written_behind};
ghost use Rattle.gw_table.specs.Maps.{ctx};
ghost use Rattle.gw_tx.specs.Properties.{is_audit, is_nothing, items_of, kind_in, link_parts, item_parts, reply_items, context_parts, context_parts_if};
ghost use Rattle.gw_tx.specs.LimitedText.{is_unused, IsBegun};

use crate::limited_text::inside;
use crate::properties::has_audit;
use gw_base::{CtxNum, Items, Link, NoMemory};
use gw_ctx::Context;
use gw_msg::{Action, ContextItem, ContextProp};
use gw_reply::{ActionReply, ContextPart, ReplyWriter};
use gw_table::Draft;
use std::alloc::Global;

/// The links of a context.
fn links_of(alloc: Global, context: &Context) -> Result<Items<Link>, NoMemory>
    ensures { IfOk result (λ links. links ≡ context.now.links) }
{
    let mut links = Items::new(alloc);
    for link in context.links() {
        links.push(link)?;
    }
    Ok(links)
}

/// Writes the links, if there are any.
fn write_links(
    alloc: Global,
    context: &Context,
    writer: ReplyWriter<ContextPart>,
) -> Result<ReplyWriter<ContextPart>, NoMemory>
    ensures { IfOk result (λ all. all ≡ written_behind context_part_text writer (link_parts context.now.links)) }
{
    let links = links_of(alloc, context)?;
    if links.is_empty() {
        return Ok(writer);
    }
    writer.write(ContextPart::Topology(links))
}

/// Writes one item. No emergency and no link is written as nothing.
fn write_item(
    alloc: Global,
    context: &Context,
    item: ContextItem,
    writer: ReplyWriter<ContextPart>,
) -> Result<ReplyWriter<ContextPart>, NoMemory>
    ensures { IfOk result (λ all. all ≡ written_behind context_part_text writer (item_parts context.now item)) }
{
    match item {
        ContextItem::Priority => writer.write(ContextPart::Priority(context.priority())),
        ContextItem::Emergency => {
            if context.emergency() {
                return writer.write(ContextPart::Emergency);
            }
            Ok(writer)
        }
        ContextItem::Topology => write_links(alloc, context, writer),
    }
}

fn write_items(
    alloc: Global,
    context: &Context,
    items: &[ContextItem],
    writer: ReplyWriter<ContextPart>,
) -> Result<ReplyWriter<ContextPart>, NoMemory>
    ensures { IfOk result (λ all. all ≡ written_behind context_part_text writer (flat_map (item_parts context.now) items.now)) }
{
    let mut writer = writer;
    for item in items {
        writer = write_item(alloc, context, *item, writer)?;
    }
    Ok(writer)
}

/// Writes the items of each ContextAudit.
fn write_audited(
    alloc: Global,
    context: &Context,
    props: &[ContextProp],
    writer: ReplyWriter<ContextPart>,
) -> Result<ReplyWriter<ContextPart>, NoMemory>
    ensures { IfOk result (λ all. all ≡ written_behind context_part_text writer (flat_map (item_parts context.now) (items_of props.now))) }
{
    let mut writer = writer;
    for prop in props {
        if let ContextProp::ContextAudit(items) = prop {
            writer = write_items(alloc, context, items.as_slice(), writer)?;
        }
    }
    Ok(writer)
}

/// The item that a property sets. A ContextAudit sets none.
fn kind_in(prop: &ContextProp) -> Option<ContextItem>
    ensures { option_to_list result ≡ kind_in prop.now }
{
    match prop {
        ContextProp::Priority(_) => Some(ContextItem::Priority),
        ContextProp::Emergency => Some(ContextItem::Emergency),
        ContextProp::Topology(_) => Some(ContextItem::Topology),
        ContextProp::ContextAudit(_) => None,
    }
}

/// Writes the items that were set.
fn write_set(
    alloc: Global,
    context: &Context,
    props: &[ContextProp],
    writer: ReplyWriter<ContextPart>,
) -> Result<ReplyWriter<ContextPart>, NoMemory>
    ensures { IfOk result (λ all. all ≡ written_behind context_part_text writer (flat_map (item_parts context.now) (flat_map kind_in props.now))) }
{
    let mut writer = writer;
    for prop in props {
        if let Some(item) = kind_in(prop) {
            writer = write_item(alloc, context, item, writer)?;
        }
    }
    Ok(writer)
}

/// Writes the items of ContextAudits, or, where there is neither such a one nor a command, those that were set.
#[tactic(auto, unfolding(crate::specs::Properties::reply_items))]
fn write_reply_items(
    alloc: Global,
    context: &Context,
    sent: &Action<'_>,
    writer: ReplyWriter<ContextPart>,
) -> Result<ReplyWriter<ContextPart>, NoMemory>
    ensures { IfOk result (λ all. all ≡ written_behind context_part_text writer (flat_map (item_parts context.now) (reply_items sent.now))) }
{
    let props = sent.props.as_slice();
    if has_audit(props) {
        return write_audited(alloc, context, props, writer);
    }
    if sent.commands.is_empty() {
        return write_set(alloc, context, props, writer);
    }
    Ok(writer)
}

/// Whether nothing is written, though there is room.
fn is_unused(writer: &ReplyWriter<ContextPart>) -> bool
    ensures { result ≡ is_unused writer.now }
{
    match writer {
        ReplyWriter::All(parts) => parts.is_empty(),
        ReplyWriter::Within(text, _) => text.is_empty(),
        ReplyWriter::TooLong => false,
    }
}

/// Writes a context as it is. In the reply to an action without commands something stands: the priority.
fn context_parts(
    alloc: Global,
    context: &Context,
    sent: &Action<'_>,
    writer: ReplyWriter<ContextPart>,
) -> Result<ReplyWriter<ContextPart>, NoMemory>
    requires { IsBegun writer }
    ensures { IfOk result (λ all. all ≡ written_behind context_part_text writer (context_parts sent.now context.now)) }
{
    let all = write_reply_items(alloc, context, sent, writer)?;
    if sent.commands.is_empty() && is_unused(&all) {
        return all.write(ContextPart::Priority(context.priority()));
    }
    Ok(all)
}

/// Whether the reply has nothing of the context, whatever it is: there are commands, and no ContextAudit.
fn has_no_part(sent: &Action<'_>) -> bool
    ensures { result ≡ (not (is_nothing sent.now.commands) && not (list_any is_audit sent.now.props)) }
{
    !sent.commands.is_empty() && !has_audit(sent.props.as_slice())
}

/// Writes the context with this number, where it is there, into the room that there is for the action. Where that is
/// used up, or the reply has nothing of the context, nothing is looked up.
///
/// # Errors
///
/// Out of memory.
pub(crate) fn context_parts_if(
    alloc: Global,
    draft: &Draft,
    number: CtxNum,
    sent: &Action<'_>,
    writer: &ReplyWriter<ActionReply>,
) -> Result<ReplyWriter<ContextPart>, NoMemory>
    ensures { IfOk result (λ all. all ≡ written_behind context_part_text (inside writer.now) (context_parts_if sent.now (ctx draft.now.maps number))) }
{
    let begun = inside(alloc, writer);
    if let ReplyWriter::TooLong = begun {
        return Ok(begun);
    }
    if has_no_part(sent) {
        return Ok(begun);
    }
    match draft.ctx(number) {
        Some(context) => context_parts(alloc, context, sent, begun),
        None => Ok(begun),
    }
}

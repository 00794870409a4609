//! Properties of contexts that are set.

ghost use Rattle.std.specs.Prelude.{◌≡◌, true, false, OnOk};
ghost use Rattle.std.specs.List.{list_any};
ghost use Rattle.gw_base.specs.declared.ids.CtxNum.{CtxNum};
ghost use Rattle.gw_base.specs.declared.key.Key.TheVariants.{Ctx};
ghost use Rattle.gw_refusal.specs.declared.at.At.TheVariants.{Unmade};
ghost use Rattle.gw_table.specs.Parts.{holds};
ghost use Rattle.gw_tx.specs.Properties.{linked_if, link_of, name_of, linked_by, is_too_high, with_property, set_property, set_properties};
ghost use Rattle.gw_tx.specs.Transactions.{set_when_made};

use crate::properties::name_of;
use gw_base::{CtxNum, Link, NoMemory};
use gw_cmd::At;
use gw_ctx::Context;
use gw_msg::{ContextProp, Triple};
use gw_table::Draft;

fn link_two(context: &mut Context, triple: &Triple) -> Result<(), NoMemory>
    ensures { OnOk result (context.new ≡ linked_if (link_of (name_of triple.now.a) (name_of triple.now.b) triple.now.flow) context.old) }
{
    match (name_of(triple.a), name_of(triple.b)) {
        (Some(a), Some(b)) => context.link(Link {
            a,
            b,
            flow: triple.flow,
        }),
        _ => Ok(()),
    }
}

/// Links two after two, in order.
fn link_all(context: &mut Context, triples: &[Triple]) -> Result<(), NoMemory>
    ensures { OnOk result (context.new ≡ linked_by triples.now context.old) }
{
    for triple in triples {
        link_two(context, triple)?;
    }
    Ok(())
}

/// The context has the property. A ContextAudit sets nothing.
fn set_in(context: &mut Context, prop: &ContextProp) -> Result<(), NoMemory>
    requires low { is_too_high prop.now ≡ false }
    ensures { OnOk result (context.new ≡ with_property prop.now context.old) }
{
    match prop {
        ContextProp::Priority(priority) => context.set_priority(*priority as u8),
        ContextProp::Emergency => context.set_emergency(),
        ContextProp::Topology(triples) => link_all(context, triples.as_slice())?,
        ContextProp::ContextAudit(_) => {}
    }
    Ok(())
}

/// Sets a property of a context, where it is there: it is taken out, changed and set again, unless nothing is to be
/// set.
fn set_property(draft: &mut Draft, number: CtxNum, prop: &ContextProp) -> Result<(), NoMemory>
    requires key { holds draft.old.keys (Ctx number) ≡ true }
    requires low { is_too_high prop.now ≡ false }
    ensures maps { OnOk result (draft.new.maps ≡ set_property number prop.now draft.old.maps) }
    ensures keys { draft.new.keys ≡ draft.old.keys }
{
    if let ContextProp::ContextAudit(_) = prop {
        return Ok(());
    }
    let Some(mut context) = draft.take_ctx(number)? else {
        return Ok(());
    };
    set_in(&mut context, prop)?;
    draft.set_ctx(number, Some(context))
}

/// Sets the properties of a context, in the order written, where it is there. The caller knows that its number is one
/// of the draft's keys, and that each priority is one that there is. In whole tables the first that is set copies the
/// context; a Topology takes one pass of the links for each triple.
///
/// # Errors
///
/// Out of memory. The context may then be gone from the draft.
pub(crate) fn set_properties(
    draft: &mut Draft,
    number: CtxNum,
    props: &[ContextProp],
) -> Result<(), NoMemory>
    requires key { holds draft.old.keys (Ctx number) ≡ true }
    requires low { list_any is_too_high props.now ≡ false }
    ensures maps { OnOk result (draft.new.maps ≡ set_properties number props.now draft.old.maps) }
    ensures keys { draft.new.keys ≡ draft.old.keys }
{
    for prop in props {
        set_property(draft, number, prop)?;
    }
    Ok(())
}

/// A context that has just been made gets its properties.
pub(crate) fn set_when_made(
    draft: &mut Draft,
    made: bool,
    at: At,
    late: &[ContextProp],
) -> Result<(), NoMemory>
    requires key { (number : CtxNum) → at ≡ Unmade number → holds draft.old.keys (Ctx number) ≡ true }
    requires low { list_any is_too_high late.now ≡ false }
    ensures maps { OnOk result (draft.new.maps ≡ set_when_made made at late.now draft.old.maps) }
    ensures keys { draft.new.keys ≡ draft.old.keys }
{
    match at {
        At::Unmade(number) if made => set_properties(draft, number, late),
        _ => Ok(()),
    }
}

//! The terminations that a Topology names.

ghost use Rattle.std.specs.Prelude.{◌≡◌, ◌++◌, IfOk, OnOk};
ghost use Rattle.std.specs.List.{flat_map, list_any};
ghost use Rattle.gw_tx.specs.Properties.{triples_in, names_in, linked_names, is_absent, is_elsewhere, refusal_of_links};

use crate::properties::name_of;
use gw_base::{Code, CtxNum, NoMemory, TermName};
use gw_msg::{ContextProp, Triple};
use gw_table::Draft;
use std::alloc::Global;

/// The names of one triple.
fn add_names(triple: &Triple, names: &mut Vec<TermName>) -> Result<(), NoMemory>
    ensures { OnOk result (names.new.items ≡ names.old.items ++ names_in triple.now) }
{
    if let Some(name) = name_of(triple.a) {
        names.push(name)?;
    }
    if let Some(name) = name_of(triple.b) {
        names.push(name)?;
    }
    Ok(())
}

fn add_triples(triples: &[Triple], names: &mut Vec<TermName>) -> Result<(), NoMemory>
    ensures { OnOk result (names.new.items ≡ names.old.items ++ flat_map names_in triples.now) }
{
    for triple in triples {
        add_names(triple, names)?;
    }
    Ok(())
}

fn add_property(prop: &ContextProp, names: &mut Vec<TermName>) -> Result<(), NoMemory>
    ensures { OnOk result (names.new.items ≡ names.old.items ++ flat_map names_in (triples_in prop.now)) }
{
    match prop {
        ContextProp::Topology(triples) => add_triples(triples.as_slice(), names),
        _ => Ok(()),
    }
}

/// The names in a Topology, in the order written.
///
/// # Errors
///
/// Out of memory.
pub fn linked_names(alloc: Global, props: &[ContextProp]) -> Result<Vec<TermName>, NoMemory>
    ensures { IfOk result (λ names. names.items ≡ linked_names props.now) }
{
    let mut names = Vec::new(alloc);
    for prop in props {
        add_property(prop, &mut names)?;
    }
    Ok(names)
}

fn is_absent(draft: &Draft, name: &TermName) -> bool
    ensures { result ≡ is_absent draft.now.maps name.now }
{
    draft.term(name).is_none()
}

fn is_elsewhere(draft: &Draft, number: CtxNum, name: &TermName) -> bool
    ensures { result ≡ is_elsewhere number draft.now.maps name.now }
{
    match draft.term(name) {
        Some(termination) => termination.place() != Some(number),
        None => true,
    }
}

fn is_any_absent(draft: &Draft, names: &[TermName]) -> bool
    ensures { result ≡ list_any (is_absent draft.now.maps) names.now }
{
    names.iter().any(|name| is_absent(draft, name))
}

fn is_any_elsewhere(draft: &Draft, number: CtxNum, names: &[TermName]) -> bool
    ensures { result ≡ list_any (is_elsewhere number draft.now.maps) names.now }
{
    names.iter().any(|name| is_elsewhere(draft, number, name))
}

/// Why these terminations are not linked in this context: the first code that applies. A name takes two look-ups.
pub(crate) fn refusal_of_links(draft: &Draft, number: CtxNum, names: &[TermName]) -> Option<Code>
    ensures { result ≡ refusal_of_links number names.now draft.now.maps }
{
    if is_any_absent(draft, names) {
        return Some(Code::UnknownTermination);
    }
    if is_any_elsewhere(draft, number, names) {
        return Some(Code::NotInContext);
    }
    None
}

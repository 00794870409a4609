//! Properties: how one takes its place in a list.

ghost use Rattle.std.specs.Prelude.{◌≡◌, ◌≤◌, length, IfOk};
ghost use Rattle.gw_term.specs.Merge.{property_place, put_property, each};
ghost use Rattle.gw_term.specs.Applies.{Becomes, Yields};

use crate::fault::ApplyFault;
use crate::held::HeldProperty;
use gw_base::{Code, Items};
use std::alloc::{AllocError, Global};

/// How many properties a list may hold (own to this profile).
const MOST_PROPERTIES: usize = 32;

/// The place of the one of the property's name, in any case, or the length of the list.
fn property_place(property: &HeldProperty, list: &[HeldProperty]) -> usize
    ensures value { result ≡ property_place property.now.name list.now }
    ensures within { result ≤ length list.now }
{
    for (i, other) in list.iter().enumerate() {
        if other.has_same_name(property) {
            return i;
        }
    }
    list.len()
}

/// The property takes the place of the one of its name, or goes last.
fn put_property(kept: HeldProperty, list: &mut Items<HeldProperty>) -> Result<(), ApplyFault>
    ensures { Becomes result list.new (put_property kept list.old) }
{
    let place = property_place(&kept, list.as_slice());
    let is_there = place < list.len();
    if !is_there && list.len() >= MOST_PROPERTIES {
        return Err(ApplyFault::Code(Code::InsufficientResources));
    }
    if is_there {
        list.set(place, kept);
    } else {
        list.push(kept)?;
    }
    Ok(())
}

/// A copy of the properties, with room for one more, unless they are as many as a list may hold. Where there are none,
/// it takes no memory.
fn copied_properties(
    alloc: Global,
    properties: &[HeldProperty],
) -> Result<Items<HeldProperty>, AllocError>
    ensures { IfOk result (λ copy. copy ≡ properties.now) }
{
    if properties.is_empty() {
        return Ok(Items::new(alloc));
    }
    let room = MOST_PROPERTIES.min(properties.len() + 1);
    let mut copy = Vec::with_capacity(alloc, room)?;
    for property in properties {
        copy.push(property.copied(alloc)?)?;
    }
    Ok(Items::from(copy))
}

/// The properties after those that are sent, of which copies are put one after another.
pub(crate) fn merged_properties(
    alloc: Global,
    sent: &[HeldProperty],
    old: &[HeldProperty],
) -> Result<Items<HeldProperty>, ApplyFault>
    ensures { Yields result (each put_property sent.now old.now) }
{
    let mut list = copied_properties(alloc, old)?;
    for property in sent {
        put_property(property.copied(alloc)?, &mut list)?;
    }
    Ok(list)
}

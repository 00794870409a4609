//! What workers answered, each in its job's place.

ghost use Rattle.std.specs.Prelude.{◌≡◌, ◌++◌, true, flat_map, IfOk, OnOk, is_ok};
ghost use Rattle.std.specs.List.{list_all};
ghost use Rattle.std.specs.Option.{option_to_list};
ghost use Rattle.gw_engine.specs.Drawn.{given};

use gw_base::{Items, NoMemory};
use std::alloc::Global;

/// The most jobs that are drawn.
pub(crate) const MOST_DRAWN: usize = 4_294_967_295;

/// An answer goes last, if there is one.
pub(crate) fn push_present<X: Drop>(
    present: &mut Items<X>,
    answer: Option<X>,
) -> Result<(), NoMemory>
    ensures { OnOk result (present.new ≡ present.old ++ option_to_list answer) }
{
    if let Some(answer) = answer {
        present.push(answer)?;
    }
    Ok(())
}

/// What is there of the answers, in order.
///
/// # Errors
///
/// Out of memory, for one of them or here.
pub(crate) fn present_in<X: Drop>(
    alloc: Global,
    answers: Vec<Result<Option<X>, NoMemory>>,
) -> Result<Items<X>, NoMemory>
    ensures present { IfOk result (λ present. present ≡ flat_map given answers.items) }
    ensures ok { OnOk result (list_all is_ok answers.items ≡ true) }
{
    let mut present = Items::from(Vec::with_capacity(alloc, answers.len())?);
    for answer in answers {
        push_present(&mut present, answer?)?;
    }
    Ok(present)
}

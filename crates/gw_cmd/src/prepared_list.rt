//! The commands of an action, each with what is found of it once.

ghost use Rattle.std.specs.Prelude.{IfOk};
ghost use Rattle.gw_cmd.specs.Prepared.{ArePrepared};

use crate::prepared::Prepared;
use gw_base::{NoMemory, Rules};
use gw_msg::Command;
use std::alloc::Global;

/// Each of these commands under the rules.
///
/// # Errors
///
/// Out of memory.
pub fn all_prepared<'a, 'b>(
    alloc: Global,
    rules: &'a Rules,
    commands: &'a [Command<'b>],
) -> Result<Vec<Prepared<'a, 'b>>, NoMemory>
    ensures { IfOk result (λ list. ArePrepared rules.now list.items commands.now) }
{
    let mut list = Vec::with_capacity(alloc, commands.len())?;
    for command in commands {
        list.push(Prepared::new(rules, command, true))?;
    }
    Ok(list)
}

//! The gateway's tables as text, for an operator.

ghost use Rattle.std.specs.Prelude.{◌≡◌, ◌++◌, IfOk, OnOk};
ghost use Rattle.gw_engine.specs.AuditText.{cursors_line, kept_line, audit_text};
ghost use Rattle.gw_engine.specs.State.{IsWellFormed};

use crate::gateway::Gateway;
use gw_base::NoMemory;
use gw_reply::write_number;
use gw_reserve::Cursors;
use std::alloc::{AllocError, Global};

fn write_cursors(cursors: Cursors, out: &mut Vec<u8>) -> Result<(), AllocError>
    ensures { OnOk result (out.new.items ≡ out.old.items ++ cursors_line cursors.context cursors.slot) }
{
    out.extend_from_slice(b"cursors ")?;
    write_number(cursors.context, out)?;
    out.push(b' ')?;
    write_number(cursors.slot, out)?;
    out.push(b'\n')?;
    Ok(())
}

fn write_kept(count: u32, out: &mut Vec<u8>) -> Result<(), AllocError>
    ensures { OnOk result (out.new.items ≡ out.old.items ++ kept_line count) }
{
    out.extend_from_slice(b"kept ")?;
    write_number(count, out)?;
    out.push(b'\n')?;
    Ok(())
}

impl Gateway {
    /// The tables and cursors as text: a line `cursors <contexts> <slots>`, a line `context <number> <members>` for
    /// each context, a line `term <name> <context or -> <service state>` for each termination, and a line `kept
    /// <count>`. The work is linear in the text, but for a look-up for each line.
    ///
    /// # Errors
    ///
    /// Out of memory.
    pub fn audit_tables(&self, alloc: Global) -> Result<Vec<u8>, NoMemory>
        ensures text { IfOk result (λ text. text.items ≡ audit_text self.now) }
        ensures fits { IsWellFormed self.now.settings self.now.state }
    {
        let mut out = Vec::new(alloc);
        write_cursors(self.cursors, &mut out)?;
        self.tables.write_text(alloc, &mut out)?;
        write_kept(self.kept.len() as u32, &mut out)?;
        Ok(out)
    }
}

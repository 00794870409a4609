//! What serving lost, and the lines that say so.

ghost use Rattle.std.specs.Prelude.{◌≡◌, ◌+◌, IfSome};

use std::io::Write;

/// What can be lost.
#[derive(Clone, Copy)]
pub(crate) enum Loss {
    /// A burst for which memory was refused.
    Burst,
    /// A datagram that is too long.
    Datagram,
    /// A datagram that is from no controller.
    Stranger,
    /// An answer that could not be sent.
    Send,
}

/// How often each was lost.
#[derive(Clone, Copy)]
pub(crate) struct Losses {
    pub(crate) bursts: u64,
    pub(crate) datagrams: u64,
    pub(crate) strangers: u64,
    pub(crate) sends: u64,
}

/// One more; a count that is full stays.
fn more(count: &mut u64) -> u64 {
    *count = count.saturating_add(1);
    *count
}

/// Writes a line, and flushes. A writer that fails changes nothing.
fn write_loss<W: Write>(out: &mut W, loss: Loss, count: u64) {
    let written = match loss {
        Loss::Burst => writeln!(out, "dropped {count} bursts: no memory"),
        Loss::Datagram => writeln!(out, "dropped {count} datagrams: too long"),
        Loss::Stranger => writeln!(out, "dropped {count} datagrams: not a controller"),
        Loss::Send => writeln!(out, "failed {count} sends"),
    };
    if written.is_ok() {
        let _ = out.flush();
    }
}

impl Losses {
    /// Nothing was lost.
    pub(crate) const NONE: Losses = Losses {
        bursts: 0,
        datagrams: 0,
        strangers: 0,
        sends: 0,
    };

    /// One more was lost, which a line on `out` says at the 1st, 2nd, 4th, 8th, .. time.
    pub(crate) fn lose<W: Write>(&mut self, loss: Loss, out: &mut W) {
        let count = match loss {
            Loss::Burst => more(&mut self.bursts),
            Loss::Datagram => more(&mut self.datagrams),
            Loss::Stranger => more(&mut self.strangers),
            Loss::Send => more(&mut self.sends),
        };
        if count.is_power_of_two() {
            write_loss(out, loss, count);
        }
    }
}

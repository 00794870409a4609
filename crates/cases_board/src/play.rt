//! A burst on a board: its steps, one after another.

ghost use Rattle.std.specs.Prelude.{[], IfOk};
ghost use Rattle.gw_table.specs.Stored.{maps_of, NoneIsOut};
ghost use Rattle.gw_table.specs.Unused.{AreUnused};
ghost use Rattle.gw_table.specs.WellFormed.{AreWellFormed};
ghost use Rattle.gw_board.specs.Results.{slots_of};
ghost use Rattle.cases_board.specs.Held.{AreHeld, MayEnd};

use crate::held::{End, Held, none_held};
use crate::steps::{end_by, take};
use crate::write_step::{write_replies, write_tables};
use cases_text::{CaseFault, Page, as_text, split_at_byte};
use gw_board::{Board, BoardFault, BurstRequest, Profile};
use gw_table::Tables;

/// A text without the space that it begins with.
fn without_space(text: &[u8]) -> &[u8] {
    text.strip_prefix(b" ").unwrap_or(text)
}

/// Takes the steps, which have commas between them, up to one that ends the board, and writes what each answers.
fn walk<'b, 'h, 'a>(
    board: &mut Board<'b, 'h, 'a>,
    held: &mut Held<'b, 'h, 'a>,
    steps: &[u8],
    out: &mut Page,
) -> Result<End, CaseFault>
    requires { AreHeld board.old held.old.items }
    ensures { IfOk result (MayEnd board.new) }
{
    let mut rest = steps;
    // Each step takes one byte or more.
    for _step in steps {
        if rest.is_empty() {
            return Ok(End::Left);
        }
        let (step, behind) = split_at_byte(without_space(rest), b',');
        rest = behind;
        out.put(step);
        match end_by(board, held, as_text(step)) {
            End::Left => out.put(b": "),
            end => return Ok(end),
        }
        take(board, held, step, out)?;
        out.put(b"\n");
    }
    Ok(End::Left)
}

/// Puts a burst on a board of these tables, takes the steps, and writes what each answers, and the tables at its end.
/// The caller knows that the tables are well-formed, that nothing is out, and that what the requests own is unused.
pub fn play(
    tables: Tables,
    profile: Profile,
    requested: &[BurstRequest<'_, '_>],
    steps: &[u8],
    out: &mut Page,
) -> Result<(), CaseFault>
    requires whole { AreWellFormed profile.rules.members (maps_of tables) }
    requires here { NoneIsOut tables }
    requires unused { AreUnused (maps_of tables) [] (slots_of requested.now) }
{
    let mut board = match Board::new(out.alloc(), tables, profile, requested) {
        Ok(board) => board,
        Err(BoardFault::NoMemory(_)) => return Err(CaseFault::NoMemory),
    };
    let Ok(mut held) = none_held(out.alloc(), requested.len()) else {
        return Err(CaseFault::NoMemory);
    };
    match walk(&mut board, &mut held, steps, out)? {
        End::Undo => {
            out.put(b":\n");
            write_tables(out, &board.undo())
        }
        End::Finish => {
            let (tables, replies) = board.finish();
            out.put(b":\n");
            write_replies(out, &replies);
            write_tables(out, &tables)
        }
        End::Left => Ok(()),
    }
}

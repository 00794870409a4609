//! Single steps on a board, and what each answers.

ghost use Rattle.std.specs.Prelude.{◌≡◌, length, IsTrue};
ghost use Rattle.gw_board.specs.Boards.{AllClosed, IsSameBurst};
ghost use Rattle.cases_board.specs.Held.{AreHeld, MayEnd};

use crate::held::{End, Held, hold, is_none_held, job_at, taken};
use crate::write_step::{write_places, write_runs};
use cases_text::{CaseFault, Page, as_text, number_of, split_word};
use gw_base::NoMemory;
use gw_board::{Board, Done, Job, OpenFault, carry};
use std::alloc::Global;

/// The answer to a step that a caller may not take.
const NOT_ALLOWED: &[u8] = b"not allowed";

/// Opens a place and keeps its job.
fn opened<'b, 'h, 'a>(
    alloc: Global,
    board: &mut Board<'b, 'h, 'a>,
    held: &mut Held<'b, 'h, 'a>,
    place: usize,
) -> Result<(), OpenFault>
    requires { AreHeld board.old held.old.items }
    ensures held { AreHeld board.new held.new.items }
    ensures same { IsSameBurst board.old board.new }
{
    let job = board.open(alloc, place)?;
    hold(held, place, job);
    Ok(())
}

/// Carries the job of a place out and closes it with its result. Whether a job is open there.
fn closed<'b, 'h, 'a>(
    alloc: Global,
    board: &mut Board<'b, 'h, 'a>,
    held: &mut Held<'b, 'h, 'a>,
    place: usize,
) -> Result<bool, NoMemory>
    requires { AreHeld board.old held.old.items }
    ensures held { AreHeld board.new held.new.items }
    ensures same { IsSameBurst board.old board.new }
{
    let Some(job) = taken(held, place) else {
        return Ok(false);
    };
    match carry(alloc, &job) {
        Ok((part, reply)) => {
            board.close(Done::new(job, part, reply));
            Ok(true)
        }
        Err(NoMemory) => {
            board.close(Done::unchanged(job));
            Err(NoMemory)
        }
    }
}

/// Closes the job of a place unchanged. Whether a job is open there.
fn returned<'b, 'h, 'a>(
    board: &mut Board<'b, 'h, 'a>,
    held: &mut Held<'b, 'h, 'a>,
    place: usize,
) -> bool
    requires { AreHeld board.old held.old.items }
    ensures { AreHeld board.new held.new.items }
{
    let Some(job) = taken(held, place) else {
        return false;
    };
    board.close(Done::unchanged(job));
    true
}

/// Opens a place, executes its job and closes it with its result, if no job is open and it is the first place that
/// is not closed. Whether that is so.
fn carried_alone<'b, 'h, 'a>(
    alloc: Global,
    board: &mut Board<'b, 'h, 'a>,
    held: &mut Held<'b, 'h, 'a>,
    place: usize,
) -> Result<bool, NoMemory>
    requires { AreHeld board.old held.old.items }
    ensures { AreHeld board.new held.new.items }
{
    if !is_none_held(held) || board.first_unclosed(0) != Some(place) {
        return Ok(false);
    }
    // The first place that is not closed is refused for memory alone.
    let Ok(()) = opened(alloc, board, held, place) else {
        return Err(NoMemory);
    };
    closed(alloc, board, held, place)
}

/// Opens all places of a wave, in its order, and closes them.
fn carry_wave<'b, 'h, 'a>(
    alloc: Global,
    board: &mut Board<'b, 'h, 'a>,
    held: &mut Held<'b, 'h, 'a>,
    wave: &[usize],
) -> Result<(), CaseFault>
    requires { AreHeld board.old held.old.items }
    ensures held { AreHeld board.new held.new.items }
    ensures same { IsSameBurst board.old board.new }
{
    for place in wave {
        // While nothing else is open, a planned place is refused for memory alone.
        let Ok(()) = opened(alloc, board, held, *place) else {
            return Err(CaseFault::NoMemory);
        };
    }
    for place in wave {
        let Ok(_is_open) = closed(alloc, board, held, *place) else {
            return Err(CaseFault::NoMemory);
        };
    }
    Ok(())
}

/// Executes what is pending, wave after wave: how many places each wave has.
pub fn carry_in_waves<'b, 'h, 'a>(
    alloc: Global,
    board: &mut Board<'b, 'h, 'a>,
    held: &mut Held<'b, 'h, 'a>,
) -> Result<Vec<usize>, CaseFault>
    requires { AreHeld board.old held.old.items }
    ensures held { AreHeld board.new held.new.items }
    ensures same { IsSameBurst board.old board.new }
{
    let mut sizes = Vec::new(alloc);
    // There are at most as many waves as places.
    for _wave in 0..held.len() {
        let Ok(wave) = board.plan(alloc) else {
            return Err(CaseFault::NoMemory);
        };
        if wave.is_empty() {
            return Ok(sizes);
        }
        carry_wave(alloc, board, held, &wave)?;
        sizes.push(wave.len())?;
    }
    Ok(sizes)
}

/// Whether each place is closed with a reply.
pub fn is_over(board: &Board<'_, '_, '_>, count: usize) -> bool
    requires { count ≡ length board.now.places }
    ensures { IsTrue result → AllClosed board.now.places }
{
    for place in 0..count {
        if board.reply_at(place).is_none() {
            return false;
        }
    }
    true
}

/// How the board ends by this word, if it says that the board ends and it may.
pub fn end_by(board: &Board<'_, '_, '_>, held: &[Option<Job<'_, '_, '_>>], word: &str) -> End
    requires { AreHeld board.now held.now }
    ensures { MayEnd board.now result }
{
    if word == "undo" && is_none_held(held) {
        return End::Undo;
    }
    if word == "finish" && is_over(board, held.len()) {
        return End::Finish;
    }
    End::Left
}

fn write_plan(board: &Board<'_, '_, '_>, out: &mut Page) -> Result<(), CaseFault> {
    match board.plan(out.alloc()) {
        Ok(places) => {
            write_places(out, &places);
            Ok(())
        }
        Err(NoMemory) => Err(CaseFault::NoMemory),
    }
}

fn write_result(
    held: &[Option<Job<'_, '_, '_>>],
    place: usize,
    out: &mut Page,
) -> Result<(), CaseFault> {
    let Some(job) = job_at(held, place) else {
        out.put(NOT_ALLOWED);
        return Ok(());
    };
    match carry(out.alloc(), job) {
        Ok((_part, reply)) => {
            out.message(reply.as_slice());
            Ok(())
        }
        Err(NoMemory) => Err(CaseFault::NoMemory),
    }
}

fn write_reply(board: &Board<'_, '_, '_>, place: usize, out: &mut Page) {
    match board.reply_at(place) {
        Some(reply) => out.message(reply),
        None => out.put(b"none"),
    }
}

/// Whether the step was one that a caller may take.
fn write_done(out: &mut Page, is_allowed: bool, done: &[u8]) {
    out.put(if is_allowed { done } else { NOT_ALLOWED });
}

fn open_place<'b, 'h, 'a>(
    board: &mut Board<'b, 'h, 'a>,
    held: &mut Held<'b, 'h, 'a>,
    place: usize,
    out: &mut Page,
) -> Result<(), CaseFault>
    requires { AreHeld board.old held.old.items }
    ensures { AreHeld board.new held.new.items }
{
    match opened(out.alloc(), board, held, place) {
        Ok(()) => out.put(b"opened"),
        Err(fault) => out.named(&fault),
    }
    Ok(())
}

fn close_place<'b, 'h, 'a>(
    board: &mut Board<'b, 'h, 'a>,
    held: &mut Held<'b, 'h, 'a>,
    place: usize,
    out: &mut Page,
) -> Result<(), CaseFault>
    requires { AreHeld board.old held.old.items }
    ensures { AreHeld board.new held.new.items }
{
    match closed(out.alloc(), board, held, place) {
        Ok(is_open) => {
            write_done(out, is_open, b"closed");
            Ok(())
        }
        Err(NoMemory) => Err(CaseFault::NoMemory),
    }
}

fn return_place<'b, 'h, 'a>(
    board: &mut Board<'b, 'h, 'a>,
    held: &mut Held<'b, 'h, 'a>,
    place: usize,
    out: &mut Page,
) -> Result<(), CaseFault>
    requires { AreHeld board.old held.old.items }
    ensures { AreHeld board.new held.new.items }
{
    let is_open = returned(board, held, place);
    write_done(out, is_open, b"pending");
    Ok(())
}

fn carry_place<'b, 'h, 'a>(
    board: &mut Board<'b, 'h, 'a>,
    held: &mut Held<'b, 'h, 'a>,
    place: usize,
    out: &mut Page,
) -> Result<(), CaseFault>
    requires { AreHeld board.old held.old.items }
    ensures { AreHeld board.new held.new.items }
{
    match carried_alone(out.alloc(), board, held, place) {
        Ok(is_first) => {
            write_done(out, is_first, b"closed");
            Ok(())
        }
        Err(NoMemory) => Err(CaseFault::NoMemory),
    }
}

fn write_waves<'b, 'h, 'a>(
    board: &mut Board<'b, 'h, 'a>,
    held: &mut Held<'b, 'h, 'a>,
    out: &mut Page,
) -> Result<(), CaseFault>
    requires { AreHeld board.old held.old.items }
    ensures { AreHeld board.new held.new.items }
{
    if !is_none_held(held) {
        out.put(NOT_ALLOWED);
        return Ok(());
    }
    let sizes = carry_in_waves(out.alloc(), board, held)?;
    write_runs(out, &sizes);
    Ok(())
}

/// A step that names a place.
fn take_at<'b, 'h, 'a>(
    board: &mut Board<'b, 'h, 'a>,
    held: &mut Held<'b, 'h, 'a>,
    call: &str,
    place: usize,
    out: &mut Page,
) -> Result<(), CaseFault>
    requires { AreHeld board.old held.old.items }
    ensures { AreHeld board.new held.new.items }
{
    match call {
        "open" => open_place(board, held, place, out),
        "close" => close_place(board, held, place, out),
        "unchanged" => return_place(board, held, place, out),
        "alone" => carry_place(board, held, place, out),
        "carry" => write_result(held, place, out),
        "reply" => {
            write_reply(board, place, out);
            Ok(())
        }
        _ => Err(CaseFault::Call),
    }
}

/// Takes a step and writes what it answers. `undo` and `finish` come here only where they are not allowed.
pub fn take<'b, 'h, 'a>(
    board: &mut Board<'b, 'h, 'a>,
    held: &mut Held<'b, 'h, 'a>,
    step: &[u8],
    out: &mut Page,
) -> Result<(), CaseFault>
    requires { AreHeld board.old held.old.items }
    ensures { AreHeld board.new held.new.items }
{
    let (call, place) = split_word(step);
    match as_text(call) {
        "plan" => write_plan(board, out),
        "waves" => write_waves(board, held, out),
        "undo" | "finish" => {
            out.put(NOT_ALLOWED);
            Ok(())
        }
        call => match number_of(place) {
            Some(place) => take_at(board, held, call, place as usize, out),
            None => Err(CaseFault::Form),
        },
    }
}

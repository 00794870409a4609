//! The program apart from its streams: words in, a status out.

ghost use Rattle.std.specs.Prelude.{◌≡◌, ◌⊎◌, ℕ, List, Option, OnOk, IfErr, map};
ghost use Rattle.std.specs.Io.KnownBytes.{Appends};
ghost use Rattle.std.specs.Option.{option_map};
ghost use Rattle.gw_engine.specs.AuditText.{audit_text};
ghost use Rattle.gw_program.specs.Jobs.{IsStart, IsReplayJob, IsAnswerJob, IsServeJob, IsUnprintedFor, IsJob, IsEnd};
ghost use Rattle.gw_program.specs.Outcomes.{status_of};
ghost use Rattle.gw_program.specs.declared.ended.Ended.{Ended as Ending};

use crate::check::check;
use crate::command_line::read_words;
use crate::ended::Ended;
use crate::fault::Fault;
use crate::file::gateway_of;
use crate::gateway::gateway;
use crate::job::{Job, Serving};
use crate::printing::{explained, printed};
use crate::standard_error::StandardError;
use crate::workers::Workers;
use gw_engine::{Gateway, OpenGate};
use gw_front::{ServeOptions, answer, replay, serve};
use std::alloc::Global;
use std::convert::AsStr;
use std::io::{Read, Write};
use std::net::{Net, SocketAddr};
use std::rt::Files;
use std::sync::Wait;
use std::thread::Threads;
use std::time::Clock;

/// The gateway before the first datagram: that of the file, or the built-in one.
fn start<'a, R: Files>(rt: &R, alloc: Global, file: Option<&'a str>) -> Result<Gateway, Fault<'a>>
    ensures { IsStart R.File.Read.remaining (option_map (λ f. f.now) file.entry) result }
{
    match file {
        Some(file) => gateway_of(rt, alloc, file),
        None => gateway(alloc),
    }
}

/// Writes the tables of a gateway.
fn print_tables<W: Write>(
    alloc: Global,
    gateway: &Gateway,
    out: &mut W,
) -> Result<(), Fault<'static>>
    ensures printed { OnOk result (Appends (W.contents out.old) (W.contents out.new) (audit_text gateway.now)) }
    ensures fault { IfErr result (λ fault. IsUnprintedFor fault (W.contents out.old) (W.contents out.new)) }
{
    let Ok(tables) = gateway.audit_tables(alloc) else {
        return Err(Fault::NoMemory);
    };
    match out.write_all(tables.as_slice()) {
        Ok(()) => Ok(()),
        Err(_) => Err(Fault::ReplayWrite),
    }
}

/// A replay, and behind its answers the tables where they are requested.
fn replay_with<R: Threads + Sync, I: Read, W: Write>(
    rt: &R,
    alloc: Global,
    gateway: &mut Gateway,
    audit: bool,
    workers: Workers,
    reader: &mut I,
    out: &mut W,
) -> Result<(), Fault<'static>>
    ensures { IsReplayJob audit gateway.old (I.remaining reader.old) (W.contents out.old) (W.contents out.new) result }
{
    replay(rt, alloc, reader, out, gateway, workers.count(), &OpenGate)?;
    if audit {
        print_tables(alloc, gateway, out)?;
    }
    Ok(())
}

/// One datagram, answered.
fn answer_with<R: Threads + Sync, I: Read, W: Write>(
    rt: &R,
    alloc: Global,
    gateway: &mut Gateway,
    reader: &mut I,
    out: &mut W,
) -> Result<(), Fault<'static>>
    ensures { IsAnswerJob gateway.old (I.remaining reader.old) (W.contents out.old) (W.contents out.new) result }
{
    answer(rt, alloc, reader, out, gateway)?;
    Ok(())
}

/// Serves a gateway at the address that a text is.
fn serve_with<R: Net + Wait + Threads + Clock + Sync, W: Write>(
    rt: &R,
    alloc: Global,
    gateway: &mut Gateway,
    serving: &Serving<'_>,
    out: &mut W,
) -> Result<(), Fault<'static>>
    ensures { IsServeJob serving.now gateway.old (W.contents out.old) (W.contents out.new) result }
{
    let options = ServeOptions {
        workers: serving.workers.count(),
        bursts: serving.bursts,
        controllers: serving.controllers.as_slice(),
        report: serving.report,
        give_up: serving.give_up,
    };
    let Ok(addr) = serving.listen.parse::<SocketAddr>() else {
        return Err(Fault::ServeBind);
    };
    serve(rt, alloc, addr, gateway, options, out)?;
    Ok(())
}

/// A replay with the built-in gateway.
fn run_built_in<'a, R: Files + Threads + Sync, I: Read, W: Write>(
    rt: &R,
    alloc: Global,
    reader: &mut I,
    out: &mut W,
) -> Result<(), Fault<'a>>
    ensures { IsJob R.File.Read.remaining Job.BuiltIn (I.remaining reader.old) (W.contents out.old)
        (W.contents out.new) result }
{
    let mut gateway = start(rt, alloc, None)?;
    replay_with(rt, alloc, &mut gateway, false, Workers::ONE, reader, out)
}

/// One datagram, answered by the file's gateway or the built-in one.
fn run_answer<'a, R: Files + Threads + Sync, I: Read, W: Write>(
    rt: &R,
    alloc: Global,
    file: Option<&'a str>,
    reader: &mut I,
    out: &mut W,
) -> Result<(), Fault<'a>>
    ensures { IsJob R.File.Read.remaining (Job.Answer file.entry) (I.remaining reader.old) (W.contents out.old)
        (W.contents out.new) result }
{
    let mut gateway = start(rt, alloc, file)?;
    answer_with(rt, alloc, &mut gateway, reader, out)
}

/// A replay with the file's gateway.
fn run_replay<'a, R: Files + Threads + Sync, I: Read, W: Write>(
    rt: &R,
    alloc: Global,
    file: &'a str,
    audit: bool,
    workers: Workers,
    reader: &mut I,
    out: &mut W,
) -> Result<(), Fault<'a>>
    ensures { IsJob R.File.Read.remaining (Job.Replay file.entry audit workers) (I.remaining reader.old)
        (W.contents out.old) (W.contents out.new) result }
{
    let mut gateway = start(rt, alloc, Some(file))?;
    replay_with(rt, alloc, &mut gateway, audit, workers, reader, out)
}

/// Controllers, served by the file's gateway.
fn run_serve<'a, R: Files + Net + Wait + Threads + Clock + Sync, W: Write>(
    rt: &R,
    alloc: Global,
    serving: &Serving<'a>,
    out: &mut W,
) -> Result<(), Fault<'a>>
    ensures { (input : Option (List ℕ)) → IsJob R.File.Read.remaining (Job.Serve serving.now) input (W.contents out.old)
        (W.contents out.new) result }
{
    let mut gateway = start(rt, alloc, Some(serving.file))?;
    serve_with(rt, alloc, &mut gateway, serving, out)
}

/// Does what the words ask for.
fn run<'a, R: Files + Net + Wait + Threads + Clock + Sync, I: Read, W: Write>(
    rt: &R,
    alloc: Global,
    job: Job<'a>,
    reader: &mut I,
    out: &mut W,
) -> Result<(), Fault<'a>>
    ensures { IsJob R.File.Read.remaining job.entry (I.remaining reader.old) (W.contents out.old)
        (W.contents out.new) result }
{
    match job {
        Job::BuiltIn => run_built_in(rt, alloc, reader, out),
        Job::Answer { file } => run_answer(rt, alloc, file, reader, out),
        Job::Check { file } => check(rt, alloc, file, out),
        Job::Replay {
            file,
            audit,
            workers,
        } => run_replay(rt, alloc, file, audit, workers, reader, out),
        Job::Serve(serving) => run_serve(rt, alloc, &serving, out),
    }
}

/// How the program ends on words.
fn end_of<
    'a,
    R: Files + Net + Wait + Threads + Clock + Sync,
    S: AsStr,
    I: Read,
    W: Write,
    E: StandardError,
>(rt: &R, alloc: Global, words: &'a [S], reader: &mut I, out: &mut W, err: &mut E) -> Ended<'a>
    ensures { IsEnd R.File.Read.remaining (map S.text words.entry.now) (I.remaining reader.old) (W.contents out.old)
        (W.contents out.new) (E.standing err.old) (E.standing err.new) result }
{
    let job = match read_words(alloc, words) {
        Ok(job) => job,
        Err(mistake) => return explained(alloc, &mistake, out, err),
    };
    let done = run(rt, alloc, job, reader, out);
    printed(done, err)
}

/// Runs the program on the words behind its name, and answers its exit status: 0 when what they ask for is done, help
/// and the version too; 1 after a fault, whose one line goes to `err`; 2 where the words ask for nothing that there is,
/// which is printed on `err`. With no words it replays with the built-in configuration.
pub fn program<
    R: Files + Net + Wait + Threads + Clock + Sync + AllocGlobal,
    S: AsStr,
    I: Read,
    W: Write,
    E: StandardError,
>(rt: &R, words: &[S], reader: &mut I, out: &mut W, err: &mut E) -> u8
    ensures { (ended : Ending) × (result ≡ status_of ended)
        × IsEnd R.File.Read.remaining (map S.text words.now) (I.remaining reader.old) (W.contents out.old)
        (W.contents out.new) (E.standing err.old) (E.standing err.new) ended }
{
    end_of(rt, rt.alloc(), words, reader, out, err).status()
}

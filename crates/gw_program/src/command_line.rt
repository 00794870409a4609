//! The command line: its words, and what they ask for.

ghost use Rattle.std.specs.Prelude.{◌≡◌, false, IfOk, IfErr, IfSome, IsOkAnd, codes, map};
ghost use Rattle.std.specs.List.{AllZip};
ghost use Rattle.clap.specs.Words.{AddsSubcommand, found_of, app_of, rows_of, rule_of, subcommand_rows_of};
ghost use Rattle.clap.specs.Walk.{one_of};
ghost use Rattle.clap.specs.declared.builder.command.Command.TheViews.{out-Command as fields_of};
ghost use Rattle.gw_front.specs.Controllers.{IsControllerText};
ghost use Rattle.gw_program.specs.Commands.{alone, answer_command, audit_rule, bursts_rule, check_command, config_rule, controller_rule, file_rule, give_up_rule, listen_rule, program_app, replay_command, report_rule, serve_command, workers_rule};
ghost use Rattle.gw_program.specs.Words.{AreRequested, IsRequested, IsRequestedBy, IsCommand, IsJobOf, IsMistaken, IsServing, IsUnnamed, IsUnnamedIn, controller_texts, given};

use crate::job::{Job, Serving};
use crate::mistake::Mistake;
use crate::workers::Workers;
use clap::{Arg, ArgAction, ArgMatches, Command, value_parser};
use gw_front::Controller;
use std::alloc::{AllocError, Global};
use std::convert::AsStr;

/// The address that is served where the words name none: any of the host, at the port for text.
const EVERYWHERE: &str = "0.0.0.0:2944";

const ABOUT: &str =
    "The command side of an H.248 (Megaco) media gateway, version 1 in the text encoding (RFC 3525)

Datagrams from controllers go in, a reply goes out for each transaction. With no words the program replays standard
input with a configuration of its own: terminations T/1 to T/4, 8 contexts of at most 3 members, 4 slots, 4 kept
replies.";

const AFTER: &str = "Exit status:
  0  done; help too
  1  a fault; one line on standard error says which
  2  the command line has a mistake

Example:
  printf '%s' 'MEGACO/1 [10.0.0.9]:2944 Transaction=1{Context=${Add=T/1,Add=T/2}}' | h248gw answer
  h248gw check four.conf
  h248gw replay four.conf < call.replay
  h248gw serve four.conf --listen 127.0.0.1:2944";

const ANSWER: &str = "Answers one datagram";

const ANSWER_LONG: &str = "Answers one datagram

Reads standard input to its end as one datagram, answers it, and writes the reply as it is to standard output; nothing
where there is no answer. The gateway is a new one: that of FILE, or the built-in one.";

const CHECK: &str = "Reads a configuration and prints its numbers";

const CHECK_LONG: &str = "Reads a configuration and prints its numbers

Reads FILE, makes the gateway that it describes, and writes one line to standard output:
  ok terms=4 contexts=8 slots=4 members=3 keep=4";

const REPLAY: &str = "Answers recorded datagrams";

const REPLAY_LONG: &str = "Answers recorded datagrams

Reads FILE and makes its gateway. Reads bursts of datagrams from standard input and writes the answers to standard
output, both as
  D <peer> <length>   a line, then so many bytes and a line feed: a datagram from, or to, a peer
  .                   a line: the burst ends, and is answered
With --audit the tables follow behind the last answers. How many threads execute the transactions of a burst makes no
difference to what is answered.";

const SERVE: &str = "Answers controllers over UDP";

const SERVE_LONG: &str = "Answers controllers over UDP

Reads FILE and makes its gateway. Binds the address, writes a line `listening` to standard output, and answers each
datagram to where it came from, until it is ended by a signal. The calls of a gateway that ends are lost. What a sender
sends that is no --controller is dropped, where there is one. What is dropped is written to standard output at the 1st,
2nd, 4th, 8th, .. time.";

/// The configuration file of a command.
fn file<'a>(alloc: Global) -> Arg<'a>
    ensures rule { rule_of result ≡ file_rule }
    ensures own { result.global ≡ false }
{
    Arg::new(alloc, "FILE").required(true).help(
        "The configuration, a text of lines as `contexts 8` and `term T/1`",
    )
}

/// The configuration file where one may be named.
fn config<'a>(alloc: Global) -> Arg<'a>
    ensures rule { rule_of result ≡ config_rule }
    ensures own { result.global ≡ false }
{
    Arg::new(alloc, "CONFIG")
        .long("config")
        .value_name("FILE")
        .help("The configuration; without it the built-in one")
}

fn answer<'a>(alloc: Global) -> Result<Command<'a>, AllocError>
    ensures shape { IfOk result (λ command. app_of command ≡ alone answer_command) }
    ensures own { IfOk result (λ command. (fields_of command).has_globals ≡ false) }
{
    Command::new(alloc, "answer")
        .about(ANSWER)
        .long_about(ANSWER_LONG)
        .arg(config(alloc))
}

fn check<'a>(alloc: Global) -> Result<Command<'a>, AllocError>
    ensures shape { IfOk result (λ command. app_of command ≡ alone check_command) }
    ensures own { IfOk result (λ command. (fields_of command).has_globals ≡ false) }
{
    Command::new(alloc, "check")
        .about(CHECK)
        .long_about(CHECK_LONG)
        .arg(file(alloc))
}

/// Whether the tables are written.
fn audit<'a>(alloc: Global) -> Arg<'a>
    ensures rule { rule_of result ≡ audit_rule }
    ensures own { result.global ≡ false }
{
    Arg::new(alloc, "audit")
        .long("audit")
        .action(ArgAction::SetTrue)
        .help("Writes the tables behind the last answers")
}

/// How many workers execute a burst.
fn workers<'a>(alloc: Global) -> Arg<'a>
    ensures rule { rule_of result ≡ workers_rule }
    ensures own { result.global ≡ false }
{
    Arg::new(alloc, "WORKERS")
        .long("workers")
        .value_name("N")
        .value_parser(value_parser!(u64).range(1..=64))
        .default_value("1")
        .help("How many threads execute the transactions of a burst, 1 to 64")
}

fn replay<'a>(alloc: Global) -> Result<Command<'a>, AllocError>
    ensures shape { IfOk result (λ command. app_of command ≡ alone replay_command) }
    ensures own { IfOk result (λ command. (fields_of command).has_globals ≡ false) }
{
    Command::new(alloc, "replay")
        .about(REPLAY)
        .long_about(REPLAY_LONG)
        .arg(file(alloc))?
        .arg(audit(alloc))?
        .arg(workers(alloc))
}

/// The address that is served.
fn listen<'a>(alloc: Global) -> Arg<'a>
    ensures rule { rule_of result ≡ listen_rule }
    ensures own { result.global ≡ false }
{
    Arg::new(alloc, "ADDR")
        .long("listen")
        .default_value(EVERYWHERE)
        .help("The IP address and port to bind")
}

/// After how many bursts serving ends.
fn bursts<'a>(alloc: Global) -> Arg<'a>
    ensures rule { rule_of result ≡ bursts_rule }
    ensures own { result.global ≡ false }
{
    Arg::new(alloc, "N")
        .long("bursts")
        .value_parser(value_parser!(u64))
        .help("Ends after so many bursts, with 0 once the address is bound; without it, never")
}

/// Whose datagrams are read.
fn controller<'a>(alloc: Global) -> Arg<'a>
    ensures rule { rule_of result ≡ controller_rule }
    ensures own { result.global ≡ false }
{
    Arg::new(alloc, "CONTROLLER")
        .long("controller")
        .value_name("ADDR")
        .action(ArgAction::Append)
        .help(
            "A controller, as 10.0.0.9 or 10.0.0.9:2944; any number of them. Without one, every sender is answered",
        )
}

/// How often a report is written.
fn report<'a>(alloc: Global) -> Arg<'a>
    ensures rule { rule_of result ≡ report_rule }
    ensures own { result.global ≡ false }
{
    Arg::new(alloc, "REPORT")
        .long("report")
        .value_name("SECONDS")
        .value_parser(value_parser!(u64))
        .help(
            "Writes a line of numbers after a burst, where so many seconds have gone since the last one",
        )
}

/// After how many bursts in a row that were dropped serving ends.
fn give_up<'a>(alloc: Global) -> Arg<'a>
    ensures rule { rule_of result ≡ give_up_rule }
    ensures own { result.global ≡ false }
{
    Arg::new(alloc, "GIVE_UP")
        .long("give-up")
        .value_name("N")
        .value_parser(value_parser!(u64).range(1..))
        .help(
            "Ends with status 1 after so many bursts in a row that were dropped for memory; without it, never",
        )
}

fn serve<'a>(alloc: Global) -> Result<Command<'a>, AllocError>
    ensures shape { IfOk result (λ command. app_of command ≡ alone serve_command) }
    ensures own { IfOk result (λ command. (fields_of command).has_globals ≡ false) }
{
    Command::new(alloc, "serve")
        .about(SERVE)
        .long_about(SERVE_LONG)
        .arg(file(alloc))?
        .arg(listen(alloc))?
        .arg(workers(alloc))?
        .arg(bursts(alloc))?
        .arg(controller(alloc))?
        .arg(report(alloc))?
        .arg(give_up(alloc))
}

/// A command with one more below it.
fn with<'a>(
    command: Command<'a>,
    below: Result<Command<'a>, AllocError>,
) -> Result<Command<'a>, AllocError>
    ensures { IfOk result (λ r. IsOkAnd below.entry (λ b. AddsSubcommand command.entry b r)) }
{
    command.subcommand(below?)
}

/// The program's commands.
fn command<'a>(alloc: Global) -> Result<Command<'a>, AllocError>
    ensures { IfOk result (λ command. app_of command ≡ program_app) }
{
    let program = Command::new(alloc, "h248gw")
        .bin_name("h248gw")?
        .no_binary_name(true)
        .version("0.1.0")
        .about(ABOUT)
        .after_help(AFTER);
    let program = with(program, answer(alloc))?;
    let program = with(program, check(alloc))?;
    let program = with(program, replay(alloc))?;
    with(program, serve(alloc))
}

/// The text of an argument that is required or has a default, and so is there.
fn text_of<'a>(matches: &ArgMatches<'a>, id: &str) -> &'a str
    ensures { result.now ≡ given id.now (rows_of (found_of matches.now)) }
{
    match matches.get_str(id) {
        Some(text) => text,
        None => "",
    }
}

/// The number of workers.
fn workers_in(matches: &ArgMatches<'_>) -> Workers
    ensures { AreRequested (one_of (codes "WORKERS") (rows_of (found_of matches.now))) result.count }
{
    Workers::of(matches.get_one::<u64>("WORKERS"))
}

/// The controllers that texts name.
///
/// # Errors
///
/// The first text that names none, or out of memory.
fn controllers_of<'a>(alloc: Global, texts: &[&'a str]) -> Result<Vec<Controller>, Mistake<'a>>
    ensures named { IfOk result (λ controllers. AllZip IsControllerText (map (λ t. t.now) texts.now)
        controllers.items) }
    ensures mistaken { IfErr result (IsUnnamed (map (λ t. t.now) texts.now)) }
{
    let mut controllers = Vec::with_capacity(alloc, texts.len())?;
    for text in texts {
        match text.parse::<Controller>() {
            Ok(controller) if controllers.push(controller).is_ok() => {}
            Ok(_) => return Err(Mistake::NoMemory),
            Err(_) => return Err(Mistake::Controller(text)),
        }
    }
    Ok(controllers)
}

/// The controllers of the words.
fn controllers_in<'a>(
    alloc: Global,
    matches: &ArgMatches<'a>,
) -> Result<Vec<Controller>, Mistake<'a>>
    ensures named { IfOk result (λ controllers. AllZip IsControllerText
        (controller_texts (rows_of (found_of matches.now))) controllers.items) }
    ensures mistaken { IfErr result (IsUnnamed (controller_texts (rows_of (found_of matches.now)))) }
{
    match matches.get_strs("CONTROLLER") {
        Some(texts) => controllers_of(alloc, texts),
        None => Ok(Vec::new(alloc)),
    }
}

/// How the matches of `serve` ask to serve.
fn serving_of<'a>(alloc: Global, matches: &ArgMatches<'a>) -> Result<Serving<'a>, Mistake<'a>>
    ensures requested { IfOk result (IsServing (rows_of (found_of matches.now))) }
    ensures mistaken { IfErr result (IsUnnamed (controller_texts (rows_of (found_of matches.now)))) }
{
    Ok(Serving {
        file: text_of(matches, "FILE"),
        listen: text_of(matches, "ADDR"),
        workers: workers_in(matches),
        bursts: matches.get_one::<u64>("N"),
        controllers: controllers_in(alloc, matches)?,
        report: matches.get_one::<u64>("REPORT"),
        give_up: matches.get_one::<u64>("GIVE_UP"),
    })
}

/// What the matches of a command ask for.
fn job_of<'a>(alloc: Global, name: &str, matches: &ArgMatches<'a>) -> Result<Job<'a>, Mistake<'a>>
    requires { IsCommand name.now }
    ensures requested { IfOk result (IsRequestedBy name.now (rows_of (found_of matches.now))) }
    ensures mistaken { IfErr result (IsUnnamed (controller_texts (rows_of (found_of matches.now)))) }
{
    let file = text_of(matches, "FILE");
    match name {
        "answer" => Ok(Job::Answer {
            file: matches.get_str("CONFIG"),
        }),
        "check" => Ok(Job::Check { file }),
        "replay" => Ok(Job::Replay {
            file,
            audit: matches.get_flag("audit"),
            workers: workers_in(matches),
        }),
        _ => Ok(Job::Serve(serving_of(alloc, matches)?)),
    }
}

/// What matches of the program ask for.
fn job_in<'a>(alloc: Global, matches: &ArgMatches<'a>) -> Result<Job<'a>, Mistake<'a>>
    requires { IfSome (subcommand_rows_of matches.now) (λ found. IsCommand found.0) }
    ensures requested { IfOk result (IsJobOf (subcommand_rows_of matches.now)) }
    ensures mistaken { IfErr result (IsUnnamedIn (subcommand_rows_of matches.now)) }
{
    match matches.subcommand() {
        Some((name, inner)) => job_of(alloc, name, inner),
        None => Ok(Job::BuiltIn),
    }
}

/// What the words ask for.
///
/// # Errors
///
/// A mistake in the words, a request for help or the version, or out of memory.
pub(crate) fn read_words<'a, S: AsStr>(
    alloc: Global,
    words: &'a [S],
) -> Result<Job<'a>, Mistake<'a>>
    ensures requested { IfOk result (IsRequested (map S.text words.entry.now)) }
    ensures mistaken { IfErr result (IsMistaken (map S.text words.entry.now)) }
{
    let matches = command(alloc)?.try_get_matches_from(words)?;
    job_in(alloc, &matches)
}

//! Serving burst after burst: datagrams are taken as they come, the burst is executed, its answers are sent.

ghost use Rattle.std.specs.Prelude.{◌≡◌, ◌+◌, ◌<◌, ◌≤◌, false, [], ◌∷◌, List, length, OnOk, OnErr, IfErr, IfOk};
ghost use Rattle.gw_engine.specs.Bursts.{AnswersBurst};
ghost use Rattle.gw_engine.specs.Counts.{CountsBurst};
ghost use Rattle.gw_front.specs.Events.{Packet, sent_all, Happens};
ghost use Rattle.gw_front.specs.Inboxes.{Holds, Gathers};
ghost use Rattle.gw_front.specs.Serving.{IsAtStart, IsAnswered, IsWithinLimits, Serves, packets_to};
ghost use Rattle.gw_front.specs.Servers.{HasSame};
ghost use Rattle.gw_front.specs.TotalNumbers.{IsFull, no_totals, with_burst, with_dropped};
ghost use Rattle.gw_front.specs.declared.serve_fault.ServeFault.TheVariants.{Receive, Poll as Refused, Full as HasEnough};

use crate::exchange::Exchange;
use crate::inbox::{Inbox, LARGEST_BURST, LONGEST_DATAGRAM, Receipt};
use crate::losses::{Loss, Losses};
use crate::reporter::{Report, Reporter};
use crate::serve_fault::ServeFault;
use crate::serve_options::ServeOptions;
use crate::totals::{Totals, check_dropped};
use gw_base::NoMemory;
use gw_engine::{BurstAnswers, Datagram, Gate, Gateway, Workers};
use std::alloc::{AllocError, Global};
use std::io::{ErrorKind, Write};
use std::sync::Wait;
use std::thread::Threads;
use std::time::{Clock, Instant};

/// So many datagrams that are from no controller are dropped at most before the burst in hand is executed.
const MOST_STRANGERS: u32 = 1_024;

/// What serving takes beside the network, the gateway and the workers. Its buffers are made once.
#[derive(Drop)]
pub(crate) struct Server<'a> {
    options: ServeOptions<'a>,
    buffer: Vec<u8>,
    inbox: Inbox,
    losses: Losses,
    totals: Totals,
    reporter: Reporter,
}

/// What one receipt gave.
#[derive(Clone, Copy)]
enum Received {
    /// A controller's datagram came, and was taken or dropped.
    Datagram,
    /// A datagram came that is from no controller, and was dropped.
    Stranger,
    /// No datagram is there.
    Nothing,
}

impl<'a> Server<'a> {
    /// Room for a burst, and for a datagram. One byte more than a datagram may have shows that it has more.
    pub(crate) fn new(
        rt: &impl Clock,
        alloc: Global,
        options: ServeOptions<'a>,
    ) -> Result<Server<'a>, AllocError>
        ensures holds { IfOk result (λ server. Holds server.inbox []) }
        ensures senders { IfOk result (λ server. server.inbox.senders.items ≡ []) }
        ensures options { IfOk result (λ server. server.options ≡ options.entry) }
        ensures totals { IfOk result (λ server. server.totals ≡ no_totals) }
    {
        Ok(Server {
            options,
            buffer: vec![in alloc; 0u8; LONGEST_DATAGRAM + 1]?,
            inbox: Inbox::new(alloc)?,
            losses: Losses::NONE,
            totals: Totals::NONE,
            reporter: Reporter::new(rt, options.report),
        })
    }

    /// Takes the next datagram, if one is there. One that is from no controller or too long is dropped.
    fn receive<S: Exchange, W: Write>(
        &mut self,
        alloc: Global,
        exchange: &mut S,
        out: &mut W,
    ) -> Result<Received, ServeFault>
        requires { length self.old.inbox.senders.items < 256 }
        ensures gathered { Gathers self.old.options.controllers.now (S.course exchange.old) (S.course exchange.new)
            self.old.inbox self.new.inbox }
        ensures grown { length self.new.inbox.senders.items ≤ length self.old.inbox.senders.items + 1 }
        ensures stranger { IfOk result (λ received. received ≡ Received.Stranger → self.new.inbox ≡ self.old.inbox) }
        ensures fault { IfErr result (λ fault. fault ≡ Receive) }
        ensures same { HasSame self.old self.new }
    {
        let buffer = self.buffer.as_mut_slice();
        match self
            .inbox
            .receive(alloc, self.options.controllers, exchange, buffer)
        {
            Ok(Receipt::Taken) => Ok(Received::Datagram),
            Ok(Receipt::TooLong) => {
                self.losses.lose(Loss::Datagram, out);
                Ok(Received::Datagram)
            }
            Ok(Receipt::Stranger) => {
                self.losses.lose(Loss::Stranger, out);
                Ok(Received::Stranger)
            }
            Err(e) if e.kind() == ErrorKind::WouldBlock => Ok(Received::Nothing),
            Err(_) => Err(ServeFault::Receive),
        }
    }

    /// Takes the datagrams that are there, as many as a burst may have; whether there are no more. Those that are from
    /// no controller count in no limit of a burst: of them 1,024 are dropped before the burst goes on.
    fn receive_burst<S: Exchange, W: Write>(
        &mut self,
        alloc: Global,
        exchange: &mut S,
        out: &mut W,
    ) -> Result<bool, ServeFault>
        requires { self.old.inbox.senders.items ≡ [] }
        ensures gathered { Gathers self.old.options.controllers.now (S.course exchange.old) (S.course exchange.new)
            self.old.inbox self.new.inbox }
        ensures fault { IfErr result (λ fault. fault ≡ Receive) }
        ensures same { HasSame self.old self.new }
    {
        let mut room = LARGEST_BURST;
        let mut patience = MOST_STRANGERS;
        while room > 0 && patience > 0 {
            match self.receive(alloc, exchange, out)? {
                Received::Datagram => room -= 1,
                Received::Stranger => patience -= 1,
                Received::Nothing => return Ok(true),
            }
        }
        Ok(false)
    }

    /// Waits for a burst. A wait follows only a receipt that gave nothing, since a poll reports changes alone.
    fn next_burst<S: Exchange, W: Write>(
        &mut self,
        rt: &impl Wait,
        alloc: Global,
        exchange: &mut S,
        out: &mut W,
    ) -> Result<(), ServeFault>
        requires { self.old.inbox.senders.items ≡ [] }
        ensures gathered { Gathers self.old.options.controllers.now (S.course exchange.old) (S.course exchange.new)
            self.old.inbox self.new.inbox }
        ensures some { OnOk result ((packets : List Packet) → Holds self.new.inbox packets → 0 < length packets) }
        ensures fault { IfErr result (λ fault. ¬ IsAtStart fault × ¬ (fault ≡ HasEnough)) }
        ensures same { HasSame self.old self.new }
    {
        for _ in rt.forever() {
            let is_drained = self.receive_burst(alloc, exchange, out)?;
            if !self.inbox.is_empty() {
                break;
            }
            if is_drained && exchange.wait().is_err() {
                return Err(ServeFault::Poll);
            }
        }
        Ok(())
    }

    /// Sends an answer to where its datagram came from. Where it cannot be sent it is lost, as a datagram may be on its
    /// way.
    fn send_one<S: Exchange, W: Write>(&mut self, exchange: &mut S, answer: &Datagram, out: &mut W)
        ensures sent { Happens (S.course exchange.old) (S.course exchange.new)
            (sent_all (packets_to self.old.inbox.senders.items (answer.now ∷ []))) }
        ensures inbox { self.new.inbox ≡ self.old.inbox }
        ensures same { HasSame self.old self.new }
    {
        let Some(sender) = self.inbox.sender_of(answer.peer) else {
            return;
        };
        if exchange.send(answer.bytes.as_slice(), sender).is_err() {
            self.losses.lose(Loss::Send, out);
        }
    }

    /// Sends the answers, one after another.
    fn send<S: Exchange, W: Write>(&mut self, exchange: &mut S, answers: &[Datagram], out: &mut W)
        ensures sent { Happens (S.course exchange.old) (S.course exchange.new)
            (sent_all (packets_to self.old.inbox.senders.items answers.now)) }
        ensures inbox { self.new.inbox ≡ self.old.inbox }
        ensures same { HasSame self.old self.new }
    {
        for answer in answers {
            self.send_one(exchange, answer, out);
        }
    }

    /// Counts a burst that was executed, and sends its answers.
    fn finish_burst<S: Exchange, W: Write>(
        &mut self,
        exchange: &mut S,
        done: &BurstAnswers,
        out: &mut W,
    )
        ensures sent { Happens (S.course exchange.old) (S.course exchange.new)
            (sent_all (packets_to self.old.inbox.senders.items done.now.answers)) }
        ensures totals { self.new.totals ≡ with_burst self.old.totals (length self.old.inbox.datagrams.items)
            done.now.counts (length done.now.answers) }
        ensures options { self.new.options ≡ self.old.options }
    {
        let answers = done.answers.as_slice();
        self.totals = self
            .totals
            .with_burst(self.inbox.len(), done.counts, answers.len());
        self.send(exchange, answers, out);
    }

    /// Counts a burst that is refused for memory, and so dropped.
    fn drop_burst<W: Write>(&mut self, out: &mut W)
        ensures totals { self.new.totals ≡ with_dropped self.old.totals }
        ensures options { self.new.options ≡ self.old.options }
    {
        self.totals = self.totals.with_dropped();
        self.losses.lose(Loss::Burst, out);
    }

    /// The gateway's answers to the burst.
    ///
    /// # Errors
    ///
    /// Out of memory, also where it was refused to a datagram of the burst. The gateway is then as it was.
    fn run<T: Threads + Sync, G: Gate>(
        &self,
        workers: &Workers<'_, T, G>,
        alloc: Global,
        gateway: &mut Gateway,
    ) -> Result<BurstAnswers, NoMemory>
        ensures limits { IsWithinLimits self.now.inbox.datagrams.items }
        ensures answers { IfOk result (λ done. AnswersBurst gateway.old self.now.inbox.datagrams.items done.answers
            gateway.new) }
        ensures counts { IfOk result (λ done. CountsBurst gateway.old self.now.inbox.datagrams.items done.counts) }
        ensures whole { OnOk result (self.now.inbox.is_refused ≡ false) }
        ensures refused { OnErr result (gateway.new ≡ gateway.old) }
    {
        let burst = self.inbox.burst()?;
        gateway.run_counted(alloc, workers, burst)
    }

    /// Executes the burst and sends its answers. A burst that is refused for memory is dropped.
    ///
    /// # Errors
    ///
    /// `Full` where as many were dropped in a row as may be.
    fn answer_burst<T: Threads + Sync, G: Gate, S: Exchange, W: Write>(
        &mut self,
        workers: &Workers<'_, T, G>,
        alloc: Global,
        exchange: &mut S,
        gateway: &mut Gateway,
        out: &mut W,
    ) -> Result<(), ServeFault>
        ensures answered { (packets : List Packet) → Holds self.old.inbox packets
            → (sent : List Packet) × Happens (S.course exchange.old) (S.course exchange.new) (sent_all sent)
            × IsAnswered packets sent gateway.old gateway.new self.old.totals self.new.totals }
        ensures options { self.new.options ≡ self.old.options }
        ensures holds { Holds self.new.inbox [] }
        ensures senders { self.new.inbox.senders.items ≡ [] }
        ensures ok { OnOk result (¬ IsFull self.new.options.give_up self.new.totals) }
        ensures fault { IfErr result (λ fault. (fault ≡ HasEnough) × IsFull self.new.options.give_up self.new.totals) }
    {
        match self.run(workers, alloc, gateway) {
            Ok(done) => self.finish_burst(exchange, &done, out),
            Err(_) => self.drop_burst(out),
        }
        self.inbox.clear();
        check_dropped(self.options.give_up, &self.totals)
    }

    /// Writes a report where one is due after a burst that began then.
    fn report<W: Write>(
        &mut self,
        rt: &impl Clock,
        begun: Option<Instant>,
        gateway: &Gateway,
        out: &mut W,
    )
        ensures inbox { self.new.inbox ≡ self.old.inbox }
        ensures same { HasSame self.old self.new }
    {
        let now = self.reporter.now(rt);
        if self.reporter.is_due(begun, now) {
            let report = Report {
                totals: self.totals,
                losses: self.losses,
                usage: gateway.usage(),
            };
            self.reporter.write(&report, out);
        }
    }
}

/// Serves so many bursts, or bursts without end.
pub(crate) fn serve_bursts<R: Wait + Threads + Clock + Sync, G: Gate, S: Exchange, W: Write>(
    rt: &R,
    workers: &Workers<'_, R, G>,
    alloc: Global,
    server: &mut Server<'_>,
    exchange: &mut S,
    gateway: &mut Gateway,
    out: &mut W,
) -> Result<Totals, ServeFault>
    requires holds { Holds server.old.inbox [] }
    requires senders { server.old.inbox.senders.items ≡ [] }
    requires totals { server.old.totals ≡ no_totals }
    ensures served { Serves server.old.options (S.course exchange.old) (S.course exchange.new) gateway.old
        gateway.new result }
    ensures fault { IfErr result (λ fault. ¬ IsAtStart fault) }
{
    let mut left = server.options.bursts;
    for _ in rt.forever() {
        left = match left {
            None => None,
            Some(0) => return Ok(server.totals),
            Some(count) => Some(count - 1),
        };
        server.next_burst(rt, alloc, exchange, out)?;
        let begun = server.reporter.now(rt);
        server.answer_burst(workers, alloc, exchange, gateway, out)?;
        server.report(rt, begun, gateway, out);
    }
    unreachable!()
}

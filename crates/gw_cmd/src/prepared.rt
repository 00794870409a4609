//! A command with what is found of it once, for all contexts and terminations.

ghost use Rattle.std.specs.Prelude.{◌≡◌};
ghost use Rattle.std.specs.Option.{ForSome};
ghost use Rattle.gw_base.specs.declared.ids.CtxNum.{CtxNum};
ghost use Rattle.gw_desc.specs.Checks.{check_code};
ghost use Rattle.gw_refusal.specs.declared.at.At.TheVariants.{Each};
ghost use Rattle.gw_refusal.specs.Requested.{requested_service};
ghost use Rattle.gw_refusal.specs.Forms.{refusal_by_form};

use crate::task::{Task, task_of};
use gw_base::{Code, CtxNum, Rules, Service, TermRef};
use gw_desc::check;
use gw_msg::Command;
use gw_refusal::{At, refusal_by_form, requested_service};
use gw_term::Merger;

/// A command under the gateway's rules, with what is found of it once for all contexts and terminations.
#[derive(Drop)]
pub struct Prepared<'a, 'b> {
    /// The gateway's rules.
    pub rules: &'a Rules,
    /// The command.
    pub command: &'a Command<'b>,
    /// Why its form is refused in each of the contexts of an action with `*`, if it is for one.
    refused_in_each: Option<Option<Code>>,
    /// What is wrong with its descriptors.
    pub(crate) wrong: Option<Code>,
    /// The service state of its Method.
    service: Option<Service>,
    /// Its descriptors, as they are merged into records.
    pub(crate) merger: Merger<'a, 'b>,
    ghost refused: { ForSome refused_in_each (λ refused. (n : CtxNum) → refused ≡ refusal_by_form (Each n) command.now) },
    ghost checked: { wrong ≡ check_code command.now.verb command.now.descriptors },
    ghost served: { service ≡ requested_service command.now.descriptors },
    ghost ruled: { merger.rules.now ≡ rules.now },
    ghost merged: { merger.descriptors.now ≡ command.now.descriptors },
}

/// What is wrong with the descriptors of a command.
fn wrong_with(command: &Command<'_>) -> Option<Code>
    ensures { result ≡ check_code command.now.verb command.now.descriptors }
{
    match check(command.verb, command.descriptors.as_slice()) {
        Ok(()) => None,
        Err(code) => Some(code),
    }
}

/// Why the form of a command is refused in each of the contexts of an action with `*`.
#[tactic(auto, unfolding(gw_refusal::specs::Forms::refusal_by_form))]
fn refusal_in_each(command: &Command<'_>) -> Option<Code>
    ensures { (n : CtxNum) → result ≡ refusal_by_form (Each n) command.now }
{
    refusal_by_form(At::Each(CtxNum(0)), command)
}

impl<'a, 'b> Prepared<'a, 'b> {
    ghost use Rattle.gw_cmd.specs.Prepared.{IsSameCommand};
    ghost use Rattle.gw_cmd.specs.Tasks.{IsJudged};

    /// The command under the rules; `for_each` where it is one of an action with `*`. It takes no memory; the work is
    /// that of looking at its descriptors.
    // Inlined, since it is large: it is made where it stands, and not moved there.
    #[inline(always)]
    pub fn new(rules: &'a Rules, command: &'a Command<'b>, for_each: bool) -> Prepared<'a, 'b>
        ensures rules { result.rules.now ≡ rules.now }
        ensures command { result.command.now ≡ command.now }
    {
        let several = matches!(command.term, TermRef::All | TermRef::Under(_));
        Prepared {
            rules,
            command,
            refused_in_each: if for_each {
                Some(refusal_in_each(command))
            } else {
                None
            },
            wrong: wrong_with(command),
            service: requested_service(command.descriptors.as_slice()),
            merger: Merger::new(rules, command.descriptors.as_slice(), several),
        }
    }

    /// Why its form is refused.
    fn refusal(&self, at: At) -> Option<Code>
        ensures { result ≡ refusal_by_form at self.now.command.now }
    {
        match (at, self.refused_in_each) {
            (At::Each(_), Some(refused)) => refused,
            _ => refusal_by_form(at, self.command),
        }
    }

    /// What it does to each of its targets, or why its form is refused.
    pub(crate) fn task(&self, at: At) -> Result<Task, Code>
        ensures { IsJudged at self.now.command.now result }
    {
        if let Some(code) = self.refusal(at) {
            return Err(code);
        }
        match task_of(self.command.verb, at.place(), self.service) {
            Some(task) => Ok(task),
            None => unreachable!(),
        }
    }
}

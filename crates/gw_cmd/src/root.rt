//! Commands on ROOT, the gateway itself.

ghost use Rattle.std.specs.Prelude.{◌≡◌, true, List, ℕ, IfOk, OnOk};
ghost use Rattle.std.specs.List.{flat_map};
ghost use Rattle.gw_base.specs.declared.command_words.Verb.TheVariants.{ServiceChange};
ghost use Rattle.gw_base.specs.declared.key.Key.TheVariants.{Term};
ghost use Rattle.gw_base.specs.NameLists.{is_in};
ghost use Rattle.gw_table.specs.Maps.{names};
ghost use Rattle.gw_table.specs.Parts.{holds};
ghost use Rattle.gw_refusal.specs.Requested.{audited};
ghost use Rattle.gw_cmd.specs.Commands.{all_serviced, serviced_if, bare_answer};
ghost use Rattle.gw_cmd.specs.Tasks.{task_verb, task_service};

use crate::task::Task;
use gw_base::{Items, NoMemory, Service, Span, TermName};
use gw_desc::{Descriptor, item_of};
use gw_refusal::first_audit;
use gw_reply::{AuditReply, ReplyPart};
use gw_table::{Draft, Target};
use std::alloc::Global;

/// The terminations of these names have this service state.
fn all_serviced(draft: &mut Draft, service: Service, named: &[TermName]) -> Result<(), NoMemory>
    requires { (t : List ℕ) → is_in t named.now ≡ true → holds draft.old.keys (Term t) ≡ true }
    ensures maps { OnOk result (draft.new.maps ≡ all_serviced service named.now draft.old.maps) }
    ensures keys { draft.new.keys ≡ draft.old.keys }
{
    for name in named {
        draft.seek_term(&Target::named(*name));
        draft.set_service(name, service)?;
    }
    Ok(())
}

/// Every termination has the service state that the task has for them, if there is one.
pub(crate) fn serve_all(alloc: Global, draft: &mut Draft, task: Task) -> Result<(), NoMemory>
    requires { task_verb task ≡ ServiceChange → (t : List ℕ) → is_in t (names draft.old.maps) ≡ true → holds draft.old.keys (Term t) ≡ true }
    ensures maps { OnOk result (draft.new.maps ≡ serviced_if (task_service task) draft.old.maps) }
    ensures keys { draft.new.keys ≡ draft.old.keys }
{
    match task {
        Task::Serve(_, Some(service)) => {
            let named = draft.names(alloc)?;
            all_serviced(draft, service, &named)
        }
        Task::Serve(_, None) | Task::Act(_) => Ok(()),
    }
}

/// The items of these words, each bare.
fn bare_parts(alloc: Global, words: &[Span<'_>]) -> Result<AuditReply, NoMemory>
    ensures { IfOk result (λ parts. parts ≡ flat_map bare_answer words.now) }
{
    let mut parts = Items::new(alloc);
    for word in words {
        if let Some(item) = item_of(word.as_bytes()) {
            parts.push(ReplyPart::Bare(item))?;
        }
    }
    Ok(parts)
}

/// What an Audit of ROOT gives: each item bare.
pub(crate) fn root_parts(
    alloc: Global,
    descriptors: &[Descriptor<'_>],
) -> Result<AuditReply, NoMemory>
    ensures { IfOk result (λ parts. parts ≡ flat_map bare_answer (audited descriptors.now)) }
{
    match first_audit(descriptors) {
        Some(words) => bare_parts(alloc, words.as_slice()),
        None => Ok(Items::new(alloc)),
    }
}

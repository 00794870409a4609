//! A law of the words.

ghost use Rattle.std.specs.Prelude.{◌≡◌, ℕ, List, []};
ghost use Rattle.gw_program.specs.Forms.{Requests, Request, request_of};
ghost use Rattle.gw_program.specs.Words.{IsRequested, mistakes};
ghost use Rattle.gw_program.specs.declared.job.Job.{Job};

/// Law: words of the forms that docs/OPERATIONS.md shows, `serve` with two at most of an address, a number of workers
/// and one of bursts, have no mistake, and ask for the job of their form: its file, its address, its numbers, and the
/// tables or not.
pub fn words_of_each_form_ask_for_their_job()
    ensures { (words : List (List ℕ)) (request : Request) → Requests words request
        → (mistakes words ≡ []) × ((requested : Job) → IsRequested words requested → request_of requested ≡ request) }
{}

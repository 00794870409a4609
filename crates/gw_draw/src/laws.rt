//! What the draw rule is worth. Laws, as contracts of functions with an empty body.

ghost use Rattle.gw_draw.specs.Runs.{EachJobOnce, StaysNear};

/// Where every seat ran from an empty list and all are joined, the answers have each job once, and none is left out:
/// from what `draw_all` answers of each run, and `Table::close` of the seat that has taken over all.
pub fn each_job_is_answered_once()
    ensures { EachJobOnce }
{}

/// In every state that keeps the draw rule the word is at most as large as jobs and workers together, so that no draw
/// makes it wrap.
pub fn the_word_stays_near_the_jobs()
    ensures { StaysNear }
{}

//! What holds of every run, whatever the order of its steps: laws over definitions alone.
ghost use Rattle.dd_runs.specs.MayCome.{CallsMayCome, NotesMayBeTold, SetsMayBeTold};
ghost use Rattle.dd_runs.specs.ManyRuns.{RunsLaw};
ghost use Rattle.dd_runs.specs.Runs.{WorldLaw};

use dd_rank::{alike_positions, covered_positions};

/// For every list of calls, looks, notes, gets and sets by any actors: the journal is a history of
/// one thread that holds each caller's calls once and in its order with the sequential book's
/// replies; every table answer holds the asked position's value; every answer fetched is that of
/// the request that the job was submitted with; and a job once ended keeps its state and answer.
pub fn world_law()
    ensures { WorldLaw }
{
    alike_positions();
}

/// For runs that follow one another in one process and share one table, each with a book and a journal of its own: all of this
/// holds for each of them, however their steps come.
pub fn runs_law()
    ensures { RunsLaw }
{
    world_law();
}

/// Steps that may come, so that the law of all runs isn't kept by there being none: in every world
/// each call that its caller may make; a note in an empty shard, and a look that is told what was
/// noted; a set of an empty cell, and a get that is told what was set.
pub fn steps_may_come()
    ensures calls { CallsMayCome }
    ensures notes { NotesMayBeTold }
    ensures sets { SetsMayBeTold }
{
    covered_positions();
}

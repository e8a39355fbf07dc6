//! What is known of an answer by its type.
ghost use Rattle.std.specs.Prelude.{◌≡◌};
ghost use Rattle.dd_desk.specs.Exact.{answered_anew, told_anew};

use dd_book::{JobState, Reply};

/// What a reply shows of a job is that of exhaustive play for the request that stands beside it. It only reads.
pub(crate) fn know_answer(reply: &Reply)
    ensures { told_anew reply.now ≡ reply.now }
{
    match reply {
        Reply::State(_, state) => know_state(state),
        _ => {}
    }
}

// The same of a job's state.
fn know_state(state: &JobState)
    ensures { answered_anew state.now ≡ state.now }
{
    match state {
        JobState::Done(solved) => {
            let _ = solved.answer();
        }
        JobState::TableDone(table) => {
            let _ = table.results();
        }
        JobState::TargetDone(solved) => {
            let _ = solved.answer();
        }
        _ => {}
    }
}

//! Whose turn it is, over all runs of a book: laws over definitions alone.
ghost use Rattle.dd_book.specs.Fairness.{ClaimsGoRound, NewcomersComeLast};

/// Claims go round the owners: after a claim that took a part of one of them no claim takes another
/// one of it, for as long as a part of some other owner waits and none of this one's is taken.
pub fn claims_go_round()
    ensures { ClaimsGoRound }
{}

/// Newcomers come last: while a part of a job waits and none of its owner's is taken, no claim takes a part of a caller
/// that had no job when it began to wait. So with the first law its owner waits for at most one part of each caller
/// that had asked by then.
pub fn newcomers_come_last()
    ensures { NewcomersComeLast }
{}

//! What the help of `serve` says of jobs, their replies and their faults.

/// Jobs, waits, replies, faults and limits of a server.
///
/// A function and no constant: what mentions it is then proved without its letters.
pub fn jobs() -> &'static str {
    "\
Jobs:

Each line that a client sends has one reply, in the order of the lines. The
requests 'solve', 'table' and 'play' of 'ddserve solve --help', and 'par' of a
table, are taken here too. The first three make a job, and its number is the
reply; 'par' is answered at once:

  {\"do\":\"solve\",\"deal\":\"N:32... K4... AQ... 65...\",\"trump\":4,\"first\":0,\"solutions\":3}
  {\"job\":1}

  {\"do\":\"fetch\",\"job\":1}   what has become of it, as the reply says in `state`:
                           waiting, running, done, cancelled or spent; done
                           comes with the answer
  {\"do\":\"fetch\",\"job\":1,\"wait\":30000}
                           the same when the job has ended, or after 30000
                           milliseconds; 60000 at most
  {\"do\":\"cancel\",\"job\":1}  gives the job up
  {\"do\":\"health\"}          tells workers, open jobs and the events left of the run
  {\"do\":\"stop\"}            ends the program, with --allow-stop

  {\"cards\":[{\"equals\":4,\"rank\":3,\"score\":2,\"suit\":0}],\"job\":1,\"state\":\"done\"}

A solve, table or play with a `wait` is answered as the fetch of its job would
be: one line, one answer. A job belongs to its connection, and is cancelled
when that ends.

Faults:

Beside those of 'ddserve solve --help':

  13  64 jobs of this connection are open
  14  the run's list of jobs is full: connect anew
  15  the run is used up: fetch what you have, then connect anew
  16  this connection has no job of that number
  17  the job has ended: there is nothing to cancel
  18  the server is closing and takes no more jobs
  19  memory ran out, and nothing was changed

With --explain a line may have an id, which its reply tells again as its first
member, and a fault has its field and a text beside its number, as with
'ddserve solve --explain':

  {\"do\":\"health\",\"id\":4}
  {\"id\":4,\"events_left\":799000,\"jobs\":3,\"workers\":4}

Runs and limits:

A run has at most --events events: a submit and a fetch are one each, and a
search two. Those of a job are kept free when it is taken. When three quarters
are used or kept so the next connection begins a new run.

A connection of lines has 4096 bytes a line. Nothing asks who a client is:
listen at an address of this machine's own, or behind a proxy."
}

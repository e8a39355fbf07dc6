//! What the help says of requests and replies, and of files.

/// Requests, replies, faults and the status of the end.
///
/// A function and no constant: what mentions it is then proved without its letters.
pub fn requests() -> &'static str {
    "\
Requests:

A request is one line of JSON of at most 4096 bytes:

  {\"do\":\"solve\",\"deal\":\"N:32... K4... AQ... 65...\",\"trump\":4,\"first\":0,\"solutions\":3}

  do         \"solve\"
  deal       the hands as in the tag Deal of PBN 2.1: the first hand's letter,
             then the four hands clockwise, each its spades, hearts, diamonds
             and clubs; or the whole tag
  trump      0 spades, 1 hearts, 2 diamonds, 3 clubs, 4 notrump
  first      the hand that leads to the current trick, or led to it where cards
             were played: 0 North, 1 East, 2 South, 3 West
  played     the cards on the current trick in their order, at most three, as
             [suit, rank] each; they are in no hand; may be left out
  solutions  3 every class of equal cards that may be played, 2 those of the
             greatest score, 1 the first of these

A suit is 0 spades, 1 hearts, 2 diamonds, 3 clubs; a rank is 2 to 14: 11 jack,
12 queen, 13 king, 14 ace. Numbers are written with digits alone.

Its reply is one line too. For each class of equal cards that may be played,
the greatest score first, then suit rising, then rank falling: its highest
card, the mask `equals` of its other cards (bit r, the number 2 to the r-th,
for rank r), and in `score` the tricks that its side wins from here on, the
current one included:

  {\"cards\":[{\"equals\":4,\"rank\":3,\"score\":2,\"suit\":0}]}

Targets:

With a target, 0 to 13, each class gets a yes-or-no question, and solutions 1
needs no more than the first yes:

  {\"do\":\"solve\",\"deal\":\"N:32... 65... AQ... K4...\",\"trump\":4,\"first\":0,\"solutions\":2,\"target\":1}

  target     so many tricks are to be won
  solutions  2 every class that wins at least so many, suit rising, then rank
             falling, 1 the first of these

Its reply has the target for each score, which then means `at least so many`.
The list is empty where no card wins so many:

  {\"cards\":[{\"equals\":4,\"rank\":3,\"score\":1,\"suit\":0}]}

Tables:

The twenty results of a deal, the tricks of each declarer in each strain:

  {\"do\":\"table\",\"deal\":\"N:J6.72.AQ7643.AJ7 Q9842.Q854.T.K42 AT75.AT9.KJ8.T83 K3.KJ63.952.Q965\"}

  do         \"table\"
  deal       as above; the hands have equally many cards, 1 to 13

Its reply has a list for each strain, spades, hearts, diamonds, clubs, notrump,
and in it the tricks of each declarer, North, East, South, West, where the hand
to declarer's left leads. A budget is for each of the twenty:

  {\"table\":[[7,6,7,6],[6,7,6,7],[10,3,10,3],[7,6,7,6],[9,3,9,3]]}

Par:

The score that both sides can make sure of in an auction in which all results
are seen:

  {\"do\":\"par\",\"table\":[[7,6,7,6],[6,7,6,7],[10,3,10,3],[7,6,7,6],[9,3,9,3]],\"dealer\":0,\"vulnerable\":0}

  do         \"par\"
  table      the twenty results as above; or in its place
  deal       a deal of thirteen cards a hand, whose results are found first
  dealer     the hand that calls first, 0 to 3; or in its place
  side       the side that is asked first, either hand: 0 North and South, 1
             East and West
  vulnerable 0 neither side, 1 both, 2 North and South, 3 East and West

Its reply has the par contracts and North and South's score, less than 0 where
East and West score. A contract is doubled where its tricks are fewer than its
level and six; the list is empty where the score is 0:

  {\"contracts\":[{\"declarers\":[0,2],\"level\":3,\"tricks\":9,\"trump\":4}],\"score\":400}

Plays:

The tricks that declarer's side takes before the first card of a play and after
each one:

  {\"do\":\"play\",\"deal\":\"N:32... K4... AQ... 65...\",\"trump\":4,\"first\":0,\"cards\":[[0,2],[0,4],[0,14],[0,5]]}

  do         \"play\"
  deal       the hands before the opening lead, each of as many cards
  trump      as above
  first      the hand that leads first; its opponents are declarer's side
  cards      the cards as they were played, each [suit, rank], at most 52; they
             stand in deal

  {\"tricks\":[0,0,0,1,1]}

Faults:

A line whose budget was spent has the reply {\"state\":\"spent\"}. A line that
can't be answered has the reply {\"fault\":F}:

   1  it is no JSON object
   2  it is over 4096 bytes
   3  a field is missing, unknown or of the wrong kind
   4  the text of the deal hasn't the form of a deal
   5  a hand of the deal is `-`
   6  a card stands twice, the current trick included
   7  the hands don't have equally many cards (a hand that has played to the
      trick: one fewer)
   8  there is no card to play
   9  trump is not 0 to 4
  10  first is not 0 to 3
  11  played has more than three cards, cards more than 52, or one of them is
      no card
  12  solutions is not 1 to 3, or not 1 or 2 beside a target
  19  memory ran out while the line was read
  20  dealer is not 0 to 3, or side not 0 or 1
  21  vulnerable is not 0 to 3
  22  a result is over 13
  23  the hands are not of thirteen cards
  24  a card of a play is not in the hand that is to play it
  25  a card of a play is not of the suit led, which the hand has
  26  a play has a card after the last
  27  target is over 13

Of several the first in this order is told: 2, 1, 3, 4, 5, 6 (in the deal), 9,
10, 11, 12, 27, 20, 21, 22, 6 (with the trick), 7, 8, 23; then of a play's
cards the first with a fault, of 26, 24, 25.

Ids and words:

With --explain a request may have an id, which its reply tells again as its
first member: a number below 2^64 written with digits alone, or a text of at
most 64 bytes without a quote, a backslash or a control character. And a fault
has words, and where it can be told the field:

  {\"do\":\"table\",\"deal\":\"N:\",\"id\":7}

  {\"id\":7,\"fault\":4,\"field\":\"deal\",\"text\":\"the text of the deal has not the form of a deal\"}

Budget and memory:

A position is a state of play that the search visits; some six to eight
million take a second. A budget of a million was enough for nine of ten full
deals, ten million for each of 80.

The table keeps what a line found for those that follow. An entry is a strain
with the length of each suit in each hand, and has up to eight results. With
65536 the program had 21 MB after all leads of 100 full deals, and 70 MB after
their twenty results. A line by itself needs few entries: before the table
stands a cache of some 21 MB, touched as it fills.

With --workers N, threads answer ahead the lines of what was read, 65536 bytes
at most. Replies are the same and keep their order. Each thread has a cache of
its own, and they share a table of 16 shards, each with as many entries as
--entries says.

Exit status: 0 at the end of the input, 1 where a read or a write failed or
memory ran out before any input was read, and 2 for a bad command line."
}

/// What is added to a file, what is said of a game that lacks it, and the status of the end.
pub fn files() -> &'static str {
    "\
What is added:

A game whose tag Deal has thirteen cards a hand gets, behind its last line:

  DoubleDummyTricks   the twenty results as hexadecimal digits: declarers
                      North, South, East, West, in each notrump, spades,
                      hearts, diamonds, clubs
  OptimumScore        par, for NS or EW, by the game's Dealer and Vulnerable
  ParContract         the contracts of par, as NS 3NT=, or Pass
  OptimumResultTable  the twenty results as a table

Each is added where the game has no tag of that name. Nothing else of the file
changes, and what was added, taken out again, leaves the file.

What is said:

Of each game that still lacks one that was asked for, a line on the standard
error says why:

  ddserve: game 3 (board 7): no par: Dealer is missing

The reasons are no deal; deal refused, with the number of the fault as `ddserve
solve --help` lists them, and its words; no par, since Dealer or Vulnerable is
missing, or unknown with what it says: a dealer is one letter, vulnerable is
None, NS, EW or All; not closed, where the next game begins in the middle of a
line, or a comment or a tag is open at the end of the file; and spent, with
--budget. Where a file has no tag it says that no game was found. On a terminal
a last line shows how many games have ended, and at which byte of the file.

With --workers N, threads search ahead for the deals of what was read, 262144
bytes or so at a time. The file comes out the same, but for results that are
spent.

Exit status: 0 at the end of the input, whatever was said of games, 1 where a
read or a write failed or memory ran out, and 2 for a bad command line."
}

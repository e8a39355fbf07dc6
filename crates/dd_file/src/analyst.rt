//! Who knows the results of a deal, and is told which games were left.
ghost use Rattle.std.specs.Prelude.{◌≡◌, List, ℕ, Option};
ghost use Rattle.dd_cards.specs.Hands.{FourHands};
ghost use Rattle.dd_file.specs.Deals.{IsThirteen};
ghost use Rattle.dd_file.specs.Notices.{games_ended, games_in_all, left_game};

use dd_cards::Hands;
use dd_score::Results;

/// Why the value of a tag Deal is no deal of thirteen cards a hand.
#[derive(Clone, Copy, Debug, PartialEq, Eq)]
pub enum DealFault {
    /// It hasn't the form of a deal.
    Text,
    /// A hand is left out.
    LeftOut,
    /// A card stands twice.
    Twice,
    /// The hands don't have equally many cards.
    Uneven,
    /// They have none.
    Empty,
    /// They have equally many, but not thirteen.
    NotThirteen,
}

/// Why a game lacks a tag that was asked for.
#[derive(Clone, Copy, Debug, PartialEq, Eq)]
pub enum Reason {
    /// It has no deal.
    NoDeal,
    /// Its deal is refused.
    Refused(DealFault),
    /// Its tag Dealer names no seat.
    NoDealer,
    /// Its tag Vulnerable names no sides.
    NoVulnerable,
    /// It has no end, or none at which a line can stand.
    NotClosed,
    /// The search for its results spent the budget.
    Spent,
}

/// Who knows the results of a deal, and is told which games were left.
pub trait Analyst {
    ghost use Rattle.std.specs.Prelude.{List, ℕ, Option};
    ghost use Rattle.dd_cards.specs.Hands.{FourHands};
    ghost use Rattle.dd_file.specs.Deals.{IsThirteen};
    ghost use Rattle.dd_file.specs.Notices.{Notice, games_ended, games_in_all, left_game};

    /// these may be told as the twenty results of a deal, or none may be
    ghost gives: { FourHands → Option (List (List ℕ)) → Type 0 };

    /// what a clause knows of it
    ghost State: { Type 0 };

    ghost state: { Self → Self.State };
    /// in this state it is told this, and that leaves this state
    ghost way: { Self.State → Notice → Self.State → Type 0 };

    /// The twenty results of a deal of thirteen cards a hand; None where they were given up.
    fn results(&mut self, deal: &Hands) -> Option<Results>
        requires { IsThirteen deal.now }
        ensures gives { Self.gives deal.now result }
        ensures state { Self.state self.new ≡ Self.state self.old };

    /// Is it to be told ahead of the deals whose results will be asked for?
    fn foresees(&self) -> bool {
        false
    }

    /// Is told of such a deal. It serves the time alone: no answer rests on it.
    fn foresee(&mut self, _deal: &Hands)
        requires { IsThirteen _deal.now }
        ensures { Self.state self.new ≡ Self.state self.old }
    {}

    /// Is told how far it is, where a game ends before the end of the file: how many have ended, and how many bytes stand before
    /// the place where it ends. No answer rests on it.
    fn passed(&mut self, games: u64, bytes: u64)
        ensures { Self.way (Self.state self.old) (games_ended games bytes) (Self.state self.new) };

    /// Is told why the game of this number, with this value of its tag Board, lacks a tag that was asked for. For `NoDealer` and
    /// `NoVulnerable` `unknown` is what that tag of the game says, `#` and `##` as they stand there; it is empty where the tag is
    /// missing, empty or `?`, and for other reasons. Of both the first 32 bytes are told.
    fn left(&mut self, game: u64, board: &[u8], reason: Reason, unknown: &[u8])
        ensures { Self.way (Self.state self.old) (left_game game board.now reason unknown.now)
            (Self.state self.new) };

    /// Is told at the end of the file how many games it has: each has a tag. No answer rests on it.
    fn ended(&mut self, games: u64)
        ensures { Self.way (Self.state self.old) (games_in_all games) (Self.state self.new) };
}

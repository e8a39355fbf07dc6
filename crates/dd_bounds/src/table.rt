//! What a search is told of positions, and tells of them: the transposition table as it sees it.
ghost use Rattle.std.specs.Prelude.{IfSome, ◌<◌, ◌≤◌, ◌⊎◌, true, ◌≡◌};
ghost use Rattle.dd_cards.specs.declared.suit.Suit.{Suit as SuitOf};
ghost use Rattle.dd_play.specs.Board.{Board, IsBoard};
ghost use Rattle.dd_play.specs.Covers.{count_of};
ghost use Rattle.dd_play.specs.Value.{leaders_tricks};
ghost use Rattle.dd_play.specs.Intervals.{Holds};
ghost use Rattle.dd_rank.specs.Depths.{FourDepths, depth_in, all_cards, Covers};
ghost use Rattle.dd_rank.specs.Strings.{strings_of};

use dd_cards::{Seat, Suit};
use dd_play::{Interval, Position, TrickStart};
use dd_rank::{Depths, OwnerStrings, Shape};

/// Known bounds of the values of positions. A value is the number of tricks, 0 to 13, of the leader's side. Bounds come
/// with depths, and hold of each position that the one asked covers at these.
pub trait Bounds {
    ghost use Rattle.dd_play.specs.declared.interval.Interval.{Interval};

    /// the bounds that are told of a position, with their depths
    ghost tells: { Self → Board → FourDepths → Interval → Type 0 };

    /// May a search ask it and tell it of starts by relative ranks in place of the deal's own? These are alike to them: North leads, and
    /// of each suit the cards left are the highest ones. A search takes less time so. Of such a start leads are told by
    /// `lead_history_of` and `note_lead_of`. The first start of each line of play is the deal's own all the same, and so is each one
    /// where a search begins with few tricks left.
    fn takes_relative_starts(&self) -> bool {
        false
    }

    /// Takes note that a search of this position begins. It serves the time alone: what was learned of another deal may be forgotten.
    fn begin(&mut self, _position: &Position) {}

    /// Bounds, with their depths, and nothing where none are known.
    fn look(&mut self, start: &TrickStart) -> Option<(Interval, Depths)>
        ensures told { IfSome result (λ told. tells self.old start.now told.1 told.0) }
        ensures within { IfSome result (λ told. (u : SuitOf)
            → depth_in told.1 u ≤ count_of u (all_cards start.now)) };

    /// Bounds that settle whether the leader's side takes at least `need` tricks, and nothing where none are known. The
    /// strings are those of the start.
    fn settle(
        &mut self,
        start: &TrickStart,
        strings: &OwnerStrings,
        need: u8,
    ) -> Option<(Interval, Depths)>
        requires { strings.now ≡ strings_of start.now }
        ensures told { IfSome result (λ told. tells self.old start.now told.1 told.0) }
        ensures within { IfSome result (λ told. (u : SuitOf)
            → depth_in told.1 u ≤ count_of u (all_cards start.now)) }
        ensures settles { IfSome result (λ told. (need ≤ told.0.lo) ⊎ (told.0.hi < need)) }
    {
        let told = self.look(start)?;
        if need <= told.0.lo || told.0.hi < need {
            Some(told)
        } else {
            None
        }
    }

    /// Where bounds of starts of this shape may stand: what a table can read ahead of the strings. It serves the time alone: no
    /// answer rests on it, so any hint is right.
    fn probe_hint(&self, _shape: Shape) -> ProbeHint {
        ProbeHint::default()
    }

    /// The same, and nothing is read for which a search would have to wait: this is what a search asks.
    fn probe_ahead(&self, shape: Shape) -> ProbeHint {
        self.probe_hint(shape)
    }

    /// The same as `settle`, where what `probe_hint` or `probe_ahead` told of the start's shape is handed in.
    fn settle_at(
        &mut self,
        start: &TrickStart,
        strings: &OwnerStrings,
        _hint: ProbeHint,
        need: u8,
    ) -> Option<(Interval, Depths)>
        requires { strings.now ≡ strings_of start.now }
        ensures told { IfSome result (λ told. tells self.old start.now told.1 told.0) }
        ensures within { IfSome result (λ told. (u : SuitOf)
            → depth_in told.1 u ≤ count_of u (all_cards start.now)) }
        ensures settles { IfSome result (λ told. (need ≤ told.0.lo) ⊎ (told.0.hi < need)) }
    {
        self.settle(start, strings, need)
    }

    /// Hands over bounds, with their depths, which may be kept or not.
    fn note(&mut self, start: &TrickStart, depths: Depths, interval: Interval)
        requires within { (u : SuitOf) → depth_in depths u ≤ count_of u (all_cards start.now) }
        requires holds { (q : Board) → IsBoard q → Covers start.now (depth_in depths) q
            → Holds interval (leaders_tricks q) };

    /// The same, where the start's strings are known.
    fn note_by(
        &mut self,
        start: &TrickStart,
        strings: &OwnerStrings,
        depths: Depths,
        interval: Interval,
    )
        requires strings { strings.now ≡ strings_of start.now }
        requires within { (u : SuitOf) → depth_in depths u ≤ count_of u (all_cards start.now) }
        requires holds { (q : Board) → IsBoard q → Covers start.now (depth_in depths) q
            → Holds interval (leaders_tricks q) }
    {
        self.note(start, depths, interval);
    }

    /// The suits of leads that settled starts of a trick like this one, which has these strings. They serve the order of leads
    /// alone: no answer rests on them, so any are right.
    fn lead_history(&self, _start: &Position, _strings: &OwnerStrings) -> LeadHistory {
        LeadHistory::default()
    }

    /// Hands over the suit of a lead that settled this start, which has these strings, and which may be kept or not.
    fn note_lead(&mut self, _start: &Position, _strings: &OwnerStrings, _lead: Suit) {}

    /// The same as `lead_history`, where this seat leads in the deal: the leader of a start by relative ranks is always North.
    fn lead_history_of(
        &self,
        start: &Position,
        _leader: Seat,
        strings: &OwnerStrings,
    ) -> LeadHistory {
        self.lead_history(start, strings)
    }

    /// The same as `note_lead`, where this seat leads in the deal.
    fn note_lead_of(
        &mut self,
        start: &Position,
        _leader: Seat,
        strings: &OwnerStrings,
        lead: Suit,
    ) {
        self.note_lead(start, strings, lead);
    }

    /// what is told holds
    ghost holds: { (table : Self) (p : Board) (depths : FourDepths) (interval : Interval) (q :
        Board) → tells table p depths interval
        → IsBoard q → Covers p (depth_in depths) q → Holds interval (leaders_tricks q) };
}

/// Where bounds of a shape may stand in a table, in the table's own terms.
#[derive(Clone, Copy, Debug, Default)]
pub struct ProbeHint {
    /// the number of what stands there
    pub number: u32,
    /// whether what stands there may be of the shape
    pub has_shape: bool,
}

/// The suits of leads that settled starts of a trick, where some are known.
#[derive(Clone, Copy, Debug, Default)]
pub struct LeadHistory {
    /// the last one at a start of the same shape
    pub of_shape: Option<Suit>,
    /// the last one at a start of the same outline
    pub of_outline: Option<Suit>,
    /// the last one of the same leader with as many tricks left
    pub of_leader: Option<Suit>,
}

/// Knows nothing and keeps nothing.
#[derive(Clone, Copy, Debug, Drop)]
pub struct NoTable;

impl Bounds for NoTable {
    ghost tells = { λ table p depths interval. ⊥ };

    ghost holds = { λ table p depths interval q told. absurd told };

    fn takes_relative_starts(&self) -> bool {
        true
    }

    fn look(&mut self, _start: &TrickStart) -> Option<(Interval, Depths)> {
        None
    }

    fn note(&mut self, _start: &TrickStart, _depths: Depths, _interval: Interval) {}
}

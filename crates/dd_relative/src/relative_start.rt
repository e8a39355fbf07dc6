//! A start of a trick by relative ranks.
ghost use Rattle.std.specs.Prelude.{◌≡◌, ◌≤◌, ◌∷◌, []};
ghost use Rattle.dd_cards.specs.declared.seat.Seat.TheVariants.{North, East, South, West};
ghost use Rattle.dd_cards.specs.Cards.{deck};
ghost use Rattle.dd_play.specs.Board.{cards_at, tricks_left};
ghost use Rattle.dd_rank.specs.Alike.{AreAlike, IsAlike};
ghost use Rattle.dd_relative.specs.Relative.{IsRelative, led_by_north};
ghost use Rattle.dd_relative.specs.Gapped.{IsGapped};

use crate::gap::{moved_up, one_closed, raised};
use dd_cards::{Hand, Hands, Place, Seat, Strain};
use dd_play::TrickStart;
use std::marker::Model;

/// A start of a trick by relative ranks: the leader is North, and the cards left of each suit are its highest ones.
#[derive(Drop)]
pub struct RelativeStart {
    start: TrickStart,
}

impl Model for RelativeStart {
    ghost use Rattle.dd_play.specs.Board.{Board};
    ghost use Rattle.dd_relative.specs.Relative.{IsRelative};

    ghost Value = { Board };

    ghost view = { λ s. s.start };

    ghost invariant = { λ s. IsRelative s.start };
}

impl RelativeStart {
    /// The start of a trick that is like this one, with the leader as North and no gaps in the suits.
    pub fn of(start: &TrickStart) -> RelativeStart
        ensures { AreAlike start.now result }
    {
        let position = start.position();
        let hands = position.hands();
        let first_seat = position.first();
        let second_seat = first_seat.next();
        let third_seat = second_seat.next();
        let fourth_seat = third_seat.next();
        let leader = hands.hand(first_seat);
        let second = hands.hand(second_seat);
        let third = hands.hand(third_seat);
        let fourth = hands.hand(fourth_seat);
        let left = leader.union(second).union(third.union(fourth));
        let gaps = pack().difference(left);
        closed_up(leader, second, third, fourth, position.strain(), gaps)
    }

    /// An equal one.
    #[inline(always)]
    pub fn copy(&self) -> RelativeStart
        ensures same { result ≡ self.now }
        ensures relative { IsRelative self.now }
    {
        RelativeStart {
            start: self.start.copy(),
        }
    }

    /// The cards of the leader, who is North.
    #[inline(always)]
    pub fn leader(&self) -> Hand
        ensures cards { result ≡ cards_at self.now North }
        ensures relative { IsRelative self.now }
    {
        self.hands().hand(Seat::North)
    }

    /// The cards of the second hand, which is East.
    #[inline(always)]
    pub fn second(&self) -> Hand
        ensures cards { result ≡ cards_at self.now East }
        ensures relative { IsRelative self.now }
    {
        self.hands().hand(Seat::East)
    }

    /// The cards of the third hand, which is South.
    #[inline(always)]
    pub fn third(&self) -> Hand
        ensures cards { result ≡ cards_at self.now South }
        ensures relative { IsRelative self.now }
    {
        self.hands().hand(Seat::South)
    }

    /// The cards of the fourth hand, which is West.
    #[inline(always)]
    pub fn fourth(&self) -> Hand
        ensures cards { result ≡ cards_at self.now West }
        ensures relative { IsRelative self.now }
    {
        self.hands().hand(Seat::West)
    }

    /// The strain.
    #[inline(always)]
    pub fn strain(&self) -> Strain
        ensures { result ≡ self.now.strain }
    {
        self.start.position().strain()
    }

    /// The same as a start of a trick.
    #[inline(always)]
    pub fn as_trick_start(&self) -> &TrickStart
        ensures same { result.now ≡ self.now }
        ensures relative { IsRelative self.now }
    {
        &self.start
    }

    /// The tricks left: 0 to 13.
    #[inline(always)]
    pub fn tricks_left(&self) -> u8
        ensures tricks { result ≡ tricks_left self.now }
        ensures bound { result ≤ 13 }
    {
        self.leader().len()
    }

    // The four hands.
    #[inline(always)]
    fn hands(&self) -> &Hands
        ensures hands { result.now ≡ self.now.hands }
        ensures relative { IsRelative self.now }
    {
        self.start.position().hands()
    }
}

/// The hands from the leader on, without the gaps in their suits.
// From the highest gap down: where one is closed, the lower ones go up as the cards do.
#[inline]
pub(crate) fn closed_up(
    leader: Hand,
    second: Hand,
    third: Hand,
    fourth: Hand,
    strain: Strain,
    gaps: Hand,
) -> RelativeStart
    requires { IsGapped (led_by_north leader second third fourth strain) gaps }
    ensures { IsAlike (led_by_north leader second third fourth strain) result }
{
    let mut first_now = leader;
    let mut second_now = second;
    let mut third_now = third;
    let mut fourth_now = fourth;
    let mut gaps_now = gaps;
    'gaps: while let Some(gap) = gaps_now.take_first() {
        first_now = moved_up(first_now, gap);
        second_now = moved_up(second_now, gap);
        third_now = moved_up(third_now, gap);
        fourth_now = moved_up(fourth_now, gap);
        gaps_now = moved_up(gaps_now, gap);
    }
    RelativeStart {
        start: TrickStart::led_by_north(first_now, second_now, third_now, fourth_now, strain),
    }
}

/// The same of the four gaps that a trick leaves, which may come in any order.
// Where one is closed, those below it in its suit go up as the cards do. No hand of gaps is kept, and nothing has a branch.
#[inline(always)]
pub(crate) fn closed_over(
    leader: Hand,
    second: Hand,
    third: Hand,
    fourth: Hand,
    strain: Strain,
    a: Place,
    b: Place,
    c: Place,
    d: Place,
) -> RelativeStart
    requires { IsGapped (led_by_north leader second third fourth strain) (a ∷ b ∷ c ∷ d ∷ []) }
    ensures { IsAlike (led_by_north leader second third fourth strain) result }
{
    let (l, s, t, f) = one_closed(leader, second, third, fourth, a);
    let b_now = raised(b, a);
    let c_now = raised(c, a);
    let d_now = raised(d, a);
    let (l, s, t, f) = one_closed(l, s, t, f, b_now);
    let c_next = raised(c_now, b_now);
    let d_next = raised(d_now, b_now);
    let (l, s, t, f) = one_closed(l, s, t, f, c_next);
    let d_last = raised(d_next, c_next);
    let (l, s, t, f) = one_closed(l, s, t, f, d_last);
    RelativeStart {
        start: TrickStart::led_by_north(l, s, t, f, strain),
    }
}

/// All cards of the pack.
pub(crate) fn pack() -> Hand
    ensures { result ≡ deck }
{
    Hand::of_mask(0x7ffc_7ffc_7ffc_7ffc)
}

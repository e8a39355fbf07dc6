//! Quick tricks. The leader cashes side suits and crosses to its partner, which cashes too, and the side keeps its joint
//! trumps; the other side has joint trumps, or without trumps wins a later trick or keeps winners. So a side's quick tricks
//! are no more than it takes, and they rest on winners alone: it takes as many where the lower cards are others.
ghost use Rattle.std.specs.Prelude.{◌≡◌, ◌<◌, ◌≤◌, ◌+◌, ◌-◌, IsSome, ℕ, [], IfSome, true, max, if◌then◌else◌};
ghost use Rattle.dd_cards.specs.declared.suit.Suit.{Suit as SuitOf};
ghost use Rattle.dd_cards.specs.declared.suit.Suit.TheVariants.{Spades, Hearts, Diamonds, Clubs};
ghost use Rattle.dd_cards.specs.PlayingCard.{PlayingCard};
ghost use Rattle.dd_cards.specs.Sides.{side_of, other_side};
ghost use Rattle.dd_cards.specs.Seats.{seat_after};
ghost use Rattle.dd_play.specs.Board.{Board, IsBoard, tricks_left};
ghost use Rattle.dd_play.specs.Covers.{count_of};
ghost use Rattle.dd_play.specs.Intervals.{Holds};
ghost use Rattle.dd_play.specs.Reach.{reach, TakesBy};
ghost use Rattle.dd_play.specs.Value.{leaders_tricks};
ghost use Rattle.dd_quick.specs.QuickTricks.{IsCash, IsNext, cashed, crossed, has_later_trick, joint_trumps};
ghost use Rattle.dd_quick.specs.QuickTricks.{others_kept};
ghost use Rattle.dd_quick.specs.QuickTricks.{quick_hi, quick_lo, side_tricks};
ghost use Rattle.dd_quick.specs.SecondHand.{IsBeforeLead, Opposes};
ghost use Rattle.dd_rank.specs.Depths.{all_cards, depth_in, Covers};

use crate::crossing::{Partners, beside_trumps, crossing, with_partners};
use crate::guarded_trump::guarded_trump;
use crate::joint_trumps::{joint_trumps, with_trumps};
use crate::kept_winners::{keeps, kept_cards, kept_winners};
use crate::later_trick::{later_cards, later_trick, later_winners, one_if};
use crate::long_suit::{Cashes, cashed, offers, with_shares};
use crate::sharing::{Shares, share_out};
use crate::winners::trumps;
use dd_cards::{Hand, Seat};
use dd_play::{Interval, Position, TrickStart};
use dd_rank::Depths;

/// Bounds of the tricks, 0 to 13, that the leader's side takes from here on: at least its quick tricks, and no more than
/// those of the other side leave it. They hold of each position that this one covers at the depths: in each suit how many
/// of the cards left, from the highest down to the lowest winner. It plays no card and takes no memory.
#[tactic(auto, unfolding(crate::specs::QuickTricks::quick_lo, crate::specs::QuickTricks::quick_hi))]
pub fn bounds(start: &TrickStart) -> (Interval, Depths)
    ensures holds { (q : Board) → IsBoard q → Covers start.now (depth_in result.1) q
        → Holds result.0 (leaders_tricks q) }
    ensures within { (quick_lo start.now ≤ result.0.lo) × (result.0.hi ≤ quick_hi start.now) }
    ensures depths { (u : SuitOf) → depth_in result.1 u ≤ count_of u (all_cards start.now) }
{
    let position = start.position();
    let ours = leaders(position);
    let partners = crossing(position, beside_trumps(position, ours.side));
    let lo = ours.side + ours.trumps + partners.tricks;
    let theirs = all_others(position);
    let interval = Interval {
        lo,
        hi: position.tricks_left() - theirs,
    };
    let cards = sure_cards(position, ours, partners, lo).union(all_others_cards(position, theirs));
    (interval, Depths::of_cards(start, cards))
}

/// The winners on which it rests that the leader's side takes at least `need` tricks, where its quick tricks are so many.
#[tactic(auto, unfolding(crate::specs::QuickTricks::quick_lo))]
pub fn for_leader(start: &TrickStart, need: u8) -> Option<Hand>
    ensures found { need ≤ quick_lo start.now → IsSome result }
    ensures claim { IfSome result
        (λ cards. TakesBy (reach cards) (side_of start.now.first) start.now need) }
{
    let position = start.position();
    let ours = leaders(position);
    if need <= ours.side + ours.trumps {
        return Some(leaders_cards(position, ours, need));
    }
    let most = beside_trumps(position, ours.side);
    if need > ours.side + ours.trumps + most {
        return None;
    }
    let partners = crossing(position, most);
    if need <= ours.side + ours.trumps + partners.tricks {
        Some(crossing_cards(position, ours, partners, need))
    } else {
        None
    }
}

/// The winners on which it rests that the other side takes at least `need` tricks, where its quick tricks are so many.
#[tactic(auto, unfolding(crate::specs::QuickTricks::quick_hi))]
pub fn against_leader(start: &TrickStart, need: u8) -> Option<Hand>
    ensures found { need ≤ tricks_left start.now - quick_hi start.now → IsSome result }
    ensures claim { IfSome result
        (λ cards. TakesBy (reach cards) (other_side (side_of start.now.first)) start.now need) }
{
    let position = start.position();
    if need <= others(position) {
        return Some(others_cards(position, need));
    }
    let later = if need == 1 {
        later_winners(position)
    } else {
        None
    };
    if let Some(cards) = later {
        return Some(cards);
    }
    let left = position.first().left();
    let right = position.first().right();
    if keeps(position, left, need) {
        return Some(kept_cards(position, left, need));
    }
    if keeps(position, right, need) {
        return Some(kept_cards(position, right, need));
    }
    if need == 1 {
        either_guards(position, left, right)
    } else {
        None
    }
}

// The trump on which it rests that one of the two opponents takes a trick, where it has it guarded.
fn either_guards(position: &Position, left: Seat, right: Seat) -> Option<Hand>
    requires start { position.now.trick ≡ [] }
    requires opposes { Opposes position.now left × Opposes position.now right }
    ensures { IfSome result
        (λ cards. TakesBy (reach cards) (other_side (side_of position.now.first)) position.now 1) }
{
    match guarded_trump(position, left) {
        Some(cards) => Some(cards),
        None => guarded_trump(position, right),
    }
}

/// What the leader's side is sure of: what the leader cashes in each side suit and in all, and the side's joint trumps.
#[derive(Clone, Copy)]
pub(crate) struct Sure {
    pub(crate) cashed: Cashes,
    pub(crate) side: u8,
    pub(crate) trumps: u8,
}

/// What the leader's side is sure of.
pub(crate) fn leaders(position: &Position) -> Sure
    requires { position.now.trick ≡ [] }
    ensures spades { IsCash position.now Spades
        result.cashed.spades.tricks result.cashed.spades.depth }
    ensures hearts { IsCash position.now Hearts
        result.cashed.hearts.tricks result.cashed.hearts.depth }
    ensures diamonds { IsCash position.now Diamonds
        result.cashed.diamonds.tricks result.cashed.diamonds.depth }
    ensures clubs { IsCash position.now Clubs
        result.cashed.clubs.tricks result.cashed.clubs.depth }
    ensures side { result.side ≡ side_tricks position.now }
    ensures trumps { result.trumps
        ≡ joint_trumps position.now.strain position.now position.now.first }
    ensures bound { (result.side ≤ 13) × (result.trumps ≤ 13) }
{
    let leader = position.first();
    let cashed = cashed(position);
    let all = cashed.spades.tricks
        + cashed.hearts.tricks
        + cashed.diamonds.tricks
        + cashed.clubs.tricks;
    let side = all.min(position.tricks_left() - trumps(position, leader.partner()));
    Sure {
        cashed,
        side,
        trumps: joint_trumps(position, leader),
    }
}

// The winners on which so many tricks of the leader's side rest: those of side suits first.
fn leaders_cards(position: &Position, ours: Sure, need: u8) -> Hand
    requires start { position.now.trick ≡ [] }
    requires spades { IsCash position.now Spades
        ours.cashed.spades.tricks ours.cashed.spades.depth }
    requires hearts { IsCash position.now Hearts
        ours.cashed.hearts.tricks ours.cashed.hearts.depth }
    requires diamonds { IsCash position.now Diamonds
        ours.cashed.diamonds.tricks ours.cashed.diamonds.depth }
    requires clubs { IsCash position.now Clubs
        ours.cashed.clubs.tricks ours.cashed.clubs.depth }
    requires side { ours.side ≡ side_tricks position.now }
    requires few { need ≤ side_tricks position.now
        + joint_trumps position.now.strain position.now position.now.first }
    ensures { TakesBy (reach result) (side_of position.now.first) position.now need }
{
    let cashed = ours.cashed;
    let side = need.min(ours.side);
    let shares = share_out(offers(cashed), side);
    let cards = with_shares(position, Hand::new(), cashed, shares);
    with_trumps(position, position.first(), cards, need - side)
}

/// The winners on which so many tricks of the leader's side rest where the leader crosses to its partner: all that it cashes,
/// all joint trumps, and of its partner's as many as are needed beside. The same holds after another hand's lead that it wins.
pub(crate) fn crossing_cards(position: &Position, ours: Sure, partners: Partners, need: u8) -> Hand
    requires start { position.now.trick ≡ [] }
    requires spades { IsCash position.now Spades
        ours.cashed.spades.tricks ours.cashed.spades.depth }
    requires hearts { IsCash position.now Hearts
        ours.cashed.hearts.tricks ours.cashed.hearts.depth }
    requires diamonds { IsCash position.now Diamonds
        ours.cashed.diamonds.tricks ours.cashed.diamonds.depth }
    requires clubs { IsCash position.now Clubs
        ours.cashed.clubs.tricks ours.cashed.clubs.depth }
    requires side { ours.side ≡ side_tricks position.now }
    requires trumps { ours.trumps
        ≡ joint_trumps position.now.strain position.now position.now.first }
    requires next_spades { 1 ≤ partners.tricks
        → IsNext position.now Spades partners.next.spades.tricks partners.next.spades.first }
    requires next_hearts { 1 ≤ partners.tricks
        → IsNext position.now Hearts partners.next.hearts.tricks partners.next.hearts.first }
    requires next_diamonds { 1 ≤ partners.tricks
        → IsNext position.now Diamonds partners.next.diamonds.tricks partners.next.diamonds.first }
    requires next_clubs { 1 ≤ partners.tricks
        → IsNext position.now Clubs partners.next.clubs.tricks partners.next.clubs.first }
    requires tricks { partners.tricks ≡ crossed position.now }
    requires many { side_tricks position.now
        + joint_trumps position.now.strain position.now position.now.first < need }
    requires few { need ≤ side_tricks position.now
        + joint_trumps position.now.strain position.now position.now.first + crossed position.now }
    ensures leads { TakesBy (reach result) (side_of position.now.first) position.now need }
    ensures after_a_lead { (p : Board) (led : PlayingCard) → IsBeforeLead p led position.now
        → 1 ≤ cashed position.now.strain position.now led.suit
        → TakesBy (reach result) (side_of position.now.first) p need }
{
    let cashed = ours.cashed;
    let all = Shares {
        spades: cashed.spades.tricks,
        hearts: cashed.hearts.tricks,
        diamonds: cashed.diamonds.tricks,
        clubs: cashed.clubs.tricks,
    };
    let shares = share_out(partners.next, need - ours.side - ours.trumps);
    let cards = with_shares(position, Hand::new(), cashed, all);
    let cards = with_partners(position, cards, shares);
    with_trumps(position, position.first(), cards, ours.trumps)
}

// The winners on which so many tricks of the leader's side rest, by crossing where the others are too few.
fn sure_cards(position: &Position, ours: Sure, partners: Partners, need: u8) -> Hand
    requires start { position.now.trick ≡ [] }
    requires spades { IsCash position.now Spades
        ours.cashed.spades.tricks ours.cashed.spades.depth }
    requires hearts { IsCash position.now Hearts
        ours.cashed.hearts.tricks ours.cashed.hearts.depth }
    requires diamonds { IsCash position.now Diamonds
        ours.cashed.diamonds.tricks ours.cashed.diamonds.depth }
    requires clubs { IsCash position.now Clubs
        ours.cashed.clubs.tricks ours.cashed.clubs.depth }
    requires side { ours.side ≡ side_tricks position.now }
    requires trumps { ours.trumps
        ≡ joint_trumps position.now.strain position.now position.now.first }
    requires sums { (ours.side ≤ 13) × (ours.trumps ≤ 13) }
    requires next_spades { 1 ≤ partners.tricks
        → IsNext position.now Spades partners.next.spades.tricks partners.next.spades.first }
    requires next_hearts { 1 ≤ partners.tricks
        → IsNext position.now Hearts partners.next.hearts.tricks partners.next.hearts.first }
    requires next_diamonds { 1 ≤ partners.tricks
        → IsNext position.now Diamonds partners.next.diamonds.tricks partners.next.diamonds.first }
    requires next_clubs { 1 ≤ partners.tricks
        → IsNext position.now Clubs partners.next.clubs.tricks partners.next.clubs.first }
    requires tricks { partners.tricks ≡ crossed position.now }
    requires few { need ≤ side_tricks position.now
        + joint_trumps position.now.strain position.now position.now.first + crossed position.now }
    ensures { TakesBy (reach result) (side_of position.now.first) position.now need }
{
    let own = ours.side + ours.trumps;
    if need <= own {
        leaders_cards(position, ours, need)
    } else {
        crossing_cards(position, ours, partners, need)
    }
}

// What the other side is sure of at once: its joint trumps.
fn others(position: &Position) -> u8
    ensures tricks { result ≡ joint_trumps position.now.strain position.now
        (seat_after position.now.first 1) }
    ensures bound { result ≤ 13 }
{
    joint_trumps(position, position.first().left())
}

// The winners on which so many tricks of these rest.
fn others_cards(position: &Position, need: u8) -> Hand
    requires start { position.now.trick ≡ [] }
    requires few { need ≤ joint_trumps position.now.strain position.now
        (seat_after position.now.first 1) }
    ensures { TakesBy (reach result) (other_side (side_of position.now.first)) position.now need }
{
    with_trumps(position, position.first().left(), Hand::new(), need)
}

// What the other side is sure of in all: its joint trumps, or one later trick, or what an opponent keeps.
fn all_others(position: &Position) -> u8
    ensures tricks { result ≡ max (max
        (joint_trumps position.now.strain position.now (seat_after position.now.first 1))
        (if has_later_trick position.now then 1 else 0)) (others_kept position.now) }
    ensures bound { result ≤ 13 }
{
    let left = position.first().left();
    let right = position.first().right();
    let kept = kept_winners(position, left).max(kept_winners(position, right));
    others(position)
        .max(one_if(later_trick(position)))
        .max(kept)
}

// The winners on which so many tricks of the other side rest.
fn all_others_cards(position: &Position, need: u8) -> Hand
    requires start { position.now.trick ≡ [] }
    requires few { need ≤ max (max
        (joint_trumps position.now.strain position.now (seat_after position.now.first 1))
        (if has_later_trick position.now then 1 else 0)) (others_kept position.now) }
    ensures { TakesBy (reach result) (other_side (side_of position.now.first)) position.now need }
{
    if need <= others(position) {
        return others_cards(position, need);
    }
    if later_trick(position) && need == 1 {
        return later_cards(position);
    }
    let left = position.first().left();
    if need <= kept_winners(position, left) {
        return kept_cards(position, left, need);
    }
    let right = position.first().right();
    kept_cards(position, right, need)
}

//! Second hand wins. An opponent of the leader, the second hand or the fourth, holds the highest card left of a suit that the
//! leader can lead. What it could cash with the lead in the leader's place, with that card as the first of its tricks, it takes
//! after each lead of the suit: it wins this trick with that card whatever comes, and the other hands follow as they would to its
//! lead. Which card is led is no matter, so one count answers for all of the suit. Its partner has not played yet, so it can keep
//! what the count rests on, winners to which the seat crosses too; where third hand is to play it has, and the same is not sound.
//! An opponent that could ruff the first trick leaves nothing to cash in the suit.
ghost use Rattle.std.specs.Prelude.{◌≡◌, ◌≤◌, ◌+◌, [], true, min, IfSome};
ghost use Rattle.dd_cards.specs.declared.strain.Strain.TheVariants.{Trump};
ghost use Rattle.dd_cards.specs.declared.suit.Suit.TheVariants.{Spades, Hearts, Diamonds, Clubs};
ghost use Rattle.dd_cards.specs.PlayingCard.{PlayingCard};
ghost use Rattle.dd_cards.specs.Cards.{has_card};
ghost use Rattle.dd_cards.specs.Sides.{side_of, other_side};
ghost use Rattle.dd_play.specs.Play.{after, legal};
ghost use Rattle.dd_play.specs.Reach.{reach, TakesBy};
ghost use Rattle.dd_quick.specs.QuickTricks.{IsCash, side_tricks, joint_trumps};
ghost use Rattle.dd_quick.specs.SecondHand.{Opposes, TakesAfterLead};
ghost use Rattle.dd_quick.specs.Sharing.{shares};

use crate::crossing::{beside_trumps, crossing};
use crate::joint_trumps::with_trumps;
use crate::long_suit::{Cash, Cashes, offers, with_shares, with_winners};
use crate::quick_tricks::{Sure, crossing_cards, leaders};
use crate::sharing::{Shares, share_out};
use crate::winners::{run, trumps};
use dd_cards::{Hand, Seat, Strain, Suit};
use dd_play::Position;

/// Where no card is on the trick and this opponent of the leader has the highest card left of the suit: the winners on which it
/// rests that after each lead of the suit the opponents take at least `need` tricks, the one led to included, where they have so many
/// quick tricks.
pub fn for_second_hand(position: &Position, seat: Seat, suit: Suit, need: u8) -> Option<Hand>
    requires start { position.now.trick ≡ [] }
    requires opposes { Opposes position.now seat }
    ensures { IfSome result (λ cards. (card : PlayingCard) → has_card (legal position.now) card ≡ true
        → card.suit ≡ suit → TakesBy (reach cards) (other_side (side_of position.now.first))
        (after position.now card) need) }
{
    let before = position.led_by(seat);
    match position.strain() {
        Strain::Trump(trump) if trump == suit => after_a_trump(&before, suit, need),
        _ => after_a_side_suit(&before, suit, need),
    }
}

// The same by what is sure before the lead, where a side suit is led.
fn after_a_side_suit(before: &Position, suit: Suit, need: u8) -> Option<Hand>
    requires { before.now.trick ≡ [] }
    ensures { IfSome result (λ cards. TakesAfterLead cards before.now suit need) }
{
    let sure = leaders(before);
    let first = tricks_in(sure.cashed, suit);
    if need == 0 || first == 0 || sure.side == 0 {
        return None;
    }
    if need <= sure.side + sure.trumps {
        return Some(winners_of(before, suit, sure, need));
    }
    let most = beside_trumps(before, sure.side);
    if need > sure.side + sure.trumps + most {
        return None;
    }
    let partners = crossing(before, most);
    if need <= sure.side + sure.trumps + partners.tricks {
        Some(crossing_cards(before, sure, partners, need))
    } else {
        None
    }
}

// The same where a trump is led: the seat's trumps that no other hand can beat, and what is cashed in side suits while the
// partner has one card more to throw, to this trick. Joint trumps are not counted, since two of them may fall on it.
fn after_a_trump(before: &Position, suit: Suit, need: u8) -> Option<Hand>
    requires start { before.now.trick ≡ [] }
    requires trump { before.now.strain ≡ Trump suit }
    ensures { IfSome result (λ cards. TakesAfterLead cards before.now suit need) }
{
    let sure = leaders(before);
    let seat = before.first();
    let run = run(before, seat, suit).len();
    let tops = need.min(run);
    let side = need - tops;
    let spare = before
        .tricks_left()
        .saturating_sub(trumps(before, seat.partner()));
    if tops == 0 || side > sure.side || side >= spare {
        return None;
    }
    let shares = share_out(offers(sure.cashed), side);
    let cash = Cash {
        tricks: tops,
        depth: tops,
    };
    let cards = with_winners(before, Hand::new(), suit, cash, tops);
    Some(with_shares(before, cards, sure.cashed, shares))
}

// What is cashed in this suit.
#[inline]
fn tricks_in(cashed: Cashes, suit: Suit) -> u8
    ensures { result ≡ shares cashed.spades.tricks cashed.hearts.tricks cashed.diamonds.tricks
        cashed.clubs.tricks suit }
{
    match suit {
        Suit::Spades => cashed.spades.tricks,
        Suit::Hearts => cashed.hearts.tricks,
        Suit::Diamonds => cashed.diamonds.tricks,
        Suit::Clubs => cashed.clubs.tricks,
    }
}

// So many of these tricks, the first of them in this suit.
fn share_out_from(suit: Suit, cashed: Cashes, need: u8) -> Shares
    requires need { 1 ≤ need }
    requires some { 1 ≤ shares cashed.spades.tricks cashed.hearts.tricks cashed.diamonds.tricks
        cashed.clubs.tricks suit }
    ensures spades { result.spades ≤ cashed.spades.tricks }
    ensures hearts { result.hearts ≤ cashed.hearts.tricks }
    ensures diamonds { result.diamonds ≤ cashed.diamonds.tricks }
    ensures clubs { result.clubs ≤ cashed.clubs.tricks }
    ensures first { 1 ≤ shares result.spades result.hearts result.diamonds result.clubs suit }
    ensures sum { result.spades + result.hearts + result.diamonds + result.clubs
        ≡ min need (cashed.spades.tricks + cashed.hearts.tricks + cashed.diamonds.tricks
        + cashed.clubs.tricks) }
{
    let mut cashed = cashed;
    match suit {
        Suit::Spades => cashed.spades.tricks -= 1,
        Suit::Hearts => cashed.hearts.tricks -= 1,
        Suit::Diamonds => cashed.diamonds.tricks -= 1,
        Suit::Clubs => cashed.clubs.tricks -= 1,
    }
    let mut shares = share_out(offers(cashed), need - 1);
    match suit {
        Suit::Spades => shares.spades += 1,
        Suit::Hearts => shares.hearts += 1,
        Suit::Diamonds => shares.diamonds += 1,
        Suit::Clubs => shares.clubs += 1,
    }
    shares
}

// The winners on which so many tricks of the opponents' side rest, the first of them in the suit led.
fn winners_of(before: &Position, suit: Suit, sure: Sure, need: u8) -> Hand
    requires start { before.now.trick ≡ [] }
    requires spades { IsCash before.now Spades sure.cashed.spades.tricks sure.cashed.spades.depth }
    requires hearts { IsCash before.now Hearts sure.cashed.hearts.tricks sure.cashed.hearts.depth }
    requires diamonds { IsCash before.now Diamonds
        sure.cashed.diamonds.tricks sure.cashed.diamonds.depth }
    requires clubs { IsCash before.now Clubs sure.cashed.clubs.tricks sure.cashed.clubs.depth }
    requires side { sure.side ≡ side_tricks before.now }
    requires some { (1 ≤ need) × (1 ≤ sure.side) }
    requires first { 1 ≤ shares sure.cashed.spades.tricks sure.cashed.hearts.tricks
        sure.cashed.diamonds.tricks sure.cashed.clubs.tricks suit }
    requires few { need ≤ side_tricks before.now
        + joint_trumps before.now.strain before.now before.now.first }
    ensures { TakesAfterLead result before.now suit need }
{
    let cashed = sure.cashed;
    let side = need.min(sure.side);
    let shares = share_out_from(suit, cashed, side);
    let cards = with_shares(before, Hand::new(), cashed, shares);
    with_trumps(before, before.first(), cards, need - side)
}

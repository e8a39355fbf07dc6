//! Quick tricks of which it is told how many each side suit gives. These are made sure of, and nothing is counted of the other suits: a
//! caller that counts in a way of its own pays for what it claims alone.
ghost use Rattle.std.specs.Prelude.{◌≡◌, ◌≤◌, [], true, min, IfSome, IsSome};
ghost use Rattle.dd_cards.specs.PlayingCard.{PlayingCard};
ghost use Rattle.dd_cards.specs.Cards.{has_card};
ghost use Rattle.dd_cards.specs.Sides.{side_of, other_side};
ghost use Rattle.dd_play.specs.Board.{Board};
ghost use Rattle.dd_play.specs.Play.{after, legal};
ghost use Rattle.dd_play.specs.Reach.{reach, TakesBy};
ghost use Rattle.dd_quick.specs.QuickTricks.{CanShare, RestsOn, RestsOnNext, cashed, depth};
ghost use Rattle.dd_quick.specs.QuickTricks.{is_entry, partners_cashed};
ghost use Rattle.dd_quick.specs.SecondHand.{IsBeforeLead, Opposes};
ghost use Rattle.dd_quick.specs.Seen.{IsSeen};
ghost use Rattle.dd_quick.specs.Sharing.{shares};

use crate::crossing::{any, next};
use crate::joint_trumps::with_joint_trumps;
use crate::long_suit::cash_suit;
use crate::sharing::Shares;
use crate::winners::{Seen, own_run, partners_run, ranks_of, seen_by_leader, trumps, with_highest};
use dd_cards::{Hand, Seat, Suit};
use dd_play::{Position, TrickStart};

/// The winners on which it rests that the leader's side takes at least `need` tricks: so many of each side suit as are told, which the
/// leader cashes, and the rest by joint trumps. None where it doesn't take them so.
pub fn for_leader_by(start: &TrickStart, need: u8, told: Shares) -> Option<Hand>
    ensures found { CanShare start.now told.spades told.hearts told.diamonds told.clubs need
        → IsSome result }
    ensures claim { IfSome result
        (λ cards. TakesBy (reach cards) (side_of start.now.first) start.now need) }
{
    let position = start.position();
    told_cards(position, need, told)
}

/// What `for_second_hand` answers, where so many tricks of each side suit are told that the opponent would cash with the lead, some of the
/// suit that is led, and the rest are joint trumps. None where it doesn't take them so.
pub fn for_second_hand_by(
    position: &Position,
    seat: Seat,
    suit: Suit,
    need: u8,
    told: Shares,
) -> Option<Hand>
    requires start { position.now.trick ≡ [] }
    requires opposes { Opposes position.now seat }
    ensures { IfSome result (λ cards. (card : PlayingCard) → has_card (legal position.now) card ≡ true
        → card.suit ≡ suit → TakesBy (reach cards) (other_side (side_of position.now.first))
        (after position.now card) need) }
{
    let before = position.led_by(seat);
    if share_of(told, suit) == 0 {
        return None;
    }
    let cards = told_cards(&before, need, told)?;
    Some(cards)
}

/// The same as `for_leader_by` where the leader crosses to its partner: it is told how many tricks of each side suit the leader cashes, and
/// how many of its partner's are taken then. Of a suit in which there are some the leader cashes all that it can.
pub fn for_leader_across(start: &TrickStart, need: u8, told: Shares, next: Shares) -> Option<Hand>
    ensures { IfSome result
        (λ cards. TakesBy (reach cards) (side_of start.now.first) start.now need) }
{
    let position = start.position();
    told_across(position, need, told, next)
}

/// The same as `for_second_hand_by` where the opponent crosses to its partner.
pub fn for_second_hand_across(
    position: &Position,
    seat: Seat,
    suit: Suit,
    need: u8,
    told: Shares,
    next: Shares,
) -> Option<Hand>
    requires start { position.now.trick ≡ [] }
    requires opposes { Opposes position.now seat }
    ensures { IfSome result (λ cards. (card : PlayingCard) → has_card (legal position.now) card ≡ true
        → card.suit ≡ suit → TakesBy (reach cards) (other_side (side_of position.now.first))
        (after position.now card) need) }
{
    let before = position.led_by(seat);
    if share_of(told, suit) == 0 {
        return None;
    }
    let cards = told_across(&before, need, told, next)?;
    Some(cards)
}

// How many tricks of the suit are told.
#[inline(always)]
fn share_of(told: Shares, suit: Suit) -> u8
    ensures { result ≡ shares told.spades told.hearts told.diamonds told.clubs suit }
{
    match suit {
        Suit::Spades => told.spades,
        Suit::Hearts => told.hearts,
        Suit::Diamonds => told.diamonds,
        Suit::Clubs => told.clubs,
    }
}

// The winners on which it rests that the leader's side takes so many tricks. The same holds after another hand's lead that it wins.
#[inline(always)]
fn told_cards(position: &Position, need: u8, told: Shares) -> Option<Hand>
    requires start { position.now.trick ≡ [] }
    ensures found { CanShare position.now told.spades told.hearts told.diamonds told.clubs need
        → IsSome result }
    ensures leads { IfSome result
        (λ cards. TakesBy (reach cards) (side_of position.now.first) position.now need) }
    ensures after_a_lead { IfSome result
        (λ cards. (p : Board) (led : PlayingCard) → IsBeforeLead p led position.now
        → 1 ≤ shares told.spades told.hearts told.diamonds told.clubs led.suit
        → TakesBy (reach cards) (side_of position.now.first) p need) }
{
    let leader = position.first();
    let seen = seen_by_leader(position);
    let none = Hand::new();
    let spades = with_share(position, &seen, none, Suit::Spades, told.spades)?;
    let hearts = with_share(position, &seen, spades, Suit::Hearts, told.hearts)?;
    let diamonds = with_share(position, &seen, hearts, Suit::Diamonds, told.diamonds)?;
    let clubs = with_share(position, &seen, diamonds, Suit::Clubs, told.clubs)?;
    let side = told.spades + told.hearts + told.diamonds + told.clubs;
    if need < side {
        return None;
    }
    let thrown = trumps(position, leader.partner()) + side;
    if position.tricks_left() < thrown {
        return None;
    }
    let cards = with_joint_trumps(position, leader, clubs, need - side)?;
    Some(cards)
}

// These cards and the winners on which so many tricks of the suit rest, where the leader cashes so many.
#[inline(always)]
fn with_share(position: &Position, seen: &Seen, cards: Hand, suit: Suit, tricks: u8) -> Option<Hand>
    requires { IsSeen position.now seen.now.own seen.now.left seen.now.partner seen.now.right
        seen.now.left_trumps seen.now.right_trumps }
    ensures found { tricks ≤ cashed position.now.strain position.now suit → IsSome result }
    ensures few { IfSome result (λ h. tricks ≤ cashed position.now.strain position.now suit) }
    ensures bound { IfSome result (λ h. tricks ≤ 13) }
    ensures more { IfSome result (λ h. (c : PlayingCard) → has_card cards c ≡ true
        → has_card h c ≡ true) }
    ensures rests { IfSome result
        (λ h. RestsOn position.now suit h (min tricks (depth position.now suit))) }
{
    if tricks == 0 {
        return Some(cards);
    }
    with_some_share(position, seen, cards, suit, tricks)
}

// The same of one trick or more.
fn with_some_share(
    position: &Position,
    seen: &Seen,
    cards: Hand,
    suit: Suit,
    tricks: u8,
) -> Option<Hand>
    requires seen { IsSeen position.now seen.now.own seen.now.left seen.now.partner seen.now.right
        seen.now.left_trumps seen.now.right_trumps }
    requires some { 1 ≤ tricks }
    ensures found { tricks ≤ cashed position.now.strain position.now suit → IsSome result }
    ensures few { IfSome result (λ h. tricks ≤ cashed position.now.strain position.now suit) }
    ensures bound { IfSome result (λ h. tricks ≤ 13) }
    ensures more { IfSome result (λ h. (c : PlayingCard) → has_card cards c ≡ true
        → has_card h c ≡ true) }
    ensures rests { IfSome result
        (λ h. RestsOn position.now suit h (min tricks (depth position.now suit))) }
{
    let cash = cash_suit(position, seen, suit);
    if cash.tricks < tricks {
        return None;
    }
    let ranks = ranks_of(seen, suit);
    let count = tricks.min(cash.depth);
    Some(with_highest(cards, suit, own_run(&ranks), count))
}

// These cards with a partner's in one suit, and whether the leader can cross there to one of these tricks.
#[derive(Clone, Copy)]
struct NextCards {
    cards: Hand,
    entry: bool,
}

// The winners on which it rests that the leader's side takes so many tricks where the leader crosses. The same holds after another hand's
// lead that it wins.
fn told_across(position: &Position, need: u8, told: Shares, next: Shares) -> Option<Hand>
    requires start { position.now.trick ≡ [] }
    ensures leads { IfSome result
        (λ cards. TakesBy (reach cards) (side_of position.now.first) position.now need) }
    ensures after_a_lead { IfSome result
        (λ cards. (p : Board) (led : PlayingCard) → IsBeforeLead p led position.now
        → 1 ≤ shares told.spades told.hearts told.diamonds told.clubs led.suit
        → TakesBy (reach cards) (side_of position.now.first) p need) }
{
    let leader = position.first();
    let seen = seen_by_leader(position);
    let none = Hand::new();
    let spades = with_share(position, &seen, none, Suit::Spades, told.spades)?;
    let hearts = with_share(position, &seen, spades, Suit::Hearts, told.hearts)?;
    let diamonds = with_share(position, &seen, hearts, Suit::Diamonds, told.diamonds)?;
    let clubs = with_share(position, &seen, diamonds, Suit::Clubs, told.clubs)?;
    let a = with_next(position, &seen, clubs, Suit::Spades, told, next)?;
    let b = with_next(position, &seen, a.cards, Suit::Hearts, told, next)?;
    let d = with_next(position, &seen, b.cards, Suit::Diamonds, told, next)?;
    let e = with_next(position, &seen, d.cards, Suit::Clubs, told, next)?;
    if !any(a.entry, b.entry, d.entry, e.entry) {
        return None;
    }
    let own = told.spades + told.hearts + told.diamonds + told.clubs;
    let side = own + (next.spades + next.hearts + next.diamonds + next.clubs);
    if need < side {
        return None;
    }
    let kept = trumps(position, leader).max(trumps(position, leader.partner()));
    if position.tricks_left() < side + kept {
        return None;
    }
    let cards = with_joint_trumps(position, leader, e.cards, need - side)?;
    Some(cards)
}

// These cards and the partner's on which so many of its tricks in the suit rest, where it cashes so many once the leader has crossed. The
// leader cashes first all that it can there, which is told.
#[inline(always)]
fn with_next(
    position: &Position,
    seen: &Seen,
    cards: Hand,
    suit: Suit,
    told: Shares,
    next: Shares,
) -> Option<NextCards>
    requires { IsSeen position.now seen.now.own seen.now.left seen.now.partner seen.now.right
        seen.now.left_trumps seen.now.right_trumps }
    ensures few { IfSome result
        (λ h. shares next.spades next.hearts next.diamonds next.clubs suit
        ≤ partners_cashed position.now.strain position.now suit) }
    ensures all { IfSome result
        (λ h. 1 ≤ shares next.spades next.hearts next.diamonds next.clubs suit
        → shares told.spades told.hearts told.diamonds told.clubs suit
        ≡ cashed position.now.strain position.now suit) }
    ensures bound { IfSome result
        (λ h. shares next.spades next.hearts next.diamonds next.clubs suit ≤ 13) }
    ensures more { IfSome result (λ h. (c : PlayingCard) → has_card cards c ≡ true
        → has_card h.cards c ≡ true) }
    ensures rests { IfSome result
        (λ h. RestsOnNext position.now suit h.cards
        (shares next.spades next.hearts next.diamonds next.clubs suit)) }
    ensures entry { IfSome result (λ h. h.entry ≡ true → (is_entry position.now suit ≡ true)
        × (1 ≤ shares next.spades next.hearts next.diamonds next.clubs suit)) }
{
    let all = share_of(told, suit);
    let tricks = share_of(next, suit);
    if tricks == 0 {
        return Some(NextCards {
            cards,
            entry: false,
        });
    }
    with_some_next(position, seen, cards, suit, all, tricks)
}

// The same of one trick or more.
fn with_some_next(
    position: &Position,
    seen: &Seen,
    cards: Hand,
    suit: Suit,
    told: u8,
    tricks: u8,
) -> Option<NextCards>
    requires seen { IsSeen position.now seen.now.own seen.now.left seen.now.partner seen.now.right
        seen.now.left_trumps seen.now.right_trumps }
    requires some { 1 ≤ tricks }
    ensures few { IfSome result
        (λ h. tricks ≤ partners_cashed position.now.strain position.now suit) }
    ensures all { IfSome result
        (λ h. 1 ≤ tricks → told ≡ cashed position.now.strain position.now suit) }
    ensures bound { IfSome result (λ h. tricks ≤ 13) }
    ensures more { IfSome result (λ h. (c : PlayingCard) → has_card cards c ≡ true
        → has_card h.cards c ≡ true) }
    ensures rests { IfSome result (λ h. RestsOnNext position.now suit h.cards tricks) }
    ensures entry { IfSome result (λ h. h.entry ≡ true
        → (is_entry position.now suit ≡ true) × (1 ≤ tricks)) }
{
    let cash = cash_suit(position, seen, suit);
    if told != cash.tricks {
        return None;
    }
    let offer = next(position, seen, suit);
    if offer.tricks < tricks {
        return None;
    }
    let ranks = ranks_of(seen, suit);
    let cards = with_highest(cards, suit, partners_run(&ranks), tricks);
    Some(NextCards {
        cards,
        entry: offer.first,
    })
}

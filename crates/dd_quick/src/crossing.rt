//! Crossing to the partner. The leader cashes its suits, then leads a low card to a winner of its partner's, and the partner
//! cashes what it holds next below the leader's runs. It can keep so many winners: to each lead of a suit it follows with
//! another card of the suit, since of its cards there no more are counted than the leader's run leaves it, and it has enough
//! others to throw, since no more tricks are counted than are left. Without that first condition a winner of the partner's
//! would be counted that falls under the leader's own. Where these winners, with the leader's run, are as many as the leader
//! and each opponent has cards of the suit, nobody else has one after them: then the partner's low cards of this long suit take
//! tricks too. Where hands have trumps, an opponent that has some must not ruff: of a suit it has a card for each lead of both
//! hands. The leader and its partner keep theirs, each with a card that is no trump for each of these tricks, so that their
//! joint trumps take their tricks besides.
ghost use Rattle.std.specs.Prelude.{◌≡◌, ◌≤◌, ◌+◌, ◌==◌, ◌&&◌, ◌||◌, [], true, min, nat_le, nat_lt, if◌then◌else◌};
ghost use mathlib.Core.Bool.{not};
ghost use Rattle.dd_cards.specs.declared.suit.Suit.{Suit as SuitOf};
ghost use Rattle.dd_cards.specs.declared.suit.Suit.TheVariants.{Spades, Hearts, Diamonds, Clubs};
ghost use Rattle.dd_cards.specs.PlayingCard.{PlayingCard};
ghost use Rattle.dd_cards.specs.Cards.{has_card};
ghost use Rattle.dd_play.specs.Board.{Board};
ghost use Rattle.dd_quick.specs.QuickTricks.{IsNext, RestsOnNext, beside_trumps, crossed, has_entry, is_entry};
ghost use Rattle.dd_quick.specs.QuickTricks.{no_trumps, partners_cashed, partners_tricks, run, side_tricks};
ghost use Rattle.dd_quick.specs.Seen.{IsSeen, AreRanks};

use crate::long_suit::unruffed;
use crate::sharing::{Offer, Offers, Shares};
use crate::winners::{
    Ranks, Seen, next_run, own_run, partners_run, ranks_of, seen_by_leader, trumps, with_highest,
};
use dd_cards::{Hand, Strain, Suit};
use dd_play::Position;

/// What the partner takes in each suit once the leader has crossed, those first in which the leader can cross, and how many
/// tricks, 0 to 13, that adds in all: none where it can't.
#[derive(Clone, Copy)]
pub(crate) struct Partners {
    pub(crate) next: Offers,
    pub(crate) tricks: u8,
}

const NONE: Offer = Offer {
    tricks: 0,
    first: false,
};

const NO_PARTNERS: Partners = Partners {
    next: Offers {
        spades: NONE,
        hearts: NONE,
        diamonds: NONE,
        clubs: NONE,
    },
    tricks: 0,
};

/// What crossing to the partner adds to what the leader cashes, with so many tricks left beside that and the trumps that are
/// kept.
pub(crate) fn crossing(position: &Position, most: u8) -> Partners
    requires most { most ≡ beside_trumps position.now }
    requires bound { most ≤ 13 }
    ensures tricks { result.tricks ≡ crossed position.now }
    ensures spades { 1 ≤ result.tricks
        → IsNext position.now Spades result.next.spades.tricks result.next.spades.first }
    ensures hearts { 1 ≤ result.tricks
        → IsNext position.now Hearts result.next.hearts.tricks result.next.hearts.first }
    ensures diamonds { 1 ≤ result.tricks
        → IsNext position.now Diamonds result.next.diamonds.tricks result.next.diamonds.first }
    ensures clubs { 1 ≤ result.tricks
        → IsNext position.now Clubs result.next.clubs.tricks result.next.clubs.first }
    ensures bound { result.tricks ≤ 13 }
{
    if most == 0 {
        return NO_PARTNERS;
    }
    let seen = seen_by_leader(position);
    let spades = next(position, &seen, Suit::Spades);
    let hearts = next(position, &seen, Suit::Hearts);
    let diamonds = next(position, &seen, Suit::Diamonds);
    let clubs = next(position, &seen, Suit::Clubs);
    let all = spades.tricks + hearts.tricks + diamonds.tricks + clubs.tricks;
    let can = any(spades.first, hearts.first, diamonds.first, clubs.first);
    Partners {
        next: Offers {
            spades,
            hearts,
            diamonds,
            clubs,
        },
        tricks: if can { all.min(most) } else { 0 },
    }
}

/// The tricks left beside these that the leader cashes, where it and its partner keep their trumps.
pub(crate) fn beside_trumps(position: &Position, side: u8) -> u8
    requires side { side ≡ side_tricks position.now }
    requires bound { side ≤ 13 }
    ensures tricks { result ≡ beside_trumps position.now }
    ensures bound { result ≤ 13 }
{
    let leader = position.first();
    let partner = leader.partner();
    let kept = trumps(position, leader).max(trumps(position, partner));
    position.tricks_left().saturating_sub(side + kept)
}

/// Has a hand a trump?
pub(crate) fn has_trumps(position: &Position) -> bool
    ensures { result ≡ not (no_trumps position.now) }
{
    let leader = position.first();
    let none = trumps(position, leader) == 0 && trumps(position, leader.left()) == 0;
    let nor = trumps(position, leader.partner()) == 0 && trumps(position, leader.right()) == 0;
    !(none && nor)
}

/// Is one of the four true?
#[inline]
pub(crate) fn any(a: bool, b: bool, c: bool, d: bool) -> bool
    ensures { result ≡ ((a || b) || (c || d)) }
{
    (a | b) | (c | d)
}

/// What the partner takes in the suit, and whether the leader can cross there.
#[inline(always)]
pub(crate) fn next(position: &Position, seen: &Seen, suit: Suit) -> Offer
    requires { IsSeen position.now seen.now.own seen.now.left seen.now.partner seen.now.right
        seen.now.left_trumps seen.now.right_trumps }
    ensures next { IsNext position.now suit result.tricks result.first }
    ensures bound { result.tricks ≤ 13 }
{
    let ranks = ranks_of(seen, suit);
    let leads = own_run(&ranks).len();
    let tricks = partners_cashed(position, seen, suit, &ranks, leads);
    let own = ranks.own.len();
    let low = leads < own;
    Offer {
        tricks,
        first: tricks > 0 && low,
    }
}

// What the partner takes in the suit after so many leads of the leader's, where nobody ruffs: in trumps none.
#[inline(always)]
fn partners_cashed(position: &Position, seen: &Seen, suit: Suit, ranks: &Ranks, leads: u8) -> u8
    requires seen { IsSeen position.now seen.now.own seen.now.left seen.now.partner seen.now.right
        seen.now.left_trumps seen.now.right_trumps }
    requires ranks { AreRanks position.now position.now.first suit
        ranks.now.own ranks.now.left ranks.now.partner ranks.now.right }
    requires leads { leads ≡ run position.now position.now.first suit }
    requires few { leads ≤ 13 }
    ensures tricks { result ≡ partners_cashed position.now.strain position.now suit }
    ensures bound { result ≤ 13 }
{
    match position.strain() {
        Strain::Notrump => partners_tricks(ranks, leads),
        Strain::Trump(trump) if trump == suit => 0,
        Strain::Trump(_) => {
            let all = leads + partners_tricks(ranks, leads);
            let followed = unruffed(seen.right_trumps, ranks.right.len(), all);
            unruffed(seen.left_trumps, ranks.left.len(), followed).saturating_sub(leads)
        }
    }
}

// What the partner takes in the suit of these ranks after so many leads of the leader's.
#[inline(always)]
fn partners_tricks(ranks: &Ranks, leads: u8) -> u8
    requires { leads ≤ 13 }
    ensures tricks { (p : Board) (suit : SuitOf)
        → AreRanks p p.first suit ranks.now.own ranks.now.left ranks.now.partner ranks.now.right
        → leads ≡ run p p.first suit → result ≡ partners_tricks p suit }
    ensures bound { result ≤ 13 }
{
    let spare = ranks.partner.len().saturating_sub(leads);
    let next = partners_run(ranks).len();
    let own = ranks.own.len();
    let longest = own.max(ranks.left.len().max(ranks.right.len()));
    taken(longest, leads, next, spare)
}

// Of its spare cards the partner takes a trick with each in a long suit, else with those next below the leader's run.
#[inline]
fn taken(longest: u8, run: u8, next: u8, spare: u8) -> u8
    requires { (run ≤ 13) × (next ≤ 13) }
    ensures { result ≡ (if nat_le longest (run + next) then spare else min next spare) }
{
    let short = next.min(spare);
    if longest <= run + next { spare } else { short }
}

/// These cards and the partner's on which so many tricks of each suit rest.
pub(crate) fn with_partners(position: &Position, cards: Hand, shares: Shares) -> Hand
    ensures more { (c : PlayingCard) → has_card cards c ≡ true → has_card result c ≡ true }
    ensures spades { RestsOnNext position.now Spades result shares.spades }
    ensures hearts { RestsOnNext position.now Hearts result shares.hearts }
    ensures diamonds { RestsOnNext position.now Diamonds result shares.diamonds }
    ensures clubs { RestsOnNext position.now Clubs result shares.clubs }
{
    let cards = with_next(position, cards, Suit::Spades, shares.spades);
    let cards = with_next(position, cards, Suit::Hearts, shares.hearts);
    let cards = with_next(position, cards, Suit::Diamonds, shares.diamonds);
    with_next(position, cards, Suit::Clubs, shares.clubs)
}

// These cards and the partner's on which so many tricks of the suit rest.
fn with_next(position: &Position, cards: Hand, suit: Suit, tricks: u8) -> Hand
    ensures more { (c : PlayingCard) → has_card cards c ≡ true → has_card result c ≡ true }
    ensures next { RestsOnNext position.now suit result tricks }
{
    // Of most suits there is none: their ranks need not be found.
    if tricks == 0 {
        return cards;
    }
    with_highest(cards, suit, next_run(position, suit), tricks)
}

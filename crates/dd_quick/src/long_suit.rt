//! Side suits. The leader cashes the cards that no other hand can beat. Where they are as many as any other hand has cards
//! of the suit, nobody has one after them: then the leader's low cards of this long suit take tricks too, and all rest on
//! no more than these winners. An opponent that has trumps must not ruff, so it has to follow suit to all; the partner has
//! to have a card that is no trump for each lead. Cards of long suits are counted first, since fewer cards settle more.
ghost use Rattle.std.specs.Prelude.{◌≡◌, ◌≤◌, ◌==◌, [], true, min, if◌then◌else◌};
ghost use Rattle.dd_cards.specs.declared.suit.Suit.{Suit as SuitOf};
ghost use Rattle.dd_cards.specs.declared.suit.Suit.TheVariants.{Spades, Hearts, Diamonds, Clubs};
ghost use Rattle.dd_cards.specs.PlayingCard.{PlayingCard};
ghost use Rattle.dd_cards.specs.Cards.{has_card};
ghost use Rattle.dd_play.specs.Board.{Board};
ghost use Rattle.dd_quick.specs.QuickTricks.{IsCash, RestsOn, depth, suit_tricks};
ghost use Rattle.dd_quick.specs.Seen.{IsSeen, AreRanks};

use crate::sharing::{Offer, Offers, Shares};
use crate::winners::{Ranks, Seen, own_run, ranks_of, run, seen_by_leader, with_highest};
use dd_cards::{Hand, Strain, Suit};
use dd_play::Position;

/// The tricks, 0 to 13, that the leader cashes in a suit, and the number of the suit's highest cards on which they rest.
#[derive(Clone, Copy)]
pub(crate) struct Cash {
    pub(crate) tricks: u8,
    pub(crate) depth: u8,
}

/// What the leader cashes in each suit.
#[derive(Clone, Copy)]
pub(crate) struct Cashes {
    pub(crate) spades: Cash,
    pub(crate) hearts: Cash,
    pub(crate) diamonds: Cash,
    pub(crate) clubs: Cash,
}

/// What the leader cashes in each suit.
#[inline(always)]
pub(crate) fn cashed(position: &Position) -> Cashes
    requires { position.now.trick ≡ [] }
    ensures spades { IsCash position.now Spades result.spades.tricks result.spades.depth }
    ensures hearts { IsCash position.now Hearts result.hearts.tricks result.hearts.depth }
    ensures diamonds { IsCash position.now Diamonds result.diamonds.tricks result.diamonds.depth }
    ensures clubs { IsCash position.now Clubs result.clubs.tricks result.clubs.depth }
    ensures bound { (result.spades.tricks ≤ 13) × (result.hearts.tricks ≤ 13)
        × (result.diamonds.tricks ≤ 13) × (result.clubs.tricks ≤ 13) }
{
    let seen = seen_by_leader(position);
    Cashes {
        spades: cash_suit(position, &seen, Suit::Spades),
        hearts: cash_suit(position, &seen, Suit::Hearts),
        diamonds: cash_suit(position, &seen, Suit::Diamonds),
        clubs: cash_suit(position, &seen, Suit::Clubs),
    }
}

/// What the leader cashes in this suit: in trumps none.
#[inline(always)]
pub(crate) fn cash_suit(position: &Position, seen: &Seen, suit: Suit) -> Cash
    requires { IsSeen position.now seen.now.own seen.now.left seen.now.partner seen.now.right
        seen.now.left_trumps seen.now.right_trumps }
    ensures cash { IsCash position.now suit result.tricks result.depth }
    ensures bound { result.tricks ≤ 13 }
{
    let ranks = ranks_of(seen, suit);
    match position.strain() {
        Strain::Notrump => led_out(&ranks),
        Strain::Trump(trump) if trump == suit => Cash {
            tricks: 0,
            depth: 0,
        },
        Strain::Trump(_) => {
            let cash = led_out(&ranks);
            let leads = unruffed(seen.right_trumps, ranks.right.len(), cash.tricks);
            Cash {
                tricks: unruffed(seen.left_trumps, ranks.left.len(), leads),
                depth: cash.depth,
            }
        }
    }
}

// The tricks that the leader takes where it leads the suit of these ranks from the top and no hand ruffs.
#[inline(always)]
fn led_out(ranks: &Ranks) -> Cash
    ensures tricks { (p : Board) (suit : SuitOf)
        → AreRanks p p.first suit ranks.now.own ranks.now.left ranks.now.partner ranks.now.right
        → result.tricks ≡ suit_tricks p suit }
    ensures depth { (p : Board) (suit : SuitOf)
        → AreRanks p p.first suit ranks.now.own ranks.now.left ranks.now.partner ranks.now.right
        → result.depth ≡ depth p suit }
    ensures bound { result.tricks ≤ 13 }
{
    let run = own_run(ranks).len();
    // Most suits are headed by another hand.
    if run == 0 {
        return Cash {
            tricks: 0,
            depth: 0,
        };
    }
    let longest = ranks
        .left
        .len()
        .max(ranks.partner.len().max(ranks.right.len()));
    let own = ranks.own.len();
    let tricks = if longest <= run { own } else { run };
    Cash {
        tricks,
        depth: longest.min(run),
    }
}

/// Of so many leads of a suit, those that a seat with so many trumps and cards of the suit can't ruff.
// A choice of two numbers: a jump would seldom be foreseen.
#[inline(always)]
pub(crate) fn unruffed(trumps: u8, follows: u8, leads: u8) -> u8
    ensures leads { result ≡ (if trumps == 0 then leads else min leads follows) }
    ensures less { result ≤ leads }
{
    let most = if trumps == 0 { u8::MAX } else { follows };
    leads.min(most)
}

/// The tricks of each suit, those of long suits first.
pub(crate) fn offers(cashed: Cashes) -> Offers
    ensures spades { result.spades.tricks ≡ cashed.spades.tricks }
    ensures hearts { result.hearts.tricks ≡ cashed.hearts.tricks }
    ensures diamonds { result.diamonds.tricks ≡ cashed.diamonds.tricks }
    ensures clubs { result.clubs.tricks ≡ cashed.clubs.tricks }
{
    Offers {
        spades: offer(cashed.spades),
        hearts: offer(cashed.hearts),
        diamonds: offer(cashed.diamonds),
        clubs: offer(cashed.clubs),
    }
}

// The tricks of this suit.
#[inline]
fn offer(cash: Cash) -> Offer
    ensures { result.tricks ≡ cash.tricks }
{
    Offer {
        tricks: cash.tricks,
        first: cash.depth < cash.tricks,
    }
}

/// These cards and the winners on which so many tricks of each suit rest.
pub(crate) fn with_shares(position: &Position, cards: Hand, cashed: Cashes, shares: Shares) -> Hand
    ensures more { (c : PlayingCard) → has_card cards c ≡ true → has_card result c ≡ true }
    ensures spades { RestsOn position.now Spades result
        (min shares.spades cashed.spades.depth) }
    ensures hearts { RestsOn position.now Hearts result
        (min shares.hearts cashed.hearts.depth) }
    ensures diamonds { RestsOn position.now Diamonds result
        (min shares.diamonds cashed.diamonds.depth) }
    ensures clubs { RestsOn position.now Clubs result
        (min shares.clubs cashed.clubs.depth) }
{
    let cards = with_winners(position, cards, Suit::Spades, cashed.spades, shares.spades);
    let cards = with_winners(position, cards, Suit::Hearts, cashed.hearts, shares.hearts);
    let cards = with_winners(
        position,
        cards,
        Suit::Diamonds,
        cashed.diamonds,
        shares.diamonds,
    );
    with_winners(position, cards, Suit::Clubs, cashed.clubs, shares.clubs)
}

/// These cards and the winners on which so many tricks of the suit rest.
pub(crate) fn with_winners(
    position: &Position,
    cards: Hand,
    suit: Suit,
    cash: Cash,
    tricks: u8,
) -> Hand
    ensures more { (c : PlayingCard) → has_card cards c ≡ true → has_card result c ≡ true }
    ensures winners { RestsOn position.now suit result (min tricks cash.depth) }
{
    let count = tricks.min(cash.depth);
    // Of most suits there is none: their ranks need not be found.
    if count == 0 {
        return cards;
    }
    with_highest(cards, suit, run(position, position.first(), suit), count)
}

//! One later trick. Where no hand has a trump the leader's side can take all tricks only if it leads to each of them. Of a suit the
//! highest cards left without a gap may be its: the tops, none or more. If one of its hands has more cards than these, the next card is an
//! opponent's honour. The opponent guards the suit if it has another card for each top, and if the hand behind it, the next to play, has
//! no top or nothing but tops.
//!
//! - A lead of a guarded suit takes a top, or the honour wins. The opponent plays another card where a top has been played, and where the
//!   hand behind it is still to play and has to play one. Else it plays the honour: no top was played, and none comes behind it. With a
//!   top gone it has one card fewer, and so still another for each top. So the suit has no more rounds than tops.
//! - A suit that nobody guards has no more rounds than the longer of the two holdings has cards.
//! - So if all rounds are fewer than the tricks left, a guarded honour wins in the end, if its owner hasn't had to throw a card that guards
//!   it. To a suit that it lacks it throws another card. What it keeps is for each suit that it guards a card and one for each top: no more
//!   than the rounds of these suits and one each. The suit led has a round besides. So it has another card where all rounds, and one for
//!   each suit that it guards, are no more than the tricks left, which is as many cards as it has.
//!
//! An opponent with more such cards than it can keep would have to choose, and nothing is counted.
ghost use Rattle.std.specs.Prelude.{◌≡◌, ◌≤◌, ◌+◌, ◌&&◌, ◌||◌, ◌==◌, [], true, nat_lt, IfSome, IsSome, if◌then◌else◌};
ghost use Rattle.dd_cards.specs.declared.suit.Suit.TheVariants.{Spades, Hearts, Diamonds, Clubs};
ghost use Rattle.dd_cards.specs.PlayingCard.{PlayingCard};
ghost use Rattle.dd_cards.specs.Cards.{has_card};
ghost use Rattle.dd_cards.specs.Sides.{side_of, other_side};
ghost use Rattle.dd_play.specs.Reach.{reach, TakesBy};
ghost use Rattle.dd_quick.specs.QuickTricks.{IsLed, RestsOnGuard, guards, has_later_trick, rounds};

use crate::crossing::has_trumps;
use crate::winners::{
    Ranks, left_ahead, length, own_unbeaten, partners_unbeaten, ranks_at, right_ahead, with_highest,
};
use dd_cards::{Hand, Suit};
use dd_play::Position;

// Of a suit: how often the leader's side can lead it before the honour wins, or if nobody guards it, and whether the left or
// the right opponent guards it.
#[derive(Clone, Copy)]
struct Led {
    rounds: u8,
    left: u8,
    right: u8,
}

// What is counted of each suit.
#[derive(Clone, Copy)]
struct AllLed {
    spades: Led,
    hearts: Led,
    diamonds: Led,
    clubs: Led,
}

/// Does the other side take at least one trick, since the leader's side has to lead to an honour that an opponent guards?
pub(crate) fn later_trick(position: &Position) -> bool
    ensures { result ≡ has_later_trick position.now }
{
    is_later(position, all_led(position))
}

/// The cards that opponents guard, on which it rests that their side takes that trick, where it does.
pub(crate) fn later_winners(position: &Position) -> Option<Hand>
    requires { position.now.trick ≡ [] }
    ensures found { has_later_trick position.now ≡ true → IsSome result }
    ensures claim { IfSome result
        (λ cards. TakesBy (reach cards) (other_side (side_of position.now.first)) position.now 1) }
{
    let led = all_led(position);
    if is_later(position, led) {
        Some(cards_of(position, led))
    } else {
        None
    }
}

// The same of what is counted of the suits.
#[tactic(auto, unfolding(crate::specs::QuickTricks::has_later_trick))]
fn is_later(position: &Position, led: AllLed) -> bool
    requires spades { IsLed position.now Spades led.spades.rounds led.spades.left led.spades.right }
    requires hearts { IsLed position.now Hearts led.hearts.rounds led.hearts.left led.hearts.right }
    requires diamonds { IsLed position.now Diamonds
        led.diamonds.rounds led.diamonds.left led.diamonds.right }
    requires clubs { IsLed position.now Clubs led.clubs.rounds led.clubs.left led.clubs.right }
    requires rounds { (led.spades.rounds ≤ 26) × (led.hearts.rounds ≤ 26)
        × (led.diamonds.rounds ≤ 26) × (led.clubs.rounds ≤ 26) }
    requires left { (led.spades.left ≤ 1) × (led.hearts.left ≤ 1)
        × (led.diamonds.left ≤ 1) × (led.clubs.left ≤ 1) }
    requires right { (led.spades.right ≤ 1) × (led.hearts.right ≤ 1)
        × (led.diamonds.right ≤ 1) × (led.clubs.right ≤ 1) }
    ensures { result ≡ has_later_trick position.now }
{
    if has_trumps(position) {
        return false;
    }
    let rounds = led.spades.rounds + led.hearts.rounds + led.diamonds.rounds + led.clubs.rounds;
    let left = led.spades.left + led.hearts.left + led.diamonds.left + led.clubs.left;
    let right = led.spades.right + led.hearts.right + led.diamonds.right + led.clubs.right;
    let tricks = position.tricks_left();
    rounds < tricks && (rounds + left <= tricks && rounds + right <= tricks)
}

// What is counted of each suit.
fn all_led(position: &Position) -> AllLed
    ensures spades { IsLed position.now Spades
        result.spades.rounds result.spades.left result.spades.right }
    ensures hearts { IsLed position.now Hearts
        result.hearts.rounds result.hearts.left result.hearts.right }
    ensures diamonds { IsLed position.now Diamonds
        result.diamonds.rounds result.diamonds.left result.diamonds.right }
    ensures clubs { IsLed position.now Clubs
        result.clubs.rounds result.clubs.left result.clubs.right }
    ensures rounds { (result.spades.rounds ≤ 26) × (result.hearts.rounds ≤ 26)
        × (result.diamonds.rounds ≤ 26) × (result.clubs.rounds ≤ 26) }
    ensures left { (result.spades.left ≤ 1) × (result.hearts.left ≤ 1)
        × (result.diamonds.left ≤ 1) × (result.clubs.left ≤ 1) }
    ensures right { (result.spades.right ≤ 1) × (result.hearts.right ≤ 1)
        × (result.diamonds.right ≤ 1) × (result.clubs.right ≤ 1) }
{
    AllLed {
        spades: by_suit(position, Suit::Spades),
        hearts: by_suit(position, Suit::Hearts),
        diamonds: by_suit(position, Suit::Diamonds),
        clubs: by_suit(position, Suit::Clubs),
    }
}

// What is counted of a suit.
fn by_suit(position: &Position, suit: Suit) -> Led
    ensures rounds { result.rounds ≡ rounds position.now suit }
    ensures left { result.left ≡ (if guards position.now 1 suit then 1 else 0) }
    ensures right { result.right ≡ (if guards position.now 3 suit then 1 else 0) }
    ensures bound { (result.rounds ≤ 26) × (result.left ≤ 1) × (result.right ≤ 1) }
{
    let ranks = ranks_at(position, position.first(), suit);
    let own = own_unbeaten(&ranks).len();
    let partners = partners_unbeaten(&ranks).len();
    let tops = own + partners;
    let longer = ranks.own.len().max(ranks.partner.len());
    let left_ahead = left_ahead(&ranks).len();
    let right_ahead = right_ahead(&ranks).len();
    let left = ranks.left.len();
    let right = ranks.right.len();
    let partner = ranks.partner.len();
    let by_left = is_guard(left_ahead, left, tops, longer, partners, partner);
    let by_right = is_guard(right_ahead, right, tops, longer, own, ranks.own.len());
    Led {
        rounds: rounds_of(by_left, by_right, tops, longer),
        left: one_if(by_left),
        right: one_if(by_right),
    }
}

// Does a hand with so many cards that its partner can't beat, and so many in all, guard a suit? The hand behind it has so many
// of the highest cards of the leader's side, and so many in all.
#[inline]
fn is_guard(ahead: u8, all: u8, tops: u8, longer: u8, behind_tops: u8, behind: u8) -> bool
    ensures { result ≡ (((nat_lt 0 ahead && nat_lt tops longer) && nat_lt tops all)
        && ((behind_tops == 0) || (behind_tops == behind))) }
{
    ((0 < ahead && tops < longer) && tops < all) && (behind_tops == 0 || behind_tops == behind)
}

// So many rounds of a suit.
#[inline]
fn rounds_of(by_left: bool, by_right: bool, tops: u8, longer: u8) -> u8
    ensures { result ≡ (if by_left || by_right then tops else longer) }
{
    if by_left || by_right { tops } else { longer }
}

/// One where it holds.
#[inline]
pub(crate) fn one_if(holds: bool) -> u8
    ensures { result ≡ (if holds then 1 else 0) }
{
    if holds { 1 } else { 0 }
}

/// The cards that opponents guard, on which it rests that their side takes that trick.
pub(crate) fn later_cards(position: &Position) -> Hand
    requires start { position.now.trick ≡ [] }
    requires later { has_later_trick position.now ≡ true }
    ensures { TakesBy (reach result) (other_side (side_of position.now.first)) position.now 1 }
{
    cards_of(position, all_led(position))
}

// The same of what is counted of the suits.
fn cards_of(position: &Position, led: AllLed) -> Hand
    requires start { position.now.trick ≡ [] }
    requires later { has_later_trick position.now ≡ true }
    requires spades { IsLed position.now Spades led.spades.rounds led.spades.left led.spades.right }
    requires hearts { IsLed position.now Hearts led.hearts.rounds led.hearts.left led.hearts.right }
    requires diamonds { IsLed position.now Diamonds
        led.diamonds.rounds led.diamonds.left led.diamonds.right }
    requires clubs { IsLed position.now Clubs led.clubs.rounds led.clubs.left led.clubs.right }
    ensures { TakesBy (reach result) (other_side (side_of position.now.first)) position.now 1 }
{
    let cards = with_honour(position, Hand::new(), Suit::Spades, led.spades);
    let cards = with_honour(position, cards, Suit::Hearts, led.hearts);
    let cards = with_honour(position, cards, Suit::Diamonds, led.diamonds);
    with_honour(position, cards, Suit::Clubs, led.clubs)
}

// These cards and that which an opponent guards in the suit.
fn with_honour(position: &Position, cards: Hand, suit: Suit, led: Led) -> Hand
    requires { IsLed position.now suit led.rounds led.left led.right }
    ensures more { (c : PlayingCard) → has_card cards c ≡ true → has_card result c ≡ true }
    ensures left { RestsOnGuard position.now 1 suit result }
    ensures right { RestsOnGuard position.now 3 suit result }
{
    // Most suits are guarded by nobody.
    if led.left == 0 && led.right == 0 {
        return cards;
    }
    let ranks = ranks_at(position, position.first(), suit);
    let cards = with_highest(cards, suit, left_ahead(&ranks), led.left);
    with_highest(cards, suit, right_ahead(&ranks), led.right)
}

//! Classes of equal cards: cards of the hand to play, of one suit, with no card of another hand or the trick between them.
ghost use Rattle.std.specs.Prelude.{◌≡◌, ◌+◌, ◌≤◌, ◌∷◌, [], ◌++◌, MatchOption, map, filter, length, nat_lt};
ghost use Rattle.arrayvec.specs.ArrayVec.{array_vec_len};
ghost use Rattle.dd_cards.specs.Ranks.{all_ranks};
ghost use Rattle.dd_cards.specs.Cards.{is_of, card_of, has_card};
ghost use Rattle.dd_play.specs.Board.{IsBoard};
ghost use Rattle.dd_play.specs.Play.{legal};
ghost use Rattle.dd_equal.specs.EqualCards.{other_cards, is_top, class_of, classes_of};
ghost use Rattle.dd_equal.specs.SuitClasses.{AreApart, is_top_rank, class_of_rank};

use crate::class::Class;
use arrayvec::ArrayVec;
use dd_cards::{Card, Holding, Rank, Suit};
use dd_play::Position;

/// The classes of the cards that may be played: spades, hearts, diamonds, clubs, and in a suit the higher cards first.
pub fn classes(position: &Position) -> ArrayVec<Class, 13>
    ensures { result.items ≡ classes_of position.now }
{
    let mut classes = ArrayVec::new();
    list_classes(position, &mut classes);
    classes
}

/// Puts the classes into an empty list, which is cheaper in a hot path than to hand a list out.
pub fn list_classes(position: &Position, classes: &mut ArrayVec<Class, 13>)
    requires { classes.old.items ≡ [] }
    ensures { classes.new.items ≡ classes_of position.now }
{
    let choices = position.choices();
    push_suit(
        classes,
        position,
        choices.holding(Suit::Spades),
        Suit::Spades,
    );
    push_suit(
        classes,
        position,
        choices.holding(Suit::Hearts),
        Suit::Hearts,
    );
    push_suit(
        classes,
        position,
        choices.holding(Suit::Diamonds),
        Suit::Diamonds,
    );
    push_suit(classes, position, choices.holding(Suit::Clubs), Suit::Clubs);
}

// Adds the classes of the suit, of which these ranks may be played: mostly none, where a hand follows suit.
#[inline]
fn push_suit(classes: &mut ArrayVec<Class, 13>, position: &Position, own: Holding, suit: Suit)
    requires own { map (card_of suit) own ≡ filter (is_of suit) (legal position.now) }
    requires board { IsBoard position.now }
    requires room { array_vec_len classes.old + length (filter (is_of suit) (legal position.now)) ≤
        13 }
    ensures items { classes.new.items ≡ classes.old.items
        ++ map (class_of position.now) (filter (is_top position.now) (filter (is_of suit) (legal
        position.now))) }
    ensures len { array_vec_len classes.new ≤ array_vec_len classes.old + length (filter (is_of
        suit) (legal position.now)) }
{
    if own.is_empty() {
        return;
    }
    push_classes(classes, suit, own, other_ranks(position, suit));
}

// Walks from the mover's highest rank down. A class ends at the next lower rank of another hand or the trick, its floor.
fn push_classes(classes: &mut ArrayVec<Class, 13>, suit: Suit, own: Holding, others: Holding)
    requires apart { AreApart own others }
    requires room { array_vec_len classes.old + length own ≤ 13 }
    ensures items { classes.new.items ≡ classes.old.items
        ++ map (class_of_rank suit own others) (filter (is_top_rank own others) own) }
    ensures len { array_vec_len classes.new ≤ array_vec_len classes.old + length own }
{
    let mut rest = own;
    'tops: while let Some(top) = rest.highest() {
        let (equals, next) = ranks_around(rest.below(top), others.next_below(top));
        classes.push(Class {
            top: Card { suit, rank: top },
            equals: equals.mask(),
        });
        rest = next;
    }
}

// The ranks above the floor and those below it. Without a floor all are above.
fn ranks_around(ranks: Holding, floor: Option<Rank>) -> (Holding, Holding)
    ensures { MatchOption floor ((result.0 ≡ ranks) × (result.1 ≡ []))
        (λ f. (result.0 ≡ filter (λ q. nat_lt f q) ranks) × (result.1 ≡ filter
        (λ q. nat_lt q f) ranks)) }
{
    match floor {
        Some(floor) => (ranks.above(floor), ranks.below(floor)),
        None => (ranks, Holding::new()),
    }
}

// The ranks of the cards of this suit in the other hands and on the trick.
fn other_ranks(position: &Position, suit: Suit) -> Holding
    ensures { result ≡ filter
        (λ r. has_card (other_cards position.now) (card_of suit r)) all_ranks }
{
    let mover = position.mover();
    let left = mover.left();
    let partner = mover.partner();
    let right = mover.right();
    let hands = position.hands();
    let mut ranks = hands
        .holding(left, suit)
        .union(hands.holding(partner, suit))
        .union(hands.holding(right, suit));
    let code = suit.code();
    for card in position.trick() {
        let card = *card;
        if card.suit.code() == code {
            ranks.insert(card.rank);
        }
    }
    ranks
}

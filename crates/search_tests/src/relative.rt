ghost use Rattle.std.specs.Prelude.{◌≡◌, ◌+◌, ◌<◌, IfSome, length};

use dd_cards::{Card, Hand, Place, Rank, Seat, Strain, Suit};
use dd_pbn::read_deal;
use dd_play::{Position, TrickStart};
use dd_relative::{
    ComingStart, KnownStart, PlacedTrick, RelativeStart, RelativeTrick, WinningRanks,
};

// Three cards a hand, East to lead. Left of the spades are A K Q 9 7 4, of the hearts K Q J T 5 2.
const WORKED: &[u8] = b"N:A9.5.. K4.Q.. 7.J2.. Q.KT..";

// From East on, who is North: K Q J T 5 2 are A K Q J T 9 then, and A K Q 9 7 4 too.
const FROM_EAST: &[u8] = b"N:K9.K.. T.Q9.. Q.AJ.. AJ.T..";

// North led the nine of spades, and the fourth hand won with the ace. Left of the spades are its jack and the king.
const NEXT: &[u8] = b"N:K.T.. A.K.. .Q9.. .AJ..";

// The start of a trick at notrump by relative ranks.
fn start_of(deal: &[u8], first: Seat) -> Option<RelativeStart> {
    let hands = read_deal(deal).ok()?;
    let position = Position::new(hands, Strain::Notrump, first, &[]).ok()?;
    let start = TrickStart::of(&position)?;
    Some(RelativeStart::of(&start))
}

// Are its hands from the leader on those of this deal from North on?
fn has_hands(start: &RelativeStart, deal: &[u8]) -> bool {
    match read_deal(deal) {
        Ok(hands) => {
            start.leader() == hands.hand(Seat::North)
                && start.second() == hands.hand(Seat::East)
                && start.third() == hands.hand(Seat::South)
                && start.fourth() == hands.hand(Seat::West)
        }
        Err(_) => false,
    }
}

fn card(suit: Suit, rank: u8) -> Option<Card> {
    let rank = Rank::from_code(rank)?;
    Some(Card { suit, rank })
}

// The trick with this card on it, if the card may be played.
fn played(trick: &RelativeTrick, place: u8, card: Card) -> Option<RelativeTrick>
    requires turn { length trick.now.trick ≡ place }
    requires open { place < 3 }
    ensures { IfSome result (λ next. length next.trick ≡ place + 1) }
{
    if trick.choices_at(place).has(card) {
        Some(trick.play_at(place, card))
    } else {
        None
    }
}

// The trick of the worked position after the nine, the ten and the queen of spades.
fn three_played() -> Option<RelativeTrick>
    ensures { IfSome result (λ trick. length trick.trick ≡ 3) }
{
    let start = start_of(WORKED, Seat::East)?;
    let trick = RelativeTrick::of(&start);
    let trick = played(&trick, 0, card(Suit::Spades, 9)?)?;
    let trick = played(&trick, 1, card(Suit::Spades, 10)?)?;
    played(&trick, 2, card(Suit::Spades, 12)?)
}

// The spades of these ranks.
fn spades(ranks: &[u8]) -> Option<Hand> {
    let mut cards = Hand::new();
    for rank in ranks {
        cards = cards.with(card(Suit::Spades, *rank)?);
    }
    Some(cards)
}

fn is_closed_up() -> bool {
    match start_of(WORKED, Seat::East) {
        Some(start) => has_hands(&start, FROM_EAST),
        None => false,
    }
}

fn is_next() -> Option<bool> {
    let trick = three_played()?;
    let ace = card(Suit::Spades, 14)?;
    if !trick.choices_at(3).has(ace) {
        return None;
    }
    let (next, winner) = trick.next_start(ace);
    Some(has_hands(&next, NEXT) && winner == Seat::West)
}

// The winning ranks before the trick, of these spades down to a rank after it.
fn before(rank: u8) -> Option<Hand> {
    let trick = three_played()?;
    let ace = card(Suit::Spades, 14)?;
    if !trick.choices_at(3).has(ace) {
        return None;
    }
    let later = WinningRanks::down_to(card(Suit::Spades, rank)?);
    Some(trick.ranks_before(ace, &later).cards())
}

// The trick by places with this card on it, if the card may be played.
fn placed<'a>(trick: &PlacedTrick<'a>, place: u8, card: Card) -> Option<PlacedTrick<'a>>
    requires turn { length trick.now.trick ≡ place }
    requires open { place < 3 }
    ensures { IfSome result (λ next. length next.trick ≡ place + 1) }
{
    let place_of_card = Place::of(card);
    if trick.choices_at(place).has_place(place_of_card) {
        Some(trick.play_at(place, place_of_card))
    } else {
        None
    }
}

// Does the same trick by places lead to the same start, with the same ranks before it, where East leads in the deal and then North?
fn is_next_by_places() -> Option<bool> {
    let coming = ComingStart::new(start_of(WORKED, Seat::East)?, Seat::North);
    let known = KnownStart::new(coming.start(), &coming.strings(), Seat::East);
    let trick = PlacedTrick::led(&known);
    let trick = placed(&trick, 0, card(Suit::Spades, 9)?)?;
    let trick = placed(&trick, 1, card(Suit::Spades, 10)?)?;
    let trick = placed(&trick, 2, card(Suit::Spades, 12)?)?;
    let ace = Place::of(card(Suit::Spades, 14)?);
    if !trick.choices_at(3).has_place(ace) {
        return None;
    }
    let winner = trick.winner_with(ace);
    let next = trick.next_start(ace, winner);
    let later = WinningRanks::down_to(card(Suit::Spades, 13)?);
    let before = trick.ranks_before(ace, &later);
    let contested = trick.contested(ace, winner);
    let is_told = before.cards() == spades(&[14, 13, 12, 11])?
        && contested.cards() == spades(&[14])?
        && next.deal_leader(known.deal_leader()) == Seat::North;
    Some(has_hands(next.start(), NEXT) && winner == Seat::West && is_told)
}

// North has the king and the queen of spades, which are equal; East the ace and the lowest, South the jack and the ten.
fn classes() -> Option<RelativeStart> {
    start_of(b"N:KQ... A2... JT... 98...", Seat::North)
}

// The highest card of each class that North may lead.
fn tops() -> Option<Hand> {
    let start = classes()?;
    Some(RelativeTrick::of(&start).tops_at(0))
}

// The winning ranks down to this spade with the classes of North's that they reach in part.
fn whole(rank: u8) -> Option<Hand> {
    let start = classes()?;
    let ranks = WinningRanks::down_to(card(Suit::Spades, rank)?);
    Some(RelativeTrick::of(&start).whole_at(0, &ranks).cards())
}

#[test]
fn the_leader_is_north_and_no_rank_is_missing(rt: HostRuntime) {
    assert!(rt; is_closed_up());
}

#[test]
fn the_winner_leads_to_the_next_trick_and_gaps_are_closed(rt: HostRuntime) {
    assert!(rt; is_next() == Some(true));
}

#[test]
fn a_trick_by_places_leads_to_the_same_start(rt: HostRuntime) {
    assert!(rt; is_next_by_places() == Some(true));
}

#[test]
fn winning_ranks_go_back_over_the_gaps_of_a_trick(rt: HostRuntime) {
    // After the trick the ace is what was the king, and the king what was the jack: queen, ten and nine were played.
    assert!(rt; before(14) == spades(&[14, 13]));
    assert!(rt; before(13) == spades(&[14, 13, 12, 11]));
}

#[test]
fn a_class_that_is_reached_is_met_wholly(rt: HostRuntime) {
    assert!(rt; tops() == spades(&[13]));
    assert!(rt; whole(14) == spades(&[14]));
    assert!(rt; whole(13) == spades(&[14, 13, 12]));
    assert!(rt; whole(11) == spades(&[14, 13, 12, 11]));
}

use crate::rows::{is_line_feed, word};
use dd_cards::{Card, Hands, Rank, Seat, Strain, Suit};
use dd_play::{Position, TrickStart};
use dd_quick::{against_leader, bounds, for_leader};
use std::process::Abort;

mod second_hand;
mod told;

// Rows of a test are one text, so that its proof does not grow with them. A row begins with a position before a trick: the
// hands of North, East, South and West, each with its spades, hearts, diamonds and clubs, then a letter of the strain, `n` for
// notrump, and one of the leader. Its last words say why.
fn start(row: &[u8]) -> Option<TrickStart> {
    let mut hands = Hands::new();
    deal_hand(&mut hands, Seat::North, word(row, 0))?;
    deal_hand(&mut hands, Seat::East, word(row, 1))?;
    deal_hand(&mut hands, Seat::South, word(row, 2))?;
    deal_hand(&mut hands, Seat::West, word(row, 3))?;
    let letters = word(row, 4);
    let strain = strain_of(*letters.first()?)?;
    let first = seat_of(*letters.get(1)?)?;
    let position = Position::new(hands, strain, first, &[]).ok()?;
    TrickStart::of(&position)
}

fn strain_of(letter: u8) -> Option<Strain> {
    match letter {
        b'n' => Some(Strain::Notrump),
        b's' => Some(Strain::Trump(Suit::Spades)),
        b'h' => Some(Strain::Trump(Suit::Hearts)),
        b'd' => Some(Strain::Trump(Suit::Diamonds)),
        b'c' => Some(Strain::Trump(Suit::Clubs)),
        _ => None,
    }
}

fn seat_of(letter: u8) -> Option<Seat> {
    match letter {
        b'N' => Some(Seat::North),
        b'E' => Some(Seat::East),
        b'S' => Some(Seat::South),
        b'W' => Some(Seat::West),
        _ => None,
    }
}

// Gives a seat the cards of its text. None at a letter that is no rank.
fn deal_hand(hands: &mut Hands, seat: Seat, text: &[u8]) -> Option<()> {
    let mut suit = Suit::Spades;
    for letter in text {
        if *letter == b'.' {
            suit = match suit {
                Suit::Spades => Suit::Hearts,
                Suit::Hearts => Suit::Diamonds,
                _ => Suit::Clubs,
            };
        } else {
            let rank = Rank::from_code(rank_of(*letter)?)?;
            hands.insert(seat, Card { suit, rank });
        }
    }
    Some(())
}

fn rank_of(letter: u8) -> Option<u8> {
    match letter {
        b'A' => Some(14),
        b'K' => Some(13),
        b'Q' => Some(12),
        b'J' => Some(11),
        b'T' => Some(10),
        b'2'..=b'9' => Some(letter - b'0'),
        _ => None,
    }
}

// The start of a trick after the first card of each hand, in the order of play.
fn after_a_trick(start: &TrickStart) -> Option<TrickStart> {
    let (second, _) = first_played(start.position())?;
    let (third, _) = first_played(&second)?;
    let (fourth, _) = first_played(&third)?;
    let (next, _) = first_played(&fourth)?;
    TrickStart::of(&next)
}

fn first_played(position: &Position) -> Option<(Position, Option<Seat>)> {
    let card = position.choices().pop_first()?;
    if position.is_legal(card) {
        Some(position.play(card))
    } else {
        None
    }
}

fn digit(number: u8) -> u8 {
    number.wrapping_add(b'0')
}

// The number that a word of one digit is.
fn number(word: &[u8]) -> Option<u8> {
    word.first()?.checked_sub(b'0')
}

// Are these both bounds for the leader's side and the depths, how many of each suit's highest cards they rest on? A digit each.
fn has_bounds(start: &TrickStart, want: &[u8]) -> bool {
    let (interval, depths) = bounds(start);
    let found = [
        digit(interval.lo),
        digit(interval.hi),
        digit(depths.of(Suit::Spades)),
        digit(depths.of(Suit::Hearts)),
        digit(depths.of(Suit::Diamonds)),
        digit(depths.of(Suit::Clubs)),
    ];
    found.as_slice() == want
}

// Has the position of a row the bounds and depths that follow it?
fn finds(row: &[u8]) -> bool {
    match start(row) {
        Some(start) => has_bounds(&start, word(row, 5)),
        None => false,
    }
}

// Can the side that does not lead claim so many of one to three tricks, and no more?
fn claims(start: &TrickStart, most: u8) -> bool {
    for need in 1..4 {
        if against_leader(start, need).is_some() != (need <= most) {
            return false;
        }
    }
    true
}

// Can that side claim as many tricks in the position of a row as the word at this place says?
fn claims_at(row: &[u8], place: usize) -> bool {
    match (start(row), number(word(row, place))) {
        (Some(start), Some(most)) => claims(&start, most),
        _ => false,
    }
}

// Are these the bounds, and does the value that follows lie within them?
fn is_within(row: &[u8]) -> bool {
    let (Some(start), Some(value)) = (start(row), number(word(row, 6))) else {
        return false;
    };
    let (interval, _) = bounds(&start);
    let found = [digit(interval.lo), digit(interval.hi)];
    found.as_slice() == word(row, 5) && interval.lo <= value && value <= interval.hi
}

// What follows the position of each row of a test.
#[derive(Clone, Copy)]
enum Follows {
    // The bounds and depths.
    Bounds,
    // And after them what the other side can claim.
    BoundsAndClaim,
    // What the other side can claim.
    Claim,
    // The bounds and the value.
    Value,
}

fn holds(row: &[u8], what: Follows) -> bool {
    match what {
        Follows::Bounds => finds(row),
        Follows::BoundsAndClaim => finds(row) && claims_at(row, 6),
        Follows::Claim => claims_at(row, 5),
        Follows::Value => is_within(row),
    }
}

// Looks at each row.
fn each(rt: &impl Abort, rows: &[u8], what: Follows) {
    for row in rows.split(is_line_feed) {
        assert!(rt; holds(row, what), "at {row:?}");
    }
}

#[test]
fn a_long_suit_counts_to_its_last_card(rt: HostRuntime) {
    let rows = b"AK32... QJ.32.. T9.54.. 87.76.. nN 442000 two rounds leave nobody a spade\n\
        AK32... QJ.32.. T9.54.. 876.7.. nN 242000 West has a third spade\n\
        AK32... .32.5.2 54.54.. 76.76.. nN 442000 one hand has none\n\
        AKQ... 2..23. 3..45. 4..67. nN 331000 one card is enough\n\
        AK3... QJ.3.. 8..65. T9.4.. hN 222000 the third round is ruffed\n\
        AK32... QJ..32. .5432.. T9...32 hN 440000 the partner has all trumps";
    each(&rt, rows, Follows::Bounds);
}

#[test]
fn side_suits_are_cashed_while_nobody_ruffs(rt: HostRuntime) {
    let rows = b"AK... .32.. 43... 65... hN 000000 East has no spade\n\
        AK... 2.2.. 43... 65... hN 111000 East ruffs the king\n\
        AK..2. 54.3.. ..345. 76..6. hN 222000 the partner throws diamonds\n\
        AK... 5.9.. .32.. 76... hN 110300 the partner has only trumps";
    each(&rt, rows, Follows::Bounds);
}

#[test]
fn joint_trumps_take_a_trick_each(rt: HostRuntime) {
    let rows = b".A3.. .QJ.. .K2.. 32... hN 220200 one in each hand\n\
        2.A.. 3.2.. .K.2. .4.3. hN 120100 neither hand has two trumps\n\
        .QJ.. .A3.. 32... .K2.. hN 000200 the opponents have them\n\
        A.A3.2. 32.Q..5 4.K2..2 5.J6..3 hN 341200 beside a spade\n\
        32... 54... .AK.. 7.Q.. hN 220200 the partner's alone\n\
        .A2.. .K3.. 32... .Q4.. hN 110300 two below the ace, and one hand has two trumps\n\
        .A2.. .K3.. 32... 54... hN 110300 the second and the third card\n\
        2.A.. 3.K.. 54... 6.Q.. hN 120100 two below the ace that fall together\n\
        32... 54... .AK.. 7.Q.. nN 020000 no trumps";
    each(&rt, rows, Follows::Bounds);
}

// Positions on which bounds that claim more are wrong, with the tricks of the leader's side by exhaustive play.
#[test]
fn no_more_is_claimed_than_exhaustive_play_takes(rt: HostRuntime) {
    let rows = b".T7.KT. Q6.J..9 4..Q2.3 92.5.7. dW 02 0\n\
        9.T5.. 4..J.3 ..Q.J4 T6...8 nN 23 2\n\
        KJ..9.2 86.6..7 T.8.Q5. Q.4.73. dN 34 3\n\
        KJ..9.2 86.6..7 T.8.Q5. Q.4.73. dE 02 1\n\
        KJ..9.2 86.6..7 T.8.Q5. Q.4.73. dS 44 4\n\
        KJ..9.2 86.6..7 T.8.Q5. Q.4.73. dW 02 1\n\
        7.7.A.7 98.J..6 AK..J.4 .T62..J cN 03 3\n\
        7.7.A.7 98.J..6 AK..J.4 .T62..J cE 14 2\n\
        7.7.A.7 98.J..6 AK..J.4 .T62..J cS 03 3\n\
        7.7.A.7 98.J..6 AK..J.4 .T62..J cW 14 2\n\
        JT.K.A. K.A.98. A.J.KQ. Q.Q.JT. nN 34 3\n\
        3..KT9. 9..A83. AJ82... T..Q76. nS 44 4\n\
        .J9.85. ..K974. .A62.2. .KQT.3. nW 44 4";
    each(&rt, rows, Follows::Value);
}

#[test]
fn a_winner_counts_at_notrump(rt: HostRuntime) {
    let rows = b"A... K... Q... J... nN 111000 the ace\n\
        32... A4... KQ... 65... nN 011000 East has the ace";
    each(&rt, rows, Follows::Bounds);
}

#[test]
fn beside_trumps_the_leader_crosses_while_nobody_ruffs(rt: HostRuntime) {
    let rows = b"A2.3.. 54.2.. K3.4.. 76.5.. hN 222100 both opponents follow to the king\n\
        A2.3.. 54.2.. K3.4.. 7.65.. hN 111200 West ruffs it\n\
        A2.A.. 54.2.. K3.4.. 76.3.. hN 332100 the ace of trumps is kept\n\
        A2.3.. 54..2. K3.4.. 76..3. hN 332000 no opponent has a trump\n\
        A2.32.. 654..2. KQ3.4.. 987..3. hN 442000 the leader throws no trump on the queen\n\
        .A2..3 5.43.. K.K5.. 7.76.. hN 230200 the leader crosses in no trump";
    each(&rt, rows, Follows::Bounds);
}

#[test]
fn without_trumps_the_leader_crosses_to_its_partner(rt: HostRuntime) {
    let rows = b"A2... 54... K3... 76... nN 222000 the king is next below the ace\n\
        A2... 54... K3... 76... hN 222000 no hand has a trump\n\
        A2... 5.2.. K3... 76... hN 111000 East has a trump\n\
        A2... 54... K.2.. 76... nN 121000 the king falls under the ace\n\
        A.2.. 5.3.. K4... 76... nN 121000 the ace is the leader's only spade\n\
        A..2. 4..3. 3.K.. 5.2.. nN 121000 the leader has no heart\n\
        2.43.. 3.Q6.. A.K5.. 4.J7.. nN 231100 the partner cashes another suit\n\
        32.3.. 54.4.. AK6... 87.5.. nN 332000 the six takes a trick after the ace and the king\n\
        32.3.. 54.4.. AK6... 987... nN 223100 West has a spade more, and guards the nine\n\
        T32... 5.43.. AK6... 7.65.. nN 232000 so has the leader\n\
        AT2... 876... K93... 54.2.. nN 232000 the leader's ten is above the nine\n\
        A2.A.. 43.2.. KQJ... 65.3.. nN 332100 three tricks are left";
    each(&rt, rows, Follows::Bounds);
}

// North leads, and East and West come in with the highest card of a suit, or may not.
#[test]
fn the_leaders_side_comes_to_a_suit_that_an_opponent_heads(rt: HostRuntime) {
    let rows = b"AK.2.. 32.A.. 54.3.. 76.K.. nN 222100 1 two rounds of spades, then a heart\n\
        AK.2.. 32.A.. Q54... 76.K.. nN 232000 0 three rounds of spades\n\
        AK.2.. 32.A.. 54..2. 76..A. nN 222110 1 each of them has an ace\n\
        AK.2.. 2.A.A. 54..2. 763... nN 232000 0 East may have to throw an ace\n\
        AK..2. 32..A. 54..3. 76..K. hN 222010 1 no hand has a trump\n\
        AK..2. 32..A. 54.3.. 76..K. hN 332000 0 the partner has one";
    each(&rt, rows, Follows::BoundsAndClaim);
}

// North leads. An opponent has the next card below the highest ones of North and South, and another for each of these, or not.
#[test]
fn an_opponent_guards_an_honour(rt: HostRuntime) {
    let rows = b"A32... K4.2.. 765... T98... nN 122000 1 the king and another\n\
        765... T98... A32... K4.2.. nN 122000 1 the right opponent's\n\
        A32... K.42.. 765... T98... nN 131000 0 the king alone\n\
        765... K4.2.. A32... T98... nN 131000 0 the ace and others behind it\n\
        765... K4.5.. A.4.3. T9..8. nN 122110 1 the ace alone behind it\n\
        AK32... Q54.2.. 9876... JT.43.. nN 233000 1 the queen and two others\n\
        AK32... Q5.32.. 9876... JT4.4.. nN 242000 0 the queen and one other\n\
        A3..A. K4.A.. 65.3.. T9..2. nN 231010 0 no room for the king's guard and the ace";
    each(&rt, rows, Follows::BoundsAndClaim);
}

// A claim with the partner's winners rests on one of the suit in which the leader crosses first.
#[test]
fn an_opponent_keeps_its_winners_until_it_comes_in(rt: HostRuntime) {
    let rows = b"A.32.. 2.AK.. 3.54.. 4.76.. nN 111200 2 one round of spades, then hearts\n\
        A.32.. 4.76.. 3.54.. 2.AK.. nN 111200 2 the right opponent's\n\
        AK.3.. 2.AK.. 43.5.. 5.76.. nN 222100 1 no trick is left for the king\n\
        AK.32.. 2.A.AK. 43..32. 5.54.4. nN 222110 2 one of each suit, and the king is thrown\n\
        A.32..2 2.AK..3 3.54..4 4.76..A nN 121200 2 its partner has a winner too\n\
        A.32.2. 2.AK.3. 3.54.4. 4.76.5. dN 131010 1 each hand has a trump";
    each(&rt, rows, Follows::BoundsAndClaim);
}

#[test]
fn a_trump_is_guarded_behind_the_hand_with_the_highest(rt: HostRuntime) {
    let rows = b"A.A.2. 2.K3.. 3.QJ.. 4.54.. hN 1 the king behind the ace\n\
        3.QJ.. 4.54.. A.A.2. 2.K3.. hN 1 the right opponent's\n\
        3.QJ.. 2.K3.. A.A.2. 4.54.. hN 0 the ace behind the king\n\
        A.A.2. 32.K.. 4.QJ.. 5.54.. hN 0 the king alone\n\
        2.AK.. 3.Q2.. 4.J5.. 5.43.. hN 0 two are above the queen\n\
        A.A.2. 2.K3.. 3.QJ.. 4.54.. nN 0 no trumps";
    each(&rt, rows, Follows::Claim);
}

// On how many spades and hearts a claim of so many tricks of the leader's side rests.
fn rests_on(start: &TrickStart, need: u8) -> Option<(u8, u8)> {
    let cards = for_leader(start, need)?;
    Some((
        cards.of_suit(Suit::Spades).len(),
        cards.of_suit(Suit::Hearts).len(),
    ))
}

#[test]
fn a_claim_rests_first_on_the_suit_that_is_crossed_in(rt: HostRuntime) {
    let start = start(b".43.2. 3.Q6.. A.K5.. 4.J7.. nN").expect(&rt, "even hands");
    let found = [1, 2, 3, 4].map(|need| rests_on(&start, need));
    assert_eq!(rt; found, [Some((0, 0)), Some((0, 1)), Some((1, 1)), None]);
}

// A claim of so many tricks rests on no more winners than it needs, and on those of long suits first.
#[test]
fn a_claim_rests_on_the_winners_that_it_needs(rt: HostRuntime) {
    let start = start(b"AK.AKQ.. 32.4..54 54.5..32 76.6..76 nN").expect(&rt, "even hands");
    let found = [1, 3, 4, 5, 6].map(|need| rests_on(&start, need));
    let wanted = [Some((0, 1)), Some((0, 1)), Some((1, 1)), Some((2, 1)), None];
    assert_eq!(rt; found, wanted);
    assert!(rt; against_leader(&start, 1).is_none());
}

#[test]
fn without_cards_no_trick_is_taken(rt: HostRuntime) {
    let start = start(b"A... K... Q... J... sN").expect(&rt, "even hands");
    let end = after_a_trick(&start).expect(&rt, "each hand has a card");
    assert!(rt; has_bounds(&end, b"000000"));
}

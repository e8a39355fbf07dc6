//! What second or fourth hand takes with the highest card of a suit that may be led.
use super::{digit, number, start};
use crate::rows::{is_line_feed, word};
use dd_cards::{Hand, Suit};
use dd_play::TrickStart;
use dd_quick::for_second_hand;
use std::process::Abort;

// The winners of either opponent of the leader on which it rests that so many tricks are theirs after a lead of spades.
fn after_spades(start: &TrickStart, need: u8) -> Option<Hand> {
    let position = start.position();
    let leader = position.first();
    match for_second_hand(position, leader.left(), Suit::Spades, need) {
        Some(cards) => Some(cards),
        None => for_second_hand(position, leader.right(), Suit::Spades, need),
    }
}

// How many cards of each suit, a digit each.
pub(super) fn by_suit(cards: Hand) -> [u8; 4] {
    [
        digit(cards.of_suit(Suit::Spades).len()),
        digit(cards.of_suit(Suit::Hearts).len()),
        digit(cards.of_suit(Suit::Diamonds).len()),
        digit(cards.of_suit(Suit::Clubs).len()),
    ]
}

// Where so many tricks are asked for as the first word after the position says, are so many winners of each suit listed as
// the next, or none?
fn lists(row: &[u8]) -> bool {
    let (Some(start), Some(need)) = (start(row), number(word(row, 5))) else {
        return false;
    };
    let want = word(row, 6);
    match after_spades(&start, need) {
        Some(cards) => by_suit(cards).as_slice() == want,
        None => want == b"none".as_slice(),
    }
}

// Looks at each row.
fn list_each(rt: &impl Abort, rows: &[u8]) {
    for row in rows.split(is_line_feed) {
        assert!(rt; lists(row), "at {row:?}");
    }
}

// North leads a spade. Of each suit so many winners of East and West's are listed.
#[test]
fn the_highest_card_of_the_suit_led_wins_and_more_are_cashed(rt: HostRuntime) {
    let rows = b"32... AK... 54... 76... nN 2 2000 second hand has the ace and the king\n\
        32... 76... 54... AK... nN 2 2000 fourth hand has them\n\
        32... AK... 54... 76... nN 1 1000 one is asked for\n\
        32... AK... 54... 76... nN 3 none no more than are left\n\
        32... K6... A4... Q7... nN 1 none third hand has the ace\n\
        A2... KQ... 54... 76... nN 1 none the leader has the ace\n\
        2.32.. A.54.. 3.76.. 4.AK.. nN 3 1200 its partner takes two more once it has crossed\n\
        2.32.. 4.AK.. 3.76.. A.54.. nN 2 1100 one of them is asked for of fourth hand\n\
        2.3..9 A...54 3.76.. 4.AK.. nN 2 none it has no card to lead to its partner\n\
        2.32.2. A.54.3. 3.87.4. .AK6.5. nN 4 1200 and a third with a low card of its long suit\n\
        2.3.2. A..54. 3.2.3. 4..AK. hN 2 1010 beside trumps it crosses while both follow\n\
        2.3.2. A..54. 3.2.3. 4..AK. hN 3 none and no further\n\
        2.32.. A.AK.. 3.54.. 4.76.. nN 1 1000 the first trick is that of the suit led\n\
        2.32.. A.AK.. 3.54.. 4.76.. nN 3 1200 hearts after it\n\
        2.32.. A.54.. 3.AK.. 4.76.. nN 2 none third hand has the hearts\n\
        32... AK... .32.. 76... hN 1 none third hand ruffs\n\
        32... AK... ..32. 76... hN 2 2000 third hand has no trump\n\
        32... AK... 4.2.. 76... hN 1 1000 third hand follows once\n\
        32... AK... 4.2.. 76... hN 2 none and ruffs the king\n\
        32... AK... 54... .32.. hN 1 none the partner has only trumps, and wins the trick itself\n\
        32... A.K.. 4..3. 5.A.. hN 2 1000 a trump is kept, and the other side has none\n\
        2.2.. A.K.. 4.3.. 5.A.. hN 2 1100 a trump is kept, the other side has two";
    list_each(&rt, rows);
}

// The same where spades are trumps.
#[test]
fn the_highest_trump_wins_and_side_suits_are_cashed(rt: HostRuntime) {
    let rows = b"32... AK... 54... 7.2.. sN 2 2000 the ace and the king\n\
        2.3.. A.K.. .54.. .76.. sN 2 1100 a heart after the ace\n\
        2... A... ..3. ..4. sN 1 1000 the partner throws its last card\n\
        32... A4... 65... K.2.. sN 1 1000 the ace\n\
        32... A4... 65... K.2.. sN 2 none the partner's king is not counted\n\
        42... A.K.. 3.5.. 5.6.. sN 2 none North ruffs the heart\n\
        32... K6... A4... Q7... sN 1 none third hand has the ace\n\
        32... AK... 54... 76... sN 1 none the partner has only trumps: not counted";
    list_each(&rt, rows);
}

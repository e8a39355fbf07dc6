//! Quick tricks of which it is told how many each side suit gives.
use super::second_hand::by_suit;
use super::{number, start};
use crate::rows::{is_line_feed, word};
use dd_cards::{Hand, Suit};
use dd_play::TrickStart;
use dd_quick::{
    Shares, for_leader_across, for_leader_by, for_second_hand_across, for_second_hand_by,
};
use std::process::Abort;

// Whose tricks are told.
#[derive(Clone, Copy)]
enum Told {
    // The leader's.
    Leader,
    // Its partner's too.
    LeaderAndPartner,
    // Those of an opponent of the leader, which leads a spade.
    SecondHand,
    // Its partner's too.
    SecondHandAndPartner,
}

// How many tricks of each suit, a digit each.
fn shares(digits: &[u8]) -> Option<Shares> {
    Some(Shares {
        spades: number(digits)?,
        hearts: number(digits.get(1..)?)?,
        diamonds: number(digits.get(2..)?)?,
        clubs: number(digits.get(3..)?)?,
    })
}

// The winners of either opponent of the leader that are listed after a lead of spades, the left one asked first.
fn after_spades(start: &TrickStart, need: u8, told: Shares) -> Option<Hand> {
    let position = start.position();
    let leader = position.first();
    match for_second_hand_by(position, leader.left(), Suit::Spades, need, told) {
        Some(cards) => Some(cards),
        None => for_second_hand_by(position, leader.right(), Suit::Spades, need, told),
    }
}

// The same where the partner's tricks are told too.
fn across_after_spades(start: &TrickStart, need: u8, told: Shares, next: Shares) -> Option<Hand> {
    let position = start.position();
    let leader = position.first();
    match for_second_hand_across(position, leader.left(), Suit::Spades, need, told, next) {
        Some(cards) => Some(cards),
        None => for_second_hand_across(position, leader.right(), Suit::Spades, need, told, next),
    }
}

// What is listed for so many tricks. Those that are told stand behind them, the partner's in the next word.
fn listed(row: &[u8], whose: Told) -> Option<Option<Hand>> {
    let start = start(row)?;
    let need = number(word(row, 5))?;
    let told = shares(word(row, 6))?;
    Some(match whose {
        Told::Leader => for_leader_by(&start, need, told),
        Told::LeaderAndPartner => for_leader_across(&start, need, told, shares(word(row, 7))?),
        Told::SecondHand => after_spades(&start, need, told),
        Told::SecondHandAndPartner => {
            across_after_spades(&start, need, told, shares(word(row, 7))?)
        }
    })
}

// The last word before the reason has how many winners of each suit are listed, `some` or `none`.
fn lists(row: &[u8], whose: Told) -> bool {
    let want = match whose {
        Told::Leader | Told::SecondHand => word(row, 7),
        Told::LeaderAndPartner | Told::SecondHandAndPartner => word(row, 8),
    };
    match listed(row, whose) {
        Some(Some(cards)) => want == b"some".as_slice() || by_suit(cards).as_slice() == want,
        Some(None) => want == b"none".as_slice(),
        None => false,
    }
}

// Looks at each row.
fn list_each(rt: &impl Abort, rows: &[u8], whose: Told) {
    for row in rows.split(is_line_feed) {
        assert!(rt; lists(row, whose), "at {row:?}");
    }
}

#[test]
fn the_leader_takes_what_is_told_of_side_suits(rt: HostRuntime) {
    let rows = b"AK... QJ... 32... 54... nN 2 2000 2000 the ace and the king\n\
        AK... QJ... 32... 54... nN 1 1000 1000 one of them\n\
        AK... QJ... 32... 54... nN 2 1000 none the other was not told\n\
        AK... QJ... 32... 54... nN 1 2000 none more are told than are asked for\n\
        AK... QJ... 32... 54... nN 3 3000 none there is no third\n\
        AK... QJ... 32... 54... nN 3 2100 none nobody has a heart\n\
        AK32... QJ.32.. T9.54.. 87.76.. nN 4 4000 2000 two rounds leave nobody a spade\n\
        AK32... QJ.32.. T9.54.. 876.7.. nN 3 3000 none West has a third spade\n\
        AK... .32.. 43... 65... hN 1 1000 none East ruffs\n\
        AK... 2.2.. 43... 65... hN 1 1000 1000 East follows once\n\
        AK... 2.2.. 43... 65... hN 2 2000 none and ruffs the king\n\
        AK... 5.9.. .32.. 76... hN 1 1000 none the partner has only trumps";
    list_each(&rt, rows, Told::Leader);
}

#[test]
fn the_rest_of_what_is_told_are_joint_trumps(rt: HostRuntime) {
    let rows = b".A3.. .QJ.. .K2.. 32... hN 2 0000 some the ace and the king\n\
        .A3.. .QJ.. .K2.. 32... hN 3 0000 none there is no third\n\
        .A3.. .QJ.. .K2.. 32... hN 1 0100 none trumps are no side suit\n\
        A.A3.2. 32.Q..5 4.K2..2 5.J6..3 hN 3 1000 some beside a spade\n\
        A.A3.2. 32.Q..5 4.K2..2 5.J6..3 hN 4 1000 none and no more\n\
        A.A3.2. 32.Q..5 4.K2..2 5.J6..3 nN 3 1000 none no trumps";
    list_each(&rt, rows, Told::Leader);
}

#[test]
fn the_partner_takes_what_is_told_once_the_leader_has_crossed(rt: HostRuntime) {
    let rows = b"A.54.. 2.32.. 4.AK.. 3.76.. nN 3 1000 0200 1200 it crosses in hearts\n\
        A.54.. 2.32.. 4.AK.. 3.76.. nN 2 1000 0100 1100 one of its partner's\n\
        A.54.. 2.32.. 4.AK.. 3.76.. nN 2 0000 0200 0200 none of its own\n\
        A.54.. 2.32.. 4.AK.. 3.76.. nN 4 1000 0300 none there is no third\n\
        A.54.. 2.32.. 4.AK.. 3.76.. nN 4 1000 0200 none no trumps\n\
        A.54.. 2.32.. 4.AK.. 3.76.. nN 1 1000 0000 none it doesn't cross\n\
        A...54 3.76.. 4.AK.. 2.3..9 nN 3 1000 0200 none it has no heart to lead\n\
        AK2... 876... QJ9... 543... nN 3 2000 1000 3000 the third spade is its partner's\n\
        AK2... 876... QJ9... 543... nN 2 1000 1000 none it cashes two first\n\
        A2.3.. 54.2.. K3.4.. 76.5.. hN 2 1000 1000 2000 both opponents follow to the king\n\
        A2.3.. 54.2.. K3.4.. 7.65.. hN 2 1000 1000 none West ruffs it\n\
        A2.32.. 654..2. KQ3.4.. 987..3. hN 3 1000 2000 none it would throw a trump on the queen\n\
        A2.32.. 654..2. KQ3.4.. 987..3. hN 2 1000 1000 2000 it keeps both\n\
        A2.32.. 654..2. KQ3.4.. 987..3. hN 4 1000 1000 some which take the rest";
    list_each(&rt, rows, Told::LeaderAndPartner);
}

// North leads a spade.
#[test]
fn an_opponent_takes_what_is_told_of_the_suit_that_is_led_and_others(rt: HostRuntime) {
    let rows = b"32... AK... 54... 76... nN 2 2000 2000 second hand has the ace and the king\n\
        32... 76... 54... AK... nN 2 2000 2000 fourth hand has them\n\
        32... K6... A4... Q7... nN 1 1000 none third hand has the ace\n\
        2.32.. A.AK.. 3.54.. 4.76.. nN 3 1200 1200 hearts after the ace\n\
        2.32.. A.AK.. 3.54.. 4.76.. nN 1 1000 1000 one is asked for\n\
        2.32.. A.AK.. 3.54.. 4.76.. nN 2 0200 none none is told of the suit that is led\n\
        32... AK... .32.. 76... hN 1 1000 none third hand ruffs\n\
        32... A.K.. 4..3. 5.A.. hN 2 1000 some a trump is kept\n\
        32... AK... 54... .32.. hN 1 1000 none the partner has only trumps";
    list_each(&rt, rows, Told::SecondHand);
}

#[test]
fn its_partner_takes_what_is_told_once_it_has_crossed(rt: HostRuntime) {
    let rows = b"2.32.. A.54.. 3.76.. 4.AK.. nN 3 1000 0200 1200 it crosses in hearts\n\
        2.32.. 4.AK.. 3.76.. A.54.. nN 2 1000 0100 1100 one of fourth hand's partner's\n\
        2.32.. A.54.. 3.76.. 4.AK.. nN 2 0000 0200 none none is told of the suit that is led\n\
        2.3..9 A...54 3.76.. 4.AK.. nN 3 1000 0200 none it has no heart to lead\n\
        2.3.2. A..54. 3.2.3. 4..AK. hN 2 1000 0010 1010 both opponents follow to a diamond\n\
        2.3.2. A..54. 3.2.3. 4..AK. hN 3 1000 0020 none and ruff the next";
    list_each(&rt, rows, Told::SecondHandAndPartner);
}

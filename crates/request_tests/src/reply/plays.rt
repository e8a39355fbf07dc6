//! Plays whose tricks can be counted by hand.
ghost use Rattle.std.specs.Prelude.{◌≤◌};

use super::worked::first_with_another_reply;
use arrayvec::ArrayVec;
use dd_bounds::{Budget, Endless, Halt, NoTable};
use dd_cards::{Card, Rank, Seat, Side, Strain, Suit};
use dd_pbn::read_deal;
use dd_play::Position;
use dd_request::{CardFault, PlayRequest};
use dd_solve::{solve_play, solve_play_part};

/// Each row is a line, a bar and its reply without a budget.
const REPLIES: &[u8] =
    br#"{"do":"play","deal":"N:32... K4... AQ... 65...","trump":4,"first":0,"cards":[[0,2],[0,4],[0,14],[0,5]]}|{"tricks":[0,0,0,1,1]}
{"do":"play","deal":"N:32... K4... AQ... 65...","trump":4,"first":0,"cards":[]}|{"tricks":[0]}
{"do":"play","deal":"N:32... K4... AQ... 65...","trump":4,"first":0,"cards":[[0,3],[0,4],[0,12],[0,5],[0,14],[0,6],[0,2],[0,13]]}|{"tricks":[0,0,0,0,0,0,0,0,0]}
{"do":"play","deal":"N:32... K4... AQ... 65...","trump":4,"first":0,"cards":[[0,3],[0,13],[0,12],[0,5],[0,4]]}|{"tricks":[0,0,0,1,1,1]}
{"do":"play","deal":"N:32... K4... AQ... 65...","trump":4,"first":0,"cards":[[0,4]]}|{"fault":24}
{"do":"play","deal":"N:32... K4... AQ... 65...","trump":4,"first":0,"cards":[[0,2],[0,2]]}|{"fault":24}
{"do":"play","deal":"N:32... K4... AQ... 65...","trump":4,"first":0,"cards":[[0,2],[0,4],[0,14],[0,5],[0,3]]}|{"fault":24}
{"do":"play","deal":"N:32... K4... AQ... 65...","trump":4,"first":0,"cards":[[0,3],[0,4],[0,12],[0,5],[0,14],[0,6],[0,2],[0,13],[0,13]]}|{"fault":26}
{"do":"play","deal":"N:3.2.. A.A.. K.K.. Q.Q..","trump":1,"first":0,"cards":[[0,3],[0,14],[0,13],[0,12],[1,14],[1,13],[1,12],[1,2]]}|{"tricks":[2,2,2,2,2,2,2,2,2]}
{"do":"play","deal":"N:3.2.. A.A.. K.K.. Q.Q..","trump":4,"first":0,"cards":[[0,3],[1,14]]}|{"fault":25}
{"do":"play","deal":"N:3.2.. A..A. K.K.. Q.Q..","trump":4,"first":0,"cards":[[0,3],[0,14],[0,13],[0,12],[2,14],[1,13],[1,12],[1,2]]}|{"tricks":[1,2,2,2,2,2,2,2,2]}
{"do":"play","deal":"N:3.2.. A..A. K.K.. Q.Q..","trump":1,"first":0,"cards":[[0,3],[0,14],[0,13],[0,12],[2,14],[1,13],[1,12],[1,2]]}|{"tricks":[1,1,1,1,1,1,1,1,1]}
{"cards":[[0,2],[0,4],[0,14],[0,5]],"first":0,"trump":4,"deal":"[Deal \"e:k4... aq... 65... 32...\"]","do":"play"}|{"tricks":[0,0,0,1,1]}
{"do":"play","deal":"N:AA... K2... Q3... J4...","trump":5,"first":4,"cards":[[9,9]]}|{"fault":6}
{"do":"play","deal":"N:32... K4... AQ... 65...","trump":5,"first":4,"cards":[[9,9]]}|{"fault":9}
{"do":"play","deal":"N:32... K4... AQ... 65...","trump":4,"first":4,"cards":[[9,9]]}|{"fault":10}
{"do":"play","deal":"N:32... K4... AQ... 65...","trump":4,"first":0,"cards":[[0,1]]}|{"fault":11}
{"do":"play","deal":"N:32... K... AQ... 65...","trump":4,"first":0,"cards":[[4,2]]}|{"fault":11}
{"do":"play","deal":"N:32... K4... AQ... 65...","trump":4,"first":0,"cards":[[0,2],[0,2],[0,2],[0,2],[0,2],[0,2],[0,2],[0,2],[0,2],[0,2],[0,2],[0,2],[0,2],[0,2],[0,2],[0,2],[0,2],[0,2],[0,2],[0,2],[0,2],[0,2],[0,2],[0,2],[0,2],[0,2],[0,2],[0,2],[0,2],[0,2],[0,2],[0,2],[0,2],[0,2],[0,2],[0,2],[0,2],[0,2],[0,2],[0,2],[0,2],[0,2],[0,2],[0,2],[0,2],[0,2],[0,2],[0,2],[0,2],[0,2],[0,2],[0,2],[0,2]]}|{"fault":11}
{"do":"play","deal":"N:32... K4... AQ... 65...","trump":4,"first":0,"cards":[[0,2],[0,2],[0,2],[0,2],[0,2],[0,2],[0,2],[0,2],[0,2],[0,2],[0,2],[0,2],[0,2],[0,2],[0,2],[0,2],[0,2],[0,2],[0,2],[0,2],[0,2],[0,2],[0,2],[0,2],[0,2],[0,2],[0,2],[0,2],[0,2],[0,2],[0,2],[0,2],[0,2],[0,2],[0,2],[0,2],[0,2],[0,2],[0,2],[0,2],[0,2],[0,2],[0,2],[0,2],[0,2],[0,2],[0,2],[0,2],[0,2],[0,2],[0,2],[0,2]]}|{"fault":24}
{"do":"play","deal":"N:32... K... AQ... 65...","trump":4,"first":0,"cards":[[1,2]]}|{"fault":7}
{"do":"play","deal":"N:... ... ... ...","trump":4,"first":0,"cards":[[0,2]]}|{"fault":8}
{"do":"play","deal":"N:... ... ... ...","trump":4,"first":0,"cards":[]}|{"fault":8}
{"do":"play","deal":"N:32... K4... AQ... 65...","trump":4,"first":0,"cards":[[0,2,0]]}|{"fault":3}
{"do":"play","deal":"N:32... K4... AQ... 65...","trump":4,"first":0,"cards":"S2S4"}|{"fault":3}
{"do":"play","deal":"N:32... K4... AQ... 65...","trump":4,"first":0,"cards":[],"solutions":3}|{"fault":3}
{"do":"play","deal":"N:32... K4... AQ... 65...","trump":4,"first":0}|{"fault":3}
{"do":"solve","deal":"N:32... K4... AQ... 65...","trump":4,"first":0,"cards":[]}|{"fault":3}"#;

/// The same with a budget of 0. No search is needed where no card is left to choose.
const REPLIES_WITH_NO_POSITION: &[u8] =
    br#"{"do":"play","deal":"N:A... K... Q... J...","trump":4,"first":0,"cards":[]}|{"state":"spent"}
{"do":"play","deal":"N:... ... ... ...","trump":4,"first":0,"cards":[]}|{"fault":8}"#;

#[test]
fn worked_plays_have_their_replies(rt: HostRuntime) {
    for (table, budget) in [(REPLIES, None), (REPLIES_WITH_NO_POSITION, Some(0))] {
        assert_eq!(rt; first_with_another_reply(rt.alloc(), table, budget), None);
    }
}

fn spade(rank: u8) -> Card
    requires { (2 ≤ rank) × (rank ≤ 14) }
{
    Card {
        suit: Suit::Spades,
        rank: Rank::of(rank),
    }
}

// North leads at notrump from two spades a hand, and these cards are played; the fault of the first that may not be.
fn play_of(cards: &[Card]) -> Option<Result<PlayRequest, CardFault>> {
    let hands = read_deal(b"N:32... K4... AQ... 65...").ok()?;
    let opening = Position::new(hands, Strain::Notrump, Seat::North, &[]).ok()?;
    Some(PlayRequest::new(opening, cards))
}

// The parts of a play: the tricks that declarer's side has won by then, and those that it takes from there on.
fn numbers_of(request: &PlayRequest) -> ArrayVec<(u8, u8), 53> {
    let mut numbers = ArrayVec::new();
    for count in 0..=request.cards().len() {
        let (position, won) = request.after(count);
        let solved = solve_play_part(position, request.declarers(), &mut NoTable, &mut Endless);
        if let Ok(part) = solved {
            let _fits = numbers.try_push((won, part.copy().tricks()));
        }
    }
    numbers
}

#[test]
fn a_play_has_its_parts_and_its_trace(rt: HostRuntime) {
    let cards = [spade(2), spade(4), spade(14), spade(5)];
    let request = play_of(&cards)
        .and_then(|play| play.ok())
        .expect(&rt, "a play");
    assert_eq!(rt; request.declarers(), Side::EastWest);
    assert_eq!(rt; request.opening().tricks_left(), 2);
    assert_eq!(rt;
        numbers_of(&request).as_slice(),
        [(0, 0), (0, 0), (0, 0), (0, 1), (0, 1)].as_slice()
    );
    let (next, won) = request.after(request.cards().len());
    assert_eq!(rt;
        (next.first(), next.tricks_left(), won),
        (Seat::South, 1, 0)
    );
    assert_eq!(rt; request.last_number(), None);
    let opening = request.opening().copy();
    let spent = solve_play_part(opening, Side::EastWest, &mut NoTable, &mut Budget::new(0));
    assert_eq!(rt; spent.err(), Some(Halt::Spent));
    let solved = solve_play(request.copy(), &mut NoTable, None).expect(&rt, "a trace");
    assert_eq!(rt;
        solved.copy().trace().copy().as_slice(),
        [0, 0, 0, 1, 1].as_slice()
    );
    assert_eq!(rt; solved.request().cards(), cards.as_slice());
    assert!(rt; solve_play(request, &mut NoTable, Some(0)).is_none());
}

#[test]
fn a_play_of_all_cards_needs_no_search_for_its_last_number(rt: HostRuntime) {
    let whole = [
        spade(3),
        spade(13),
        spade(12),
        spade(5),
        spade(4),
        spade(14),
        spade(6),
        spade(2),
    ];
    let request = play_of(&whole)
        .and_then(|play| play.ok())
        .expect(&rt, "a play");
    assert_eq!(rt; request.last_number(), Some(1));
}

// The fault of the first card that may not be played.
fn fault_of(cards: &[Card]) -> Option<CardFault> {
    match play_of(cards) {
        Some(Err(fault)) => Some(fault),
        _ => None,
    }
}

#[test]
fn a_card_that_may_not_be_played_is_a_fault(rt: HostRuntime) {
    let lead = spade(3);
    let rest = [
        spade(4),
        spade(12),
        spade(5),
        spade(14),
        spade(6),
        spade(2),
        spade(13),
    ];
    let [second, third, fourth, fifth, sixth, seventh, last] = rest;
    let whole = [lead, second, third, fourth, fifth, sixth, seventh, last];
    let longer = [
        lead, second, third, fourth, fifth, sixth, seventh, last, last,
    ];
    assert_eq!(rt; fault_of(&whole), None);
    assert_eq!(rt; fault_of(&longer), Some(CardFault::AfterLast));
    assert_eq!(rt; fault_of(&rest), Some(CardFault::NotInHand));
}

//! How many positions a search visits. A budget counts them, so a search that visits others gives other answers within it.

use crate::rows::{is_bar, is_line_feed, number, word};
use crate::scores::scores_of;
use dd_bounds::{Bounds, Budget, NoTable};
use dd_cache::Cache;
use dd_cards::{Seat, Strain};
use dd_pbn::read_deal;
use dd_play::{Position, TrickStart};
use dd_search::{start_value_for_first, value};
use std::alloc::AllocError;
use std::process::Abort;

// More than any search here takes.
const ENOUGH: u64 = 10_000_000;

// The number of a word of digits.
fn ticks_of(word: &[u8]) -> u64 {
    let mut number = 0u64;
    for digit in word {
        number = number
            .saturating_mul(10)
            .saturating_add(digit.wrapping_sub(b'0') as u64);
    }
    number
}

// The position after the highest card of the first suit that may be played.
fn first_played(position: &Position) -> Option<Position> {
    let card = position.choices().pop_first()?;
    if position.is_legal(card) {
        Some(position.play(card).0)
    } else {
        None
    }
}

// The position of the deal at this strain, which this hand leads, when so many cards were played.
fn position_of(deal: &[u8], strain: u8, first: u8, played: u8) -> Option<Position> {
    let hands = read_deal(deal).ok()?;
    let strain = Strain::from_code(strain)?;
    let first = Seat::from_code(first)?;
    let mut position = Position::new(hands, strain, first, &[]).ok()?;
    for _ in 0..played {
        position = first_played(&position)?;
    }
    Some(position)
}

// What a search tells in one number: of all cards the sum of their scores.
fn found<T: Bounds>(
    what: &[u8],
    position: &Position,
    table: &mut T,
    budget: &mut Budget,
) -> Option<u8> {
    if what == b"value".as_slice() {
        return value(position, table, budget).ok();
    }
    let start = TrickStart::of(position)?;
    if what == b"first".as_slice() {
        let found = start_value_for_first(&start, table, budget).ok()?;
        return Some(found.0);
    }
    let found = scores_of(&start, table, budget)?;
    let mut sum = 0u8;
    for (_, score) in found.0.as_slice() {
        sum = sum.saturating_add(*score);
    }
    Some(sum)
}

// A row is what is searched (`value`, `first` as the value is found for one best card, `scores` of all cards), the strain, the
// hand that leads, how many cards are played before, what is found and the ticks, and after a bar the deal.
fn is_searched<T: Bounds>(table: &mut T, row: &[u8]) -> Option<bool> {
    let mut parts = row.split(is_bar);
    let words = parts.next()?;
    let deal = parts.next()?;
    let position = position_of(
        deal,
        number(word(words, 1)),
        number(word(words, 2)),
        number(word(words, 3)),
    )?;
    let mut budget = Budget::new(ENOUGH);
    let found = found(word(words, 0), &position, table, &mut budget)?;
    Some(found == number(word(words, 4)) && budget.ticks() == ticks_of(word(words, 5)))
}

// Looks at each row, over one new cache: what a search learned serves those after it.
fn search_each<R: AllocGlobal + Abort>(rt: &R, rows: &[u8]) -> Result<(), AllocError> {
    let mut cache = Cache::new(rt.alloc(), NoTable)?;
    for row in rows.split(is_line_feed) {
        assert!(rt; is_searched(&mut cache, row) == Some(true), "at {row:?}");
    }
    Ok(())
}

// Four full deals at each strain, each hand in turn on lead.
#[test]
fn deals_with_spades_as_trumps_take_as_many_positions(rt: HostRuntime) -> Result<(), AllocError> {
    let rows =
        b"value 0 0 0 10 6405|N:AK.AKQ.AKJ8532.T J5.J542.T96.AK42 96432.T873.4.J93 QT87.96.Q7.Q8765\n\
        value 0 1 0 10 10294|N:82.QJ5.T85.J9654 KQJ9.986.762.Q82 AT54.T732.J43.A7 763.AK4.AKQ9.KT3\n\
        value 0 2 0 7 23838|N:AT5.A.5.AJ987632 7.JT953.QT432.Q4 K6.Q8642.KJ976.5 QJ98432.K7.A8.KT\n\
        value 0 3 0 11 24672|N:K5.Q62.KT8542.T8 QJT9643.A95.AQ.6 872.KJT73.6.Q732 A.84.J973.AKJ954";
    search_each(&rt, rows)
}

#[test]
fn deals_with_hearts_as_trumps_take_as_many_positions(rt: HostRuntime) -> Result<(), AllocError> {
    let rows =
        b"value 1 0 0 11 82971|N:T7.9762.K974.KQ6 KQJ8642.5.J83.75 A93.AQJT.Q6.AJ94 5.K843.AT52.T832\n\
        value 1 1 0 3 4717|N:Q43.AT652.92.KJT T876.K73.AJ3.654 AK5.J94.QT7.AQ97 J92.Q8.K8654.832\n\
        value 1 2 0 10 13944|N:AJT62.K85432..Q2 Q9.A6.AQT76432.6 73.JT.J.AKJT9754 K854.Q97.K985.83\n\
        value 1 3 0 9 50598|N:AT9.K7.Q87.KT843 8.T92.KJ642.AQ76 KJ4.A64.T53.J952 Q76532.QJ853.A9.";
    search_each(&rt, rows)
}

#[test]
fn deals_with_diamonds_as_trumps_take_as_many_positions(rt: HostRuntime) -> Result<(), AllocError> {
    let rows =
        b"value 2 0 0 11 71304|N:K8.6532.K876.QJ7 JT976532.J.QT9.T AQ.AT4.AJ43.AK62 4.KQ987.52.98543\n\
        value 2 1 0 7 35695|N:J987.AT8.76.AJ98 K62.9642.K3.QT63 AQ54.J753.AJ5.74 T3.KQ.QT9842.K52\n\
        value 2 2 0 9 14569|N:J52.72.AJ764.T83 T63.A6.K3.KQJ764 AKQ9874.9.T95.A5 .KQJT8543.Q82.92\n\
        value 2 3 0 8 28772|N:J.AKT7.AJ532.543 T5.93.KT876.AQJ9 8632.Q8542.Q.762 AKQ974.J6.94.KT8";
    search_each(&rt, rows)
}

#[test]
fn deals_with_clubs_as_trumps_take_as_many_positions(rt: HostRuntime) -> Result<(), AllocError> {
    let rows =
        b"value 3 0 0 8 15329|N:QJ.AKQ84.985.A54 T64.T32.AQ64.KQ3 AK952.96.KJT2.98 873.J75.73.JT762\n\
        value 3 1 0 3 42331|N:2.Q742.J8.KJ8652 KJ5.KJ98.AQT7.QT 643.AT.K542.A743 AQT987.653.963.9\n\
        value 3 2 0 9 50931|N:87.A93..AKT87432 AKT963.7.A932.Q6 Q542.Q42.QJ64.J5 J.KJT865.KT875.9\n\
        value 3 3 0 8 17965|N:A732.82.K9862.A4 KQ64.J73.Q.KJT86 JT9.AK65.J54.975 85.QT94.AT73.Q32";
    search_each(&rt, rows)
}

#[test]
fn deals_at_notrump_take_as_many_positions(rt: HostRuntime) -> Result<(), AllocError> {
    let rows =
        b"value 4 0 0 7 16164|N:876.AQ742.T62.AK A42.9865.AJ.9653 Q95.T3.K754.QJ74 KJT3.KJ.Q983.T82\n\
        value 4 1 0 8 8260|N:87.AJ97.84.KJ653 KT43.KQT.T976.98 AQ9652.52.Q5.QT7 J.8643.AKJ32.A42\n\
        value 4 2 0 9 7809|N:AKQ863.JT732.8.9 2.A.AKQ9764.KJ32 J75.Q96.JT532.AQ T94.K854..T87654\n\
        value 4 3 0 9 13363|N:T65.KJ9.K953.973 KJ.6542.A74.K652 Q72.A83.QT862.J4 A9843.QT7.J.AQT8";
    search_each(&rt, rows)
}

#[test]
fn all_leads_and_one_best_lead_take_as_many_positions(rt: HostRuntime) -> Result<(), AllocError> {
    let rows =
        b"first 0 1 0 8 5126|N:J87.AKJ2.Q532.A8 KQ53.95.KT76.JT2 T92.QT7.4.KQ9653 A64.8643.AJ98.74\n\
        scores 1 0 0 32 85223|N:AKT9432.KQ6..KJ2 Q875..K7653.AQT6 J6.AJ8.J942.9543 .T975432.AQT8.87\n\
        first 2 3 0 9 38273|N:Q753.Q987532..QT 96.64.AJ653.K752 AK42.KJ.KT9.8643 JT8.AT.Q8742.AJ9\n\
        scores 3 2 0 44 9814|N:J75.K84.AKQJ53.Q T3.Q93.T9.JT8743 AKQ864.J5.8642.K 92.AT762.7.A9652\n\
        first 4 1 0 6 36113|N:8.KJ987643.QJ9.5 QJT52.QT.7.KQJ86 AK764..AK852.742 93.A52.T643.AT93";
    search_each(&rt, rows)
}

// What a search of the same deal learned before serves those after it.
#[test]
fn positions_of_one_play_take_as_many_positions(rt: HostRuntime) -> Result<(), AllocError> {
    let rows =
        b"value 0 2 0 3 9936|N:K98.AK8.732.QJ42 AQT54.QJ62.T6.87 J3.T9754.954.A96 762.3.AKQJ8.KT53\n\
        value 1 2 1 8 8835|N:K98.AK8.732.QJ42 AQT54.QJ62.T6.87 J3.T9754.954.A96 762.3.AKQJ8.KT53\n\
        value 2 2 2 2 13567|N:K98.AK8.732.QJ42 AQT54.QJ62.T6.87 J3.T9754.954.A96 762.3.AKQJ8.KT53\n\
        value 3 2 3 8 38640|N:K98.AK8.732.QJ42 AQT54.QJ62.T6.87 J3.T9754.954.A96 762.3.AKQJ8.KT53\n\
        value 1 2 4 7 7938|N:K98.AK8.732.QJ42 AQT54.QJ62.T6.87 J3.T9754.954.A96 762.3.AKQJ8.KT53\n\
        value 1 2 7 5 7|N:K98.AK8.732.QJ42 AQT54.QJ62.T6.87 J3.T9754.954.A96 762.3.AKQJ8.KT53\n\
        value 1 2 10 6 1531|N:K98.AK8.732.QJ42 AQT54.QJ62.T6.87 J3.T9754.954.A96 762.3.AKQJ8.KT53\n\
        value 1 2 13 6 554|N:K98.AK8.732.QJ42 AQT54.QJ62.T6.87 J3.T9754.954.A96 762.3.AKQJ8.KT53\n\
        value 1 2 17 6 1153|N:K98.AK8.732.QJ42 AQT54.QJ62.T6.87 J3.T9754.954.A96 762.3.AKQJ8.KT53\n\
        value 1 2 22 3 171|N:K98.AK8.732.QJ42 AQT54.QJ62.T6.87 J3.T9754.954.A96 762.3.AKQJ8.KT53\n\
        value 1 2 27 5 128|N:K98.AK8.732.QJ42 AQT54.QJ62.T6.87 J3.T9754.954.A96 762.3.AKQJ8.KT53\n\
        value 1 2 32 2 42|N:K98.AK8.732.QJ42 AQT54.QJ62.T6.87 J3.T9754.954.A96 762.3.AKQJ8.KT53\n\
        value 1 2 38 0 33|N:K98.AK8.732.QJ42 AQT54.QJ62.T6.87 J3.T9754.954.A96 762.3.AKQJ8.KT53\n\
        value 1 2 43 0 10|N:K98.AK8.732.QJ42 AQT54.QJ62.T6.87 J3.T9754.954.A96 762.3.AKQJ8.KT53\n\
        value 1 2 47 0 4|N:K98.AK8.732.QJ42 AQT54.QJ62.T6.87 J3.T9754.954.A96 762.3.AKQJ8.KT53\n\
        value 1 2 50 1 3|N:K98.AK8.732.QJ42 AQT54.QJ62.T6.87 J3.T9754.954.A96 762.3.AKQJ8.KT53\n\
        value 1 2 51 0 2|N:K98.AK8.732.QJ42 AQT54.QJ62.T6.87 J3.T9754.954.A96 762.3.AKQJ8.KT53\n\
        scores 4 3 4 69 2669|N:K98.AK8.732.QJ42 AQT54.QJ62.T6.87 J3.T9754.954.A96 762.3.AKQJ8.KT53\n\
        scores 4 3 8 61 4593|N:K98.AK8.732.QJ42 AQT54.QJ62.T6.87 J3.T9754.954.A96 762.3.AKQJ8.KT53\n\
        scores 4 3 12 47 10323|N:K98.AK8.732.QJ42 AQT54.QJ62.T6.87 J3.T9754.954.A96 762.3.AKQJ8.KT53\n\
        scores 4 3 16 47 4433|N:K98.AK8.732.QJ42 AQT54.QJ62.T6.87 J3.T9754.954.A96 762.3.AKQJ8.KT53\n\
        scores 4 3 20 42 448|N:K98.AK8.732.QJ42 AQT54.QJ62.T6.87 J3.T9754.954.A96 762.3.AKQJ8.KT53\n\
        scores 4 3 24 29 554|N:K98.AK8.732.QJ42 AQT54.QJ62.T6.87 J3.T9754.954.A96 762.3.AKQJ8.KT53\n\
        scores 4 3 28 19 310|N:K98.AK8.732.QJ42 AQT54.QJ62.T6.87 J3.T9754.954.A96 762.3.AKQJ8.KT53\n\
        scores 4 3 32 14 276|N:K98.AK8.732.QJ42 AQT54.QJ62.T6.87 J3.T9754.954.A96 762.3.AKQJ8.KT53\n\
        scores 4 3 36 4 105|N:K98.AK8.732.QJ42 AQT54.QJ62.T6.87 J3.T9754.954.A96 762.3.AKQJ8.KT53\n\
        scores 4 3 40 1 22|N:K98.AK8.732.QJ42 AQT54.QJ62.T6.87 J3.T9754.954.A96 762.3.AKQJ8.KT53\n\
        scores 4 3 44 1 14|N:K98.AK8.732.QJ42 AQT54.QJ62.T6.87 J3.T9754.954.A96 762.3.AKQJ8.KT53\n\
        scores 4 3 48 0 1|N:K98.AK8.732.QJ42 AQT54.QJ62.T6.87 J3.T9754.954.A96 762.3.AKQJ8.KT53";
    search_each(&rt, rows)
}

// One to twelve cards a hand, many of them with voids, and tricks with one to three cards on them.
#[test]
fn endings_with_voids_take_as_many_positions(rt: HostRuntime) -> Result<(), AllocError> {
    let rows = b"value 4 2 0 1 1|N:...K .3.. ...J ..2.\n\
        scores 4 1 0 1 4|N:..2. .2.. ..4. 2...\n\
        value 1 0 0 1 1|N:.3.. ..2. .5.. ..Q.\n\
        first 4 3 0 0 1|N:8... 4... ..8. 5...\n\
        scores 0 2 0 1 4|N:2... ..8. .7.. ...5\n\
        value 3 2 0 2 13|N:..3.3 5...J .J..Q 2.2..\n\
        scores 3 3 0 2 5|N:..J8. .75.. ..K5. ...73\n\
        value 2 0 0 1 8|N:.4.3. .5..A .2..Q T.Q..\n\
        first 1 3 0 0 1|N:.43.. QT... ...J3 ..Q.5\n\
        scores 3 0 0 4 14|N:..5.8 6..4. .3.6. 5..3.\n\
        value 0 3 0 1 24|N:5.2.6. Q.7..T KT..9. ..Q.97\n\
        scores 2 2 0 2 23|N:.T97.. 4.3..8 2.AK.. ...AK2\n\
        value 0 0 0 3 1|N:Q5...5 .9.T.7 82...K 7.5..9\n\
        first 3 1 0 3 1|N:.A.J7. A87... 3.T7.. ..QT5.\n\
        scores 0 3 0 7 35|N:..853. 4..9.9 T.7..Q A7..7.\n\
        value 3 2 0 2 54|N:2.64.8. .82..J9 K9.A..6 .3.J94.\n\
        scores 0 3 0 11 43|N:Q.8.9.8 .2..732 .T765.. A2...KQ\n\
        value 2 0 0 4 10|N:T.5..A6 .4.T.94 4..Q86. 8.T.4.5\n\
        first 1 2 0 2 105|N:.KQ2..3 82...K9 3..JT6. 9.A7..6\n\
        scores 1 1 0 0 73|N:6.8.7.3 K3.6.K. .J9..Q9 .4.96.4\n\
        value 3 1 0 5 6|N:.KJ752.. 32.3.8.3 8..T63.8 9.A..J92\n\
        scores 1 3 0 7 299|N:.QJ.K85. J.9.J2.T 9743..4. .2.Q9.A9\n\
        value 4 1 0 3 45|N:.A4.8.AT AK5.T9.. Q.5.A95. 8.K.KQ.7\n\
        first 0 0 0 1 1|N:.Q.32.QJ 8.42..75 .K983.Q. AT63...2\n\
        scores 2 2 0 16 34|N:T.QJ4..K 8.9.73.4 A..65.J8 K73...97\n\
        value 3 2 0 4 64|N:QJ.9..T43 T9852...J .82.T652. K73.3.A.7\n\
        scores 0 0 0 21 416|N:.T98.4.Q4 T9..Q97.J AQ652..8. 43..5.652\n\
        value 1 2 0 6 41|N:6.K3.A.93 J8.J.4.JT A54.A7..A ..KQJ2.54\n\
        first 4 0 0 6 215|N:QT42..J7. 3.A62..AJ AKJ.KT3.. .Q85.T.T9\n\
        scores 2 1 0 2 186|N:Q.A.Q92.J .QT4.3.54 2.K.J5.K2 K97.62.8.\n\
        value 2 1 0 4 888|N:2.42.4.A43 J53.6.K3.5 7.3.Q87.K7 86.J95.J.Q\n\
        scores 3 3 0 30 2289|N:T6.Q.J743. AQ74.A.6.6 K5.4..JT82 82.63..K93\n\
        value 3 3 0 3 342|N:T42.A.Q.Q4 .98643.J.2 J765.K7.9. 3.Q.T64.AT\n\
        first 4 0 0 7 7|N:Q62..K.Q75 J73.764..A A9.J.J652. .T2..KJT43\n\
        scores 1 1 0 15 981|N:J4.K9.5.K2 K9..J7.J74 T7.T2.K.T9 6.7.Q8.A83\n\
        value 0 1 0 5 2751|N:AJ4.9.AT.62 Q3.K63..A98 86.J.Q7.K73 K5.T874.K3.\n\
        scores 0 2 0 46 7965|N:A93..Q7.AJ9 6..6.Q76532 .K8642..KT4 .T75.KJ432.\n\
        value 1 2 0 4 317|N:K9.K7.Q9.K2 T52.AT..T54 A.953.764.J 863..K52.A7\n\
        first 1 1 0 3 642|N:54.4.J872.6 T.6.K64.AQ2 .AQJ3.A.T54 AKQ763.5.T.\n\
        scores 4 1 0 2 1055|N:KT7.763.A.3 J543.5..976 .A.943.KQ84 9.KJ984..JT\n\
        value 1 2 0 8 1862|N:AKQT.653.J.4 962.7.T7.J75 J8.9.Q98.A96 74.2.A43.KT2\n\
        scores 3 2 0 10 3602|N:Q8.AQT86.97. .K3.3.AKQT92 T32.4.AT842. A65.72.KJ.65\n\
        value 0 3 0 7 489|N:AK4.43.K53.4 T96.A8.AJT.9 75.6.86.KQT6 J83.KT.972.A\n\
        first 1 2 0 8 68|N:AJ.T63.A.A93 T85432.9.7.5 .AQ87.52.KQT 9.K4.KJ843.J\n\
        scores 0 1 0 54 5067|N:72.2.KJ87.K7 K9.953..T843 Q4.4.AQ532.2 A63.Q8.T9.A5\n\
        value 2 3 0 5 7040|N:7.T74.A8.Q852 53.Q83.QT42.J AQJ8..95.KT97 K62.AJ965.6.3\n\
        scores 3 1 0 53 59799|N:KQJ864.84.J4. A2.KJ92..KQ83 .Q.KQT82.A965 975.A63.A7.42\n\
        value 4 1 0 10 19|N:JT9.Q6.863.J3 AK874..AK74.A Q63.KT42.J.85 .95.QT952.KQ7\n\
        first 1 2 0 3 7181|N:KT97.QT5.3.T3 J5.AK732.5.82 A2.64.KJ872.4 8..A96.QJ9765\n\
        scores 0 0 0 18 14256|N:543.74.KJ75.2 QT2.92.A9.A65 J86.J.QT2.T97 A.K8653.43.J4\n\
        value 3 1 0 9 36601|N:J952.J954.653. 3.K82.AJ42.Q62 864.A7.K9.J853 KQT.Q6.T8.AT94\n\
        scores 0 3 0 46 72137|N:AKT87.4.Q6.875 Q64.AKQ932.K4. .J8.A873.KT963 J3.7.J952.AQJ2\n\
        value 3 3 0 7 2561|N:QJ62.82.975.K8 T95.QT63.A.QJT K8.A.QJT842.A7 7.J975.K6.6432\n\
        first 4 1 0 7 1|N:A8.AQT5..AQJ54 T.4.AK63.98762 J9754.K963.7.T K32.8.QJ98542.\n\
        scores 1 1 0 108 804|N:J763.J72..T974 982.A84.T7.K86 KQT5.6.943.QJ3 .KQT3.AQJ62.A5\n\
        value 0 0 0 3 66696|N:A87.T9.Q853.J32 KQ32.A8752.KT.T 964.KQJ.97.Q976 JT.64.AJ62.AK84\n\
        scores 0 0 0 66 24008|N:8.Q853.KT4.Q976 A54.KT764.3.K32 KQJ962.A2.J.JT4 73.9.AQ97652.A8\n\
        value 0 3 0 4 83922|N:T.K64.KQT98.A72 A865.QT85.2.T63 9732.AJ97.A43.9 QJ.3.J765.QJ854\n\
        first 3 2 0 9 26406|N:AT874.6.4.AJ954 .AKT9843.T.Q762 Q9632..KQ97.KT3 J.QJ72.AJ8532.8\n\
        scores 0 1 0 31 29212|N:K54.Q7632.84.A8 972.T.KQJ53.KQ9 QT63.AK854.9.52 A8.J9.AT6.JT764\n\
        value 0 2 1 5 88|N:J4.7.A.Q QT...K94 ..J9852. 952.8..2\n\
        value 1 2 2 0 14|N:KT53.6.. A.KJ7..3 6..J32.9 ..K.AQ64\n\
        value 1 1 3 4 47|N:.A6.9.A2 Q54..7.3 AJ762... .Q4.KQ.4\n\
        value 0 3 1 2 83|N:..AK9642. 9.5.J.J65 87.3.7.84 .Q642.T.K\n\
        value 3 2 2 0 23|N:.T97.3.J3 K..A.AK52 .Q853..64 ..J852.T9\n\
        value 2 1 3 6 3|N:J5..JT32. 3...KQ983 64.K.Q64. .652.5.52\n\
        value 0 2 1 3 283|N:A7...T8632 .A82.JT73. 2.4.854.A9 KT64..Q.54\n\
        value 4 0 2 0 10|N:J9.74.K.54 A654.AJ3.. T3..AQJ76. KQ2.Q..KJ6\n\
        value 1 1 3 0 5|N:J6542.2..2 .8.KQ9865. AKQ987.7.. .KT5.A.JT6\n\
        value 0 1 1 0 7|N:.32.AQT53.T AK92.6.8.A5 5..KJ974.84 QT6.AQJ5.2.\n\
        value 2 2 2 8 8|N:7..AQJ53.T5 83.Q..AQ743 T52.KT4.64. .A8752..J92\n\
        value 4 2 3 8 7|N:.A7.KQT7.84 QT96..A3.K6 J4...QJT932 A.J6542.8.5\n\
        value 3 2 1 7 296|N:.65.AQJ653.A T9632.J8..Q7 AQJ7.43.T87. K85...KJT542\n\
        value 0 0 2 0 595|N:2..AT9753.K4 T.AK6.8.AQ75 85.Q9853..92 J97.J7.J4.J3\n\
        value 4 2 3 3 5|N:96.A.AK86.J8 KT43.T84..K3 A5.7.Q7.T642 .KJ96532.2.7\n\
        value 2 3 1 10 24|N:AJ7.T.KQ84.92 QT98.8653.2.J .AKQJ9.AJT3.3 K632.2..QT765\n\
        value 2 1 2 9 445|N:K75.962.72.K8 A.3.AQJT8543. 63.K5.9.AQ764 QT.J4..JT9532\n\
        value 2 2 3 2 7677|N:.Q8.A764.7432 52.J52.53.AT6 AK94.AT643..8 JT8763..K.KQJ";
    search_each(&rt, rows)
}

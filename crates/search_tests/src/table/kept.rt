use crate::table::positions::{BEHIND, CAUGHT, CAUGHT_ANSWER, LOWER, answers, start};
use dd_bounds::{Bounds, Endless, NoTable};
use dd_cache::Cache;
use dd_cards::{Card, Rank, Seat, Suit};
use dd_pbn::read_deal;
use dd_play::{Interval, TrickStart};
use dd_rank::OwnerStrings;
use dd_request::TableRequest;
use dd_search::start_value;
use dd_shard::Shard;
use dd_solve::solve_table;
use dd_table::SharedTable;
use std::alloc::AllocError;

// Remembers the value of the start of a trick, with the depths that it rests on.
fn remember_value(shard: &mut Shard, start: &TrickStart) -> Option<u8> {
    let (tricks, depths) = start_value(start, &mut NoTable, &mut Endless).ok()?;
    let interval = Interval {
        lo: tricks,
        hi: tricks,
    };
    shard.note(start, depths, interval).ok()?;
    Some(tricks)
}

#[test]
fn a_shape_keeps_a_value_for_each_cover(rt: HostRuntime) -> Result<(), AllocError> {
    let mut shard = Shard::new(rt.alloc(), 1)?;
    let caught = start(&rt, CAUGHT, Seat::North);
    let lower = start(&rt, LOWER, Seat::North);
    let behind = start(&rt, BEHIND, Seat::North);
    assert!(rt; remember_value(&mut shard, &caught) == Some(2));
    let (interval, depths) = shard.look(&lower).expect(&rt, "it is covered");
    assert!(rt; (interval.lo, interval.hi) == (2, 2));
    assert!(rt; depths.of(Suit::Spades) == 3, "ace, king and queen");
    assert!(rt; depths.of(Suit::Hearts) | depths.of(Suit::Diamonds) | depths.of(Suit::Clubs) == 0);
    assert!(rt;
        shard.look(&behind).is_none(),
        "the king is behind ace and queen"
    );
    assert!(rt; remember_value(&mut shard, &behind) == Some(1));
    assert!(rt; shard.len() == 1, "one shape");
    let (interval, _) = shard.look(&caught).expect(&rt, "its cover is there too");
    assert!(rt; (interval.lo, interval.hi) == (2, 2));
    let Some((newest, _, interval)) = shard.entry(0) else {
        panic!(rt; "one shape");
    };
    let king = Card {
        suit: Suit::Spades,
        rank: Rank::of(13),
    };
    assert!(rt;
        newest.position().hands().has(Seat::West, king),
        "the one noted last"
    );
    assert!(rt; (interval.lo, interval.hi) == (1, 1));
    Ok(())
}

#[test]
fn the_cache_and_the_table_behind_it_remember_a_solved_position(
    rt: HostRuntime,
) -> Result<(), AllocError> {
    let table = SharedTable::new(rt.alloc(), 1, 4096)?;
    let mut cache = Cache::new(rt.alloc(), table.view(&rt))?;
    assert!(rt; answers(&mut cache, CAUGHT, Seat::North, CAUGHT_ANSWER));
    let lower = start(&rt, LOWER, Seat::North);
    assert!(rt;
        cache.settle(&lower, &OwnerStrings::of(&lower), 2).is_some(),
        "the cache"
    );
    let (interval, _) = cache.behind().look(&lower).expect(&rt, "the table behind");
    assert!(rt; (interval.lo, interval.hi) == (2, 2));
    Ok(())
}

// Each search for a result then visits the deal itself and no more: with a budget of one position all are found, and they are the
// same.
#[test]
fn a_table_asked_again_is_known(rt: HostRuntime) -> Result<(), AllocError> {
    let deal = b"N:K82.A4.Q2. A43.K5.K3. QJT.Q2.A4. 765.J3.J5.";
    let hands = read_deal(deal).expect(&rt, "seven cards a hand");
    let request = TableRequest::new(hands).expect(&rt, "as many in each hand");
    let table = SharedTable::new(rt.alloc(), 1, 4096)?;
    let mut cache = Cache::new(rt.alloc(), table.view(&rt))?;
    assert!(rt; solve_table(&request, &mut cache, Some(1)).is_none());
    let first = solve_table(&request, &mut cache, None).expect(&rt, "no budget");
    let again = solve_table(&request, &mut cache, Some(1)).expect(&rt, "a position each");
    assert!(rt; first.as_slice() == again.as_slice());
    Ok(())
}

//! The positions that the tests ask of, and what solving them answers.
use dd_bounds::{Bounds, Endless};
use dd_cards::{Seat, Strain};
use dd_pbn::read_deal;
use dd_play::{Position, TrickStart};
use dd_request::Request;
use dd_solve::solve;
use dd_wire::write_answer;
use std::process::Abort;

/// A king that is caught before ace and queen: North's side takes two tricks, whatever card is led.
pub(crate) const CAUGHT: &str = "N:32... K4... AQ... 65...";

pub(crate) const CAUGHT_ANSWER: &str = r#"{"cards":[{"equals":4,"rank":3,"score":2,"suit":0}]}"#;

/// The same with other ranks in the same order.
pub(crate) const ALIKE: &str = "N:64... J7... AT... 98...";

/// The same with all seats turned by one place.
pub(crate) const TURNED: &str = "E:32... K4... AQ... 65...";

/// The same with other cards below the queen.
pub(crate) const LOWER: &str = "N:62... K3... AQ... 54...";

/// A king behind ace and queen: North's side takes one trick.
pub(crate) const BEHIND: &str = "N:32... 65... AQ... K4...";

pub(crate) const BEHIND_ANSWER: &str = r#"{"cards":[{"equals":4,"rank":3,"score":1,"suit":0}]}"#;

/// One card each, and North's takes the trick.
pub(crate) const ACE: &str = "N:A... K... Q... J...";

fn position(deal: &str, first: Seat) -> Option<Position> {
    let hands = read_deal(deal.as_bytes()).ok()?;
    Position::new(hands, Strain::Notrump, first, &[]).ok()
}

/// The start of a trick at notrump.
pub(crate) fn start(rt: &impl Abort, deal: &str, first: Seat) -> TrickStart {
    let position = position(deal, first).expect(rt, "a position");
    TrickStart::of(&position).expect(rt, "a start of a trick")
}

/// Does the answer for all classes over the table read so?
pub(crate) fn answers<B: Bounds>(table: &mut B, deal: &str, first: Seat, want: &str) -> bool {
    let Some(position) = position(deal, first) else {
        return false;
    };
    let Some(request) = Request::new(position, 3) else {
        return false;
    };
    match solve(request, table, &mut Endless) {
        Ok(solved) => write_answer(solved.answer()).as_str() == want,
        Err(_) => false,
    }
}

/// The bounds that the table tells of the start of a trick.
pub(crate) fn bounds_told<B: Bounds>(table: &mut B, start: &TrickStart) -> Option<(u8, u8)> {
    let (interval, _) = table.look(start)?;
    Some((interval.lo, interval.hi))
}

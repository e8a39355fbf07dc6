//! What a worker remembers of the part of a table that it solved last.
use dd_book::Outcome;
use dd_cards::Seat;

/// The result of the part of a table that a worker solved last. North and South take about as many tricks whoever of a strain
/// declares, so it is where the next search of the strain begins. It bears on the time alone.
#[derive(Clone, Copy)]
pub(crate) struct LastPart {
    job: u64,
    strain: u8,
    north_souths: u8,
}

impl LastPart {
    /// The tricks of North and South that the search for this part of this job begins near.
    pub(crate) fn guess(last: Option<LastPart>, job: u64, part: u8) -> Option<u8> {
        match last {
            Some(last) if last.job == job && last.strain == part / 4 => Some(last.north_souths),
            _ => None,
        }
    }

    /// What is remembered of an outcome.
    pub(crate) fn of(job: u64, outcome: &Outcome) -> Option<LastPart> {
        let Outcome::Part(solved) = outcome else {
            return None;
        };
        let (part, tricks) = (solved.part(), solved.tricks());
        let all = solved.request().hands().len(Seat::North);
        let declarer = Seat::from_code(part % 4)?;
        let north_souths = if declarer.is_north_south() {
            tricks
        } else {
            all.saturating_sub(tricks)
        };
        Some(LastPart {
            job,
            strain: part / 4,
            north_souths,
        })
    }
}

//! When a run is used up.
ghost use Rattle.std.specs.Prelude.{◌≡◌};
ghost use Rattle.dd_server.specs.Worn.{are_events_used, are_few_left, are_half_given, are_passes_used};

use dd_book::Limits;

/// Are three quarters of the events used, where one stands at this place? The last quarter is for
/// fetches and cancels, and for the first jobs of who was accepted before.
pub(crate) fn are_events_used(limits: Limits, place: u64) -> bool
    ensures { result ≡ are_events_used limits place }
{
    let most = limits.events();
    most - most / 4 - 1 <= place
}

/// Is no more than the last quarter of the events left, where so many are?
pub(crate) fn are_few_left(limits: Limits, left: u64) -> bool
    ensures { result ≡ are_few_left limits left }
{
    left <= limits.events() / 4
}

/// Are fifteen sixteenths of the passes given, where so many are?
pub(crate) fn are_passes_used(limits: Limits, passes: u64) -> bool
    ensures { result ≡ are_passes_used limits passes }
{
    let most = limits.passes();
    most - most / 16 <= passes
}

/// Is half of the passes given, where so many are?
pub(crate) fn are_half_given(limits: Limits, passes: u64) -> bool
    ensures { result ≡ are_half_given limits passes }
{
    let most = limits.passes();
    most - most / 2 <= passes
}

use crate::par_request::{ParOfDeal, ParOfResults};
use dd_request::Asked;

/// What a line of the line tool asks.
#[derive(Drop)]
pub enum LineAsked {
    /// A question of the cards of a position, a deal or a play, which a job book takes too.
    Cards(Asked),
    /// Par of twenty results.
    Par(ParOfResults),
    /// Par of the results of a deal.
    ParOfDeal(ParOfDeal),
}

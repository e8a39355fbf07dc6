use thiserror::Error;

/// Why four hands and the cards on the trick are no position, in the order in which the faults are looked for.
#[derive(Clone, Copy, Debug, PartialEq, Eq, Error)]
pub enum PlayFault {
    /// More than three cards are on the trick.
    #[error("more than three cards on the trick")]
    Played,
    /// A card stands twice among the hands and the trick.
    #[error("a card stands twice")]
    Twice,
    /// The numbers of cards do not fit: a hand that has played to the trick holds one card fewer than each that has not.
    #[error("the hands do not have the right numbers of cards")]
    Uneven,
    /// The hand to play has no card.
    #[error("no card to play")]
    Empty,
}

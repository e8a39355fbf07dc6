use thiserror::Error;

/// Why a card of a play may not be played in its turn, in the order in which the faults are looked for.
#[derive(Clone, Copy, Debug, PartialEq, Eq, Error)]
pub enum CardFault {
    /// No card is left to play.
    #[error("a card after the last")]
    AfterLast,
    /// The hand that is to play does not hold it.
    #[error("the hand to play does not hold the card")]
    NotInHand,
    /// It is not of the suit led, of which the hand holds a card.
    #[error("the card is not of the suit led, which the hand holds")]
    Revoke,
}

use thiserror::Error;

/// Why a text spells no deal.
#[derive(Clone, Copy, Debug, PartialEq, Eq, Error)]
pub enum PbnFault {
    /// The text has not the form of a deal.
    #[error("the text has not the form of a deal")]
    Grammar,
    /// A hand is left out.
    #[error("a hand is left out")]
    Absent,
    /// A card stands twice, in one hand or in two.
    #[error("a card stands twice")]
    Twice,
}

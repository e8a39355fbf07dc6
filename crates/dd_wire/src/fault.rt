ghost use Rattle.std.specs.Prelude.{◌≡◌, ◌≤◌};
ghost use Rattle.dd_wire.specs.Faults.{fault_number};

use dd_request::fault_numbers;
use thiserror::Error;

/// Why a request line has no answer, each with its number in a reply. They stand in the order in which they are looked
/// for, and a line is answered with the first that it has. A card that stands twice is looked for twice: in the deal
/// alone, where `CardTwice` stands here, and with the cards played, between `WrongTarget` and `UnevenHands`.
#[derive(Clone, Copy, Debug, PartialEq, Eq, Error)]
pub enum Fault {
    /// 2: the line is over 4,096 bytes.
    #[error("the line is over 4,096 bytes")]
    LineTooLong,
    /// 1: the line is no JSON object.
    #[error("the line is no JSON object")]
    NotAnObject,
    /// 3: a field is missing, unknown or of the wrong kind.
    #[error("a field is missing, unknown or of the wrong kind")]
    WrongField,
    /// 4: the text of the deal is outside the grammar.
    #[error("the text of the deal is outside the grammar")]
    DealText,
    /// 5: a hand of the deal is left out.
    #[error("a hand of the deal is left out")]
    HandLeftOut,
    /// 6: a card stands twice, in the hands or on the trick.
    #[error("a card stands twice")]
    CardTwice,
    /// 9: the trump is not 0 to 4.
    #[error("the trump is not 0 to 4")]
    WrongTrump,
    /// 10: the first seat is not 0 to 3.
    #[error("the first seat is not 0 to 3")]
    WrongFirst,
    /// 11: the cards played are more than three, or one of them is no card.
    #[error("the cards played are more than three, or one of them is no card")]
    WrongPlayed,
    /// 12: the solutions are not 1 to 3.
    #[error("the solutions are not 1 to 3")]
    WrongSolutions,
    /// 20: the dealer is not 0 to 3, or the side that is asked first not 0 or 1.
    #[error("the dealer is not 0 to 3, or the side not 0 or 1")]
    WrongOrder,
    /// 21: the vulnerability is not 0 to 3.
    #[error("the vulnerability is not 0 to 3")]
    WrongVulnerable,
    /// 22: one of the results is over 13.
    #[error("a result is over 13")]
    WrongResult,
    /// 27: the target is over 13.
    #[error("the target is over 13")]
    WrongTarget,
    /// 7: the hands have not the cards that they have at one point of play.
    #[error("the counts of cards are uneven")]
    UnevenHands,
    /// 8: the mover has no card.
    #[error("there is no card to play")]
    NoCard,
    /// 23: the hands are not of thirteen cards.
    #[error("the hands are not of thirteen cards")]
    NotThirteen,
    /// 26: a card of a play comes after the last.
    #[error("a card after the last")]
    AfterLast,
    /// 24: a card of a play isn't in the hand that is to play it.
    #[error("the hand to play does not hold the card")]
    NotInHand,
    /// 25: a card of a play isn't of the suit led, which the hand has.
    #[error("the card is not of the suit led, which the hand holds")]
    Revoke,
    /// 19: memory ran out while the line was read as JSON.
    #[error("out of memory")]
    OutOfMemory,
}

impl Fault {
    /// The number of the fault in a reply.
    pub fn number(self) -> u8
        ensures value { result ≡ fault_number self }
        ensures bound { result ≤ 27 }
    {
        match self {
            Fault::NotAnObject => fault_numbers::NOT_AN_OBJECT,
            Fault::LineTooLong => fault_numbers::LINE_TOO_LONG,
            Fault::WrongField => fault_numbers::WRONG_FIELD,
            Fault::DealText => fault_numbers::DEAL_TEXT,
            Fault::HandLeftOut => fault_numbers::HAND_LEFT_OUT,
            Fault::CardTwice => fault_numbers::CARD_TWICE,
            Fault::UnevenHands => fault_numbers::UNEVEN_HANDS,
            Fault::NoCard => fault_numbers::NO_CARD,
            Fault::WrongTrump => fault_numbers::WRONG_TRUMP,
            Fault::WrongFirst => fault_numbers::WRONG_FIRST,
            Fault::WrongPlayed => fault_numbers::WRONG_PLAYED,
            Fault::WrongSolutions => fault_numbers::WRONG_SOLUTIONS,
            Fault::WrongTarget => fault_numbers::WRONG_TARGET,
            Fault::OutOfMemory => fault_numbers::OUT_OF_MEMORY,
            Fault::WrongOrder => fault_numbers::WRONG_ORDER,
            Fault::WrongVulnerable => fault_numbers::WRONG_VULNERABLE,
            Fault::WrongResult => fault_numbers::WRONG_RESULT,
            Fault::NotThirteen => fault_numbers::NOT_THIRTEEN,
            Fault::NotInHand => fault_numbers::NOT_IN_HAND,
            Fault::Revoke => fault_numbers::REVOKE,
            Fault::AfterLast => fault_numbers::AFTER_LAST,
        }
    }
}

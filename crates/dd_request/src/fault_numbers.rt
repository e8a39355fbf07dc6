//! The numbers of all faults, as reply lines tell them. Each crate that has a fault takes its number from here.

/// The line is no JSON object.
pub const NOT_AN_OBJECT: u8 = 1;

/// The line is over 4,096 bytes.
pub const LINE_TOO_LONG: u8 = 2;

/// A field is missing, unknown or of the wrong kind.
pub const WRONG_FIELD: u8 = 3;

/// The text of the deal is outside the grammar.
pub const DEAL_TEXT: u8 = 4;

/// A hand of the deal is left out.
pub const HAND_LEFT_OUT: u8 = 5;

/// A card stands twice, in the hands or on the trick.
pub const CARD_TWICE: u8 = 6;

/// The hands have not the cards that they have at one point of play.
pub const UNEVEN_HANDS: u8 = 7;

/// There is no card to play.
pub const NO_CARD: u8 = 8;

/// The trump is not 0 to 4.
pub const WRONG_TRUMP: u8 = 9;

/// The first seat is not 0 to 3.
pub const WRONG_FIRST: u8 = 10;

/// The cards played are more than three, or one of them is no card.
pub const WRONG_PLAYED: u8 = 11;

/// The solutions are not 1 to 3.
pub const WRONG_SOLUTIONS: u8 = 12;

/// The caller has as many open jobs as it may.
pub const OPEN_JOBS: u8 = 13;

/// The run has as many jobs, or as many connections, as it may.
pub const RUN_FULL: u8 = 14;

/// The journal holds as many events as it may.
pub const JOURNAL_FULL: u8 = 15;

/// The caller has no job of this number.
pub const UNKNOWN_JOB: u8 = 16;

/// The job has ended.
pub const JOB_ENDED: u8 = 17;

/// The book is closing and takes no more jobs.
pub const SHUTTING_DOWN: u8 = 18;

/// Memory ran out.
pub const OUT_OF_MEMORY: u8 = 19;

/// The dealer is not 0 to 3, or the side that is asked first not 0 or 1.
pub const WRONG_ORDER: u8 = 20;

/// The vulnerability is not 0 to 3.
pub const WRONG_VULNERABLE: u8 = 21;

/// One of the results is over 13.
pub const WRONG_RESULT: u8 = 22;

/// The hands are not of thirteen cards.
pub const NOT_THIRTEEN: u8 = 23;

/// A card of a play is not in the hand that is to play it.
pub const NOT_IN_HAND: u8 = 24;

/// A card of a play is not of the suit led, which the hand has.
pub const REVOKE: u8 = 25;

/// A play has a card after the last.
pub const AFTER_LAST: u8 = 26;

/// The target is over 13.
pub const WRONG_TARGET: u8 = 27;

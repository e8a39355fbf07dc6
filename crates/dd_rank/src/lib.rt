//! Which positions differ only in the ranks of their cards, and perhaps in a turn of the seats: in all suits, or as far as
//! the highest cards of each suit go.
#![tactic(auto)]

mod cover;
mod covering;
mod depths;
mod first_owners;
mod four_highest;
mod lanes;
mod laws;
mod likeness;
mod owner_strings;
mod rank_key;
mod shape;
mod signature;

pub use cover::Cover;
pub use covering::covers;
pub use depths::Depths;
pub use first_owners::FirstOwners;
pub use four_highest::{FirstFour, FirstFours, FourHighest};
pub use laws::{alike_claims, alike_positions, alike_strings, covered_positions};
pub use likeness::are_alike;
pub use owner_strings::OwnerStrings;
pub use rank_key::RankKey;
pub use shape::Shape;
pub use signature::{FirstSignature, FirstSignatures, Signature, TwoHighest};

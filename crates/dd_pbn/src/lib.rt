//! Texts of deals, as in the tag Deal of PBN 2.1.
#![tactic(auto)]

mod fault;
mod hands_so_far;
mod laws;
mod letters;
mod reading;
mod writing;

pub use fault::PbnFault;
pub use laws::{one_deal, one_deal_of_a_tag, worked_texts, written_is_read};
pub use reading::{begins_tag, read_deal, read_tag};
pub use writing::write_deal;

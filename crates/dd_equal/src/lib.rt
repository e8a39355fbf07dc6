//! Classes of equal cards of a position. It takes no memory.
#![tactic(auto)]

mod class;
mod highest;
mod laws;
mod legal_cards;
mod partition;
mod whole_classes;

pub use class::Class;
pub use highest::tops_at;
pub use laws::{
    classes_part_the_legal_cards, equal_cards_score_alike, one_card_of_each_class,
    one_card_of_each_class_by_high_cards,
};
pub use legal_cards::legal;
pub use partition::{classes, list_classes};
pub use whole_classes::whole_at;

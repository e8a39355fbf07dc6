//! Files of PBN 2.1 with the twenty results and par of each deal added, and nothing else changed.
#![tactic(auto)]

mod analyst;
mod engine;
mod fill_state;
mod filler;
mod foreseer;
mod found_lines;
mod kept;
mod known_tag;
mod lanes;
mod laws;
mod line_text;
mod mark;
mod mode;
mod quiet;
mod tag_reader;
mod told_texts;
mod value;
mod wanted;

pub use analyst::{Analyst, DealFault, Reason};
pub use engine::{FileFault, fill_file};
pub use laws::{
    filling_again_adds_nothing, filling_keeps_the_file, it_is_told_of_games_that_lack_a_line,
};
pub use wanted::Wanted;

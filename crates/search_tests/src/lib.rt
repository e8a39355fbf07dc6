//! Tests of cards, texts of deals, play, likeness, relative ranks, quick tricks and tables, by their public surfaces.
#![tactic(auto)]

#[cfg(test)]
mod cache;
#[cfg(test)]
mod cards;
#[cfg(test)]
mod equal;
#[cfg(test)]
mod forms;
#[cfg(test)]
mod pbn;
#[cfg(test)]
mod play;
#[cfg(test)]
mod quick;
#[cfg(test)]
mod rank;
#[cfg(test)]
mod relative;
#[cfg(test)]
mod rows;
#[cfg(test)]
mod scores;
#[cfg(test)]
mod search;
#[cfg(test)]
mod shard;
#[cfg(test)]
mod signatures;
#[cfg(test)]
mod table;
#[cfg(test)]
mod ticks;

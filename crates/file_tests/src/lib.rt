//! Tests of scores, of par and of files with added lines, by the public surfaces of `dd_score`, `dd_file` and `dd_fill`.
#![tactic(auto)]

#[cfg(test)]
mod ahead;
#[cfg(test)]
mod boards;
#[cfg(test)]
mod byte_by_byte;
#[cfg(test)]
mod deals;
#[cfg(test)]
mod devices;
#[cfg(test)]
mod drawn;
#[cfg(test)]
mod faults;
#[cfg(test)]
mod files;
#[cfg(test)]
mod order;
#[cfg(test)]
mod score;
#[cfg(test)]
mod unknown;

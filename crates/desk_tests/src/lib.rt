//! Tests of the desk and of the workers, by their public surfaces.
#![tactic(auto)]

#[cfg(test)]
mod desk;
#[cfg(test)]
mod work;

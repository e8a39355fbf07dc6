//! Tests of scores and par.
mod par;
mod points;

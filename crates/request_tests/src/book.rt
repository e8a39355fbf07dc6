//! Tests of the job book, and the plain forms of its calls and replies.
#[cfg(test)]
mod counted;
#[cfg(test)]
mod counts;
pub mod drawn;
pub mod made;
#[cfg(test)]
mod many;
#[cfg(test)]
mod refused;
pub mod second;
#[cfg(test)]
mod seeded;
pub mod words;
#[cfg(test)]
mod worked;

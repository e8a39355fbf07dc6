//! Lines and their replies, as tables of bytes: the proof of a test then meets one literal and one loop, and not each
//! row, nor that a text is UTF-8.
mod explained;
mod meanings;
mod par;
mod plays;
mod recorded;
mod solving;
mod spelled;
mod tables;
mod two_forms;
mod worked;

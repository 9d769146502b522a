//! Joined trees: without junk, and with each text of a pattern that is one LF and directly follows a text which does
//! not end in LF appended to that text.
mod entries;
mod patterns;
mod texts;

pub use entries::joined;

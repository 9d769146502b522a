//! Tests of the libraries of trees, in a module for each crate: what only a caller in Rattle can ask, and each public
//! call once. Tables of texts with answers are data of `fluent_syntax_checks`. Also what other crates' tests compare
//! with.
#![tactic(auto)]

/// A table with a row on a line, which `rt fmt` leaves as it is.
macro_rules! table {
    ($($($cell:expr),+;)*) => { &[$(($($cell),+)),*] };
}

pub mod alike;
#[cfg(test)]
mod edits;
#[cfg(test)]
mod json;
#[cfg(test)]
mod made;
#[cfg(test)]
mod names;
#[cfg(test)]
mod parser;
#[cfg(test)]
mod surface;
#[cfg(test)]
mod tree;
#[cfg(test)]
mod writer;

//! The tree that a value spells.

pub mod entries;
mod fields;
mod names;
mod patterns;

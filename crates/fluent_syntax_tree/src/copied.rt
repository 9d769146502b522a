//! Trees made of trees: each text by a way of its own, all else the same.
pub mod entries;
pub mod names;
pub mod patterns;

//! The JSON form of each node.

pub mod entries;
mod names;
mod patterns;

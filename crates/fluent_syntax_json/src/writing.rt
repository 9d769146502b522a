//! Trees written as JSON text, with no value made of them.
pub mod body_writer;
pub mod entries;
mod escapes;
mod names;
mod patterns;
mod tokens;

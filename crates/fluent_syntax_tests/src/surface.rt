//! The public surface: `fluent_syntax`.

mod lines;
mod round_trip;
mod trees;
mod types;

//! Edits of texts.

mod additions;
mod calls;
mod numbers;
mod several;

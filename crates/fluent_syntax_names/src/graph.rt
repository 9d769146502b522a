//! Which nodes of a directed graph lie on a cycle together.
mod certificate;
mod component_numbers;
mod search;

pub use component_numbers::components;

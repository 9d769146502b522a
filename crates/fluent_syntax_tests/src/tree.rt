//! Trees, their texts, and the kinds of errors.

mod copies;
mod kinds;
mod slices;

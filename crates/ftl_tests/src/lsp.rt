//! Tests of the language server: places, documents, frames and phases, and sessions whose writer fails.
mod documents;
mod phases;
mod places;
mod sessions;

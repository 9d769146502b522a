//! JSON of trees.

mod forms;
pub(crate) mod written;

//! JSON values of trees.
//!
//! `to_value` gives the JSON form of a resource, and `from_value` the resource that a value spells. `write_to` writes
//! the text of the form with no value made, and `BodyWriter` writes it of entries that come one by one.
#![tactic(auto)]

mod fault;
mod form;
mod laws;
mod object;
mod reading;
mod writing;

pub use fault::ValueFault;
pub use form::entries::to_value;
pub use laws::form_reads;
pub use reading::entries::from_value;
pub use writing::body_writer::BodyWriter;
pub use writing::entries::write_to;

//! The calls of the parser.

mod one_by_one;
mod reading;
mod spans;
mod within;

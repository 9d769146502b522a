//! What a call may answer where a request of it was refused.

use fluent_syntax::ast::Resource;
use fluent_syntax::parser::ParseFault;
use fluent_syntax::unicode::SinkError;
use fluent_syntax_json::ValueFault;
use ftl::{Outcome, RunFault};
use std::alloc::AllocError;

/// An answer of a call, next to the one that it gives with ample memory.
pub trait Answer {
    /// Whether it is the answer with ample memory.
    fn is_same(&self, ample: &Self) -> bool;

    /// Whether it is want of memory in the call's own form, and left no more than it may.
    fn is_want_of_memory(&self, ample: &Self) -> bool;
}

impl<T: PartialEq> Answer for Result<T, AllocError> {
    fn is_same(&self, ample: &Self) -> bool {
        match (self, ample) {
            (Ok(answer), Ok(ample)) => answer == ample,
            _ => false,
        }
    }

    fn is_want_of_memory(&self, _ample: &Self) -> bool {
        self.is_err()
    }
}

impl<S: PartialEq> Answer for Result<Resource<S>, ParseFault<S>> {
    fn is_same(&self, ample: &Self) -> bool {
        !self.is_want_of_memory(ample) && self == ample
    }

    fn is_want_of_memory(&self, _ample: &Self) -> bool {
        matches!(self, Err(ParseFault::Memory))
    }
}

impl Answer for Result<Resource<String>, ValueFault> {
    fn is_same(&self, ample: &Self) -> bool {
        !self.is_want_of_memory(ample) && self == ample
    }

    fn is_want_of_memory(&self, _ample: &Self) -> bool {
        matches!(self, Err(ValueFault::Memory))
    }
}

impl Answer for Result<(String, Outcome), RunFault> {
    fn is_same(&self, ample: &Self) -> bool {
        !self.is_want_of_memory(ample) && self == ample
    }

    fn is_want_of_memory(&self, _ample: &Self) -> bool {
        matches!(self, Err(RunFault::Memory))
    }
}

/// A sink that held a text, and what was answered for it.
#[derive(Drop)]
pub struct Sunk {
    pub answer: Result<(), SinkError>,
    pub sink: String,
}

/// What each sink holds before the call.
pub const HELD: &str = "\r";

impl Answer for Sunk {
    fn is_same(&self, ample: &Self) -> bool {
        self.answer.is_ok() && ample.answer.is_ok() && self.sink.as_str() == ample.sink.as_str()
    }

    fn is_want_of_memory(&self, ample: &Self) -> bool {
        let sink = self.sink.as_str();
        self.answer.is_err() && sink.starts_with(HELD) && ample.sink.as_str().starts_with(sink)
    }
}

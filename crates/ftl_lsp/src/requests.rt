//! What requests ask for.

pub mod actions;
pub mod candidates;
pub mod completion;
pub mod expected_names;
pub mod folding;
pub mod formatting;
pub mod hover;
pub mod nesting;
pub mod original_names;
pub mod places;
pub mod range_formatting;
pub mod renaming;
pub mod request_context;
pub mod responses;
pub mod selection_ranges;
pub mod semantic_tokens;
pub mod symbol_forms;
pub mod symbols;
pub mod token;
pub mod token_patterns;
pub mod tokens;

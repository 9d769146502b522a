//! Tests of the program, in a module for each crate: the engine for one text, files, runs over files, and the language
//! server.
#![tactic(auto)]

#[cfg(test)]
mod engine;
#[cfg(test)]
mod files;
#[cfg(test)]
mod lsp;
#[cfg(test)]
mod project;

//! Tests of files: on the disk and in memory, as calls fail; paths, languages, and what an `ftl.toml` says.
mod disk;
mod languages;
mod memory;
mod paths;
mod reading;
mod settings;
mod shelf;
mod uris;

//! Tests of runs over files: an output that fails, how a run is summed up, and excerpts of a place where no error is.
mod excerpts;
mod runs;

//! The words of the command line.

use crate::messages::{refuse, refuse_words};
use ftl::RunFault;
use std::env;
use std::io::ErrorKind;
use std::rt::Env;

/// The words, the program's own name first; or an exit status, where one is not UTF-8 or memory was refused.
pub(crate) fn all_args<R: Env + Eprint + AllocGlobal>(rt: &R) -> Result<Vec<String>, u8> {
    let memory = RunFault::Memory;
    let words = match env::args(rt) {
        Ok(words) => words.collect(rt.alloc()),
        Err(error) if error.kind() == ErrorKind::InvalidData => {
            return Err(refuse_words(rt, "ftl: a word is not UTF-8", ""));
        }
        Err(_) => return Err(refuse(rt, memory.line(), memory.status())),
    };
    match words {
        Ok(words) => Ok(words),
        Err(_) => Err(refuse(rt, memory.line(), memory.status())),
    }
}

//! The words of the command line.

use ftl_lsp::Ending;
use std::env;
use std::io::ErrorKind;
use std::rt::Env;

/// The status for wrong words.
const WRONG_ARGS: u8 = 2;

/// What the words ask for.
pub(crate) enum Request {
    /// To serve an editor.
    Serve,
    /// To print the help.
    Help,
}

/// What the words ask for; or the exit status, once it is reported that they are wrong, or that memory was refused.
pub(crate) fn request_of<R: Env + Eprint + AllocGlobal>(rt: &R) -> Result<Request, u8> {
    let words = all_args(rt)?;
    match words.as_slice() {
        [_, word] if word.as_str() == "--help" || word.as_str() == "-h" => Ok(Request::Help),
        [_, word, ..] => Err(refuse_arg(rt, word.as_str())),
        _ => Ok(Request::Serve),
    }
}

/// The words, the program's own name first.
fn all_args<R: Env + Eprint + AllocGlobal>(rt: &R) -> Result<Vec<String>, u8> {
    let words = match env::args(rt) {
        Ok(words) => words.collect(rt.alloc()),
        Err(error) if error.kind() == ErrorKind::InvalidData => {
            let _ = rt.eprintln("ftl-lsp: a word is not UTF-8");
            return Err(refuse_args(rt));
        }
        Err(_) => return Err(refuse_memory(rt)),
    };
    match words {
        Ok(words) => Ok(words),
        Err(_) => Err(refuse_memory(rt)),
    }
}

fn refuse_arg<R: Eprint>(rt: &R, word: &str) -> u8 {
    let _ = eprintln!(rt; "ftl-lsp: unexpected argument '{word}' found");
    refuse_args(rt)
}

fn refuse_args<R: Eprint>(rt: &R) -> u8 {
    let _ = rt.eprintln("usage: ftl-lsp");
    WRONG_ARGS
}

fn refuse_memory<R: Eprint>(rt: &R) -> u8 {
    let _ = rt.eprintln(Ending::Memory.line());
    Ending::Memory.status()
}

//! `ftl-lsp`: a language server for Fluent Translation Lists, over standard input and output.
#![tactic(auto)]

mod args;

use crate::args::{Request, request_of};
use ftl::Watched;
use ftl_files::Disk;
use ftl_lsp::{Ending, serve};
use std::io;
use std::process::ExitCode;
use std::rt::Files;

const HELP: &str = "\
    A language server, for editors\n\
    \n\
    Usage: ftl-lsp\n\
    \n\
    Options:\n\
    \x20 -h, --help  Print help\n";

fn main(rt: HostRuntime) -> ExitCode {
    ExitCode::from(match request_of(&rt) {
        Ok(Request::Serve) => end(&rt, serve_editor(&rt)),
        Ok(Request::Help) => print_help(&rt),
        Err(status) => status,
    })
}

/// Serves an editor over standard input and output, and says how that ended.
fn serve_editor<R>(rt: &R) -> Ending
where
    R: Input + Print + Files + AllocGlobal + Clone + Drop,
{
    let mut reader = Watched::new(rt.reader());
    let mut writer = io::writer(rt);
    serve(rt.alloc(), &mut reader, &mut writer, &Disk::new(rt))
}

/// Reports how a session ended, where that was no exit, and gives the exit status.
fn end<R: Eprint>(rt: &R, ending: Ending) -> u8 {
    if !ending.line().is_empty() {
        let _ = rt.eprintln(ending.line());
    }
    ending.status()
}

fn print_help<R: Print + Eprint>(rt: &R) -> u8 {
    match rt.print(HELP) {
        Ok(_) => 0,
        Err(_) => end(rt, Ending::Output),
    }
}

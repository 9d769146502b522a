//! What the program says by itself.

use clap::Error;
use ftl::RunFault;
use ftl_args::{mistake, status_of, usage_of};
use ftl_project::Tally;
use std::alloc::AllocError;

/// The status for wrong words.
pub(crate) const WRONG_ARGS: u8 = 2;

/// Writes the line to standard error, and gives the exit status back.
pub(crate) fn refuse<R: Eprint>(rt: &R, line: &str, status: u8) -> u8 {
    let _ = rt.eprintln(line);
    status
}

/// Reports why a run stopped, and gives its exit status.
pub(crate) fn refuse_run<R: Eprint>(rt: &R, fault: RunFault) -> u8 {
    refuse(rt, fault.line(), fault.status())
}

/// The exit status of a run; where it stopped, the reason is reported.
pub(crate) fn run_status<R: Eprint>(rt: &R, ended: Result<u8, RunFault>) -> u8 {
    match ended {
        Ok(status) => status,
        Err(fault) => refuse_run(rt, fault),
    }
}

/// Reports what a run met, on a line, and gives the exit status.
pub(crate) fn end_run<R: Eprint>(rt: &R, tally: &Tally, summary: Result<String, AllocError>) -> u8 {
    match summary {
        // where no file was answered, the reason was reported
        Ok(_) if tally.files == 0 && tally.fault != 0 => tally.status(),
        Ok(line) => {
            let _ = rt.eprint(line.as_str());
            tally.status()
        }
        Err(AllocError) => refuse_run(rt, RunFault::Memory),
    }
}

/// Writes the page to standard output, and gives the exit status.
pub(crate) fn print_page<R: Print + Eprint>(rt: &R, page: &str) -> u8 {
    match rt.print(page) {
        Ok(_) => 0,
        Err(_) => refuse_run(rt, RunFault::Output),
    }
}

/// Writes the help of a word that was asked for; or reports what is wrong with the words. The exit status.
pub(crate) fn refuse_args<R: Print + Eprint + AllocGlobal>(
    rt: &R,
    words: &[String],
    error: &Error,
) -> u8 {
    let status = status_of(error);
    if status == 0 {
        return match error.print(rt) {
            Ok(()) => 0,
            Err(_) => refuse_run(rt, RunFault::Output),
        };
    }
    match mistake(rt.alloc(), words, error) {
        Ok(lines) if status == WRONG_ARGS => refuse(rt, lines.as_str(), WRONG_ARGS),
        _ => refuse_run(rt, RunFault::Memory),
    }
}

/// Reports what is wrong with the words, and how the word is called, or which words there are.
pub(crate) fn refuse_words<R: Eprint + AllocGlobal>(rt: &R, line: &str, word: &str) -> u8 {
    let _ = rt.eprintln(line);
    match usage_of(rt.alloc(), word) {
        Ok(usage) => refuse(rt, usage.as_str(), WRONG_ARGS),
        Err(AllocError) => refuse_run(rt, RunFault::Memory),
    }
}

/// Reports that there is nothing to compare with the reference.
pub(crate) fn report_nothing_to_compare<R: Eprint + AllocGlobal>(rt: &R) -> u8 {
    let line =
        "ftl: compare wants a reference, and what to compare with it: `ftl compare en de`; or in a file ftl.toml \
        the line: reference = \"en\"";
    refuse_words(rt, line, "compare")
}

/// Reports that the word, which names or compares files, reads no standard input.
pub(crate) fn refuse_input<R: Eprint + AllocGlobal>(rt: &R, word: &str) -> u8 {
    match format!(in rt.alloc(); "ftl: {word} takes files and folders, and not standard input") {
        Ok(line) => refuse_words(rt, line.as_str(), word),
        Err(AllocError) => refuse_run(rt, RunFault::Memory),
    }
}

/// Reports that the language server is another program.
pub(crate) fn refuse_serving<R: Eprint + AllocGlobal>(rt: &R) -> u8 {
    let line =
        "ftl: the language server is the program ftl-lsp, which a checkout installs by: ./ftl install FOLDER lsp";
    refuse_words(rt, line, "")
}

/// Reports that standard input is no file to be written or named.
pub(crate) fn report_unwritable_input<R: Eprint + AllocGlobal>(rt: &R) -> u8 {
    refuse_words(
        rt,
        "ftl: --check, --diff and --write want a path, which is - for standard input, but not with --write",
        "format",
    )
}

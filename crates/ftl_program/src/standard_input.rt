//! Standard input, answered on standard output.

use crate::messages::{refuse, refuse_run};
use fluent_syntax::parser::TooDeep;
use fluent_syntax::spans::Halt;
use ftl::{
    Command, Formatted, Outcome, RunFault, Watched, formatted_keeping, formatted_within, run_within,
};
use ftl_args::{Task, Work};
use ftl_project::{BlankLines, Reading, lossy_note, note_line};
use simdutf8::basic::from_utf8;
use std::io;
use std::io::{ErrorKind, IsTerminal, Read};

/// The status for a text that nests too deep.
const TOO_DEEP: u8 = 6;

const NESTS_DEEPER: &str = "ftl: nests deeper than --nesting allows";

/// Answers standard input on standard output, and gives the exit status.
pub(crate) fn answer_input(rt: &HostRuntime, work: &Work<'_>) -> u8 {
    print_terminal_hint(rt);
    let Some(command) = work.task.command(work.options.reading().edition) else {
        return refuse_run(rt, RunFault::Input);
    };
    match work.task {
        Task::Format(_) => format_input(rt, work),
        _ => answer_reader(rt, command, work, rt.reader()),
    }
}

/// Says that it waits for input, where a person has to type it.
pub(crate) fn print_terminal_hint(rt: &HostRuntime) {
    if rt.reader().is_terminal() {
        let _ = rt.eprintln("ftl: reading standard input; end it with Ctrl-D");
    }
}

/// Answers what the reader gives.
fn answer_reader<R: Print + Eprint + AllocGlobal, I: Read + Drop>(
    rt: &R,
    command: Command,
    work: &Work<'_>,
    input: I,
) -> u8 {
    let mut reader = Watched::new(input);
    let mut writer = Watched::new(io::writer(rt));
    let ended = run_within(
        rt.alloc(),
        command,
        work.options.reading().nesting,
        &mut reader,
        &mut writer,
    );
    match ended {
        Ok(Ok(outcome)) => {
            if command == Command::Runtime {
                warn_of_errors(rt, work, outcome);
            }
            outcome.status()
        }
        Ok(Err(fault)) => refuse_run(rt, fault),
        Err(TooDeep) => refuse(rt, NESTS_DEEPER, TOO_DEEP),
    }
}

/// Formats standard input, and reports where the text would not read back.
fn format_input<R: Input + Print + Eprint + AllocGlobal>(rt: &R, work: &Work<'_>) -> u8 {
    let input = match all_input(rt) {
        Ok(input) => input,
        Err(fault) => return refuse_run(rt, fault),
    };
    let Ok(text) = from_utf8(input.as_slice()) else {
        return refuse_run(rt, RunFault::Input);
    };
    let Reading { edition, nesting } = work.options.reading();
    let formatted = match work.options.blank_lines() {
        BlankLines::Normal => formatted_within(rt.alloc(), text, edition, nesting),
        BlankLines::Keep => formatted_keeping(rt.alloc(), text, edition, nesting),
    };
    match formatted {
        Ok(formatted) => put_formatted(rt, &formatted, text, work),
        Err(Halt::Memory) => refuse_run(rt, RunFault::Memory),
        Err(Halt::TooDeep) => refuse(rt, NESTS_DEEPER, TOO_DEEP),
    }
}

/// Writes the normal form, and gives the exit status.
fn put_formatted<R: Print + Eprint + AllocGlobal>(
    rt: &R,
    formatted: &Formatted,
    text: &str,
    work: &Work<'_>,
) -> u8 {
    if rt.write_all(formatted.text.as_bytes()).is_err() {
        return refuse_run(rt, RunFault::Output);
    }
    if formatted.outcome == Outcome::Clean && !formatted.is_canonical {
        warn_of_lossy_entry(rt, text, work);
    }
    warn_of_errors(rt, work, formatted.outcome);
    formatted.outcome.status()
}

/// Reports that entries with errors were left out, if some were. Of memory it says nothing: the text was written.
fn warn_of_errors<R: Eprint + AllocGlobal>(rt: &R, work: &Work<'_>, outcome: Outcome) {
    if outcome == Outcome::SyntaxErrors {
        if let Ok(line) = note_line(rt.alloc(), work.stdin_name, &"has syntax errors") {
            let _ = rt.eprint(line.as_str());
        }
    }
}

/// All of standard input.
pub(crate) fn all_input<R: Input + AllocGlobal>(rt: &R) -> Result<Vec<u8>, RunFault> {
    let mut input = Vec::new(rt.alloc());
    match rt.reader().read_to_end(&mut input) {
        Ok(_) => Ok(input),
        Err(error) if error.kind() == ErrorKind::OutOfMemory => Err(RunFault::Memory),
        Err(_) => Err(RunFault::Input),
    }
}

/// Reports by which entry the text would not read back, if it would not. Of memory it says nothing: the text was
/// written.
fn warn_of_lossy_entry<R: Eprint + AllocGlobal>(rt: &R, text: &str, work: &Work<'_>) {
    if let Ok(note) = lossy_note(rt.alloc(), work.stdin_name, text, work.options.reading()) {
        let _ = rt.eprint(note.as_str());
    }
}

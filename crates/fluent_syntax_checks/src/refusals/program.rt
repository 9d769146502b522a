//! The engine of the program, with each command.

use crate::refusals::answers::Answer;
use crate::refusals::tally::Tally;
use crate::refusals::turns::{nothing, over, refuse_each_request};
use ftl::{Command, Outcome, RunFault, Watched, answer, run};
use std::alloc::{AllocError, Global};
use std::io::{self, Write};

/// The commands by their words.
const COMMANDS: [(&str, Command); 6] = [
    ("check", Command::Check),
    ("format", Command::Format),
    ("runtime", Command::Runtime),
    ("json", Command::Json),
    ("check-two", Command::CheckTwo),
    ("format-two", Command::FormatTwo),
];

pub(crate) fn calls<R: Print + AllocGlobal>(rt: &R, texts: &[&str]) -> io::Result<Tally> {
    let mut total = Tally::NONE;
    for (word, command) in COMMANDS {
        let tally = over(
            rt,
            word,
            texts,
            move |alloc, text| run_command(alloc, command, text),
        )?;
        total = total.and(tally);
    }
    Ok(total)
}

/// A command as an answer, and over a reader and a writer.
fn run_command(alloc: Global, command: Command, text: &str) -> Result<Tally, AllocError> {
    let input = text.as_bytes();
    let Ok((expected, _)) = answer(alloc, command, input) else {
        return Err(AllocError);
    };
    let expected = expected.as_str().as_bytes();
    let answers = refuse_each_request(alloc, nothing, |_| answer(alloc, command, input))?;
    let runs = refuse_each_request(
        alloc,
        nothing,
        |_| run_once(alloc, command, input, expected),
    )?;
    Ok(answers.and(runs))
}

/// How a run ended, and what was written.
#[derive(Drop)]
struct Ran {
    ended: Result<Outcome, RunFault>,
    written: Compared,
}

impl Answer for Ran {
    fn is_same(&self, ample: &Self) -> bool {
        self.ended.is_ok()
            && self.ended == ample.ended
            && self.written.is_beginning
            && self.written.count == ample.written.count
    }

    fn is_want_of_memory(&self, _ample: &Self) -> bool {
        self.ended == Err(RunFault::Memory) && self.written.count == 0
    }
}

/// What a writer was given.
#[derive(Clone, Copy)]
struct Compared {
    /// How many bytes.
    count: usize,
    /// Whether they begin the expected text.
    is_beginning: bool,
}

/// A writer that takes no memory: it compares what it is given with a text.
#[derive(Drop)]
struct Comparing<'a> {
    left: &'a [u8],
    seen: Compared,
}

impl Write for Comparing<'_> {
    fn write(&mut self, buf: &[u8]) -> io::Result<usize> {
        match self.left.strip_prefix(buf) {
            Some(left) => self.left = left,
            None => self.seen.is_beginning = false,
        }
        self.seen.count = self.seen.count.saturating_add(buf.len());
        Ok(buf.len())
    }

    fn flush(&mut self) -> io::Result<()> {
        Ok(())
    }
}

fn run_once(alloc: Global, command: Command, input: &[u8], expected: &[u8]) -> Ran {
    let mut reader = Watched::new(input);
    let mut writer = Watched::new(Comparing {
        left: expected,
        seen: Compared {
            count: 0,
            is_beginning: true,
        },
    });
    let ended = run(alloc, command, &mut reader, &mut writer);
    Ran {
        ended,
        written: writer.into_inner().seen,
    }
}

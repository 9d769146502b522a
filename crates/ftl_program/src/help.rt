//! What `ftl help` and `ftl --version` print.

/// The words and statuses. The file `help.txt` of this crate has the same text, for where the program isn't built.
const HELP: &str = "\
    ftl 2.4.0\n\
    Checks, formats and converts Fluent files (.ftl): files, folders (every .ftl file below), or standard input.\n\
    \n\
    \x20   ftl check menu.ftl          the syntax errors, with their lines\n\
    \x20   ftl format menu.ftl         the file in its normal form; entries with errors are left out\n\
    \x20   ftl format --write .        puts the normal form in the place of each file without errors that reads back\n\
    \x20   ftl format --check .        names the files that this would change\n\
    \x20   ftl runtime menu.ftl        the normal form without comments\n\
    \x20   ftl json menu.ftl           the file's tree as JSON, on one line\n\
    \x20   ftl from-json menu.json     the text of such a tree\n\
    \x20   ftl lint .                  names given twice, and references to what no file defines\n\
    \x20   ftl lint --each locales     the same, each folder in locales by itself, as each language should be\n\
    \x20   ftl compare en de           what the files of de lack of those of en, and what is obsolete there\n\
    \x20   ftl check < menu.ftl        standard input: line:column, place, entry left out, kind of error\n\
    \x20   ftl check-two, format-two   check and format by edition two of the grammar, as --edition 2 does\n\
    \x20   ftl lsp                     a language server, for editors: the program ftl-lsp\n\
    \x20   ftl help                    this page (also --help and -h); ftl help WORD has the options of a word\n\
    \x20   ftl --version               the version\n\
    \n\
    Never write onto the file that is read: `ftl format menu.ftl > menu.ftl` empties it. That is what --write is for.\n\
    \n\
    The status is 0 where there is no error, 1 where there are some or a file is not as it is to be, 2 for\n\
    wrong words, 3 for input that can't be read or is not UTF-8, 4 where memory runs out, 5 where the output can't be\n\
    written, 6 for a text that nests too deep. On 2 to 6 a line on standard error says which.\n";

/// The version, which is that of all that belongs to it: see CHANGELOG.md.
const VERSION: &str = "ftl 2.4.0\n";

/// The page that the words ask for, the program's own name first.
pub(crate) fn page_of(words: &[String]) -> Option<&'static str> {
    match words {
        [_, word] => match word.as_str() {
            "help" | "--help" | "-h" => Some(HELP),
            "--version" => Some(VERSION),
            _ => None,
        },
        _ => None,
    }
}

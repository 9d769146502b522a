//! The line of a place, cut there.
ghost use Rattle.std.specs.Prelude.{◌≡◌, ◌-◌, length};
ghost use Rattle.std.specs.List.{suffix_len};
ghost use Rattle.std.specs.Str.{IsCharBoundary};
ghost use Rattle.std.specs.Str.Lines.{strip_carriage_return};
ghost use Rattle.ftl_project.specs.Excerpt.{back, front, is_in_line, last_line};

/// What the line has before the place.
pub(crate) fn front(text: &str, cut: usize) -> &str
    requires { IsCharBoundary text.now cut }
    ensures { result.now ≡ front text.now cut }
{
    let (before, beyond) = text.split_at(cut);
    let line = last_line(before);
    if beyond.starts_with('\n') {
        strip_carriage_return(line)
    } else {
        line
    }
}

/// What the line has from the place on, without the line's end.
pub(crate) fn back(text: &str, cut: usize) -> &str
    requires { IsCharBoundary text.now cut }
    ensures { result.now ≡ back text.now cut }
{
    let (_, beyond) = text.split_at(cut);
    let line = match beyond.split_once('\n') {
        Some((line, _)) => line,
        None => beyond,
    };
    strip_carriage_return(line)
}

/// The text without one CR at its end.
fn strip_carriage_return(line: &str) -> &str
    ensures { result.now ≡ strip_carriage_return line.now }
{
    match line.strip_suffix('\r') {
        Some(front) => front,
        None => line,
    }
}

/// The text's last line, which may be empty.
fn last_line(text: &str) -> &str
    ensures { result.now ≡ last_line text.now }
{
    let (_, line) = text.split_at(line_start(text));
    line
}

/// Where the text's last line begins.
fn line_start(text: &str) -> usize
    ensures start { result ≡ length text.now - suffix_len is_in_line text.now }
    ensures boundary { IsCharBoundary text.now result }
{
    let bytes = text.as_bytes();
    let mut start = bytes.len();
    while start > 0 && bytes[start - 1] != b'\n' {
        start -= 1;
    }
    start
}

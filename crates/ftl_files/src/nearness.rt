//! How near two files are to one another.
ghost use Rattle.std.specs.Prelude.{◌≡◌};
ghost use Rattle.ftl_files.specs.Nearness.{shared_folders};

/// How many folders two paths, or two URIs, have in common from their beginning on: how often there is a `/` in what
/// both begin with.
pub fn shared_folders(first: &str, second: &str) -> usize
    ensures { result ≡ shared_folders first.now second.now }
{
    let (mut some, mut other) = (first.as_bytes(), second.as_bytes());
    let mut shared = 0;
    while let [a, some_left @ ..] = some {
        match other {
            [b, other_left @ ..] if a == b => other = other_left,
            _ => return shared,
        }
        if *a == b'/' {
            shared += 1;
        }
        some = some_left;
    }
    shared
}

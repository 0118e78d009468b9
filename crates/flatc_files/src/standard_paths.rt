//! The names of standard input and output.
ghost use Rattle.std.specs.Prelude.{◌≡◌, ◌∷◌, map};
ghost use Rattle.flatc_files.specs.StandardPaths.{is_standard_input, is_standard_output, is_read_once};

/// Whether a path names standard input: `-`, or a path of its descriptor.
pub fn is_standard_input(path: &str) -> bool
    ensures { result ≡ is_standard_input path.now }
{
    matches!(path, "-" | "/dev/stdin" | "/dev/fd/0" | "/proc/self/fd/0")
}

/// Whether a path, as OUT, names standard output: `-`, or a path of its descriptor.
pub fn is_standard_output(path: &str) -> bool
    ensures { result ≡ is_standard_output path.now }
{
    matches!(path, "-" | "/dev/stdout" | "/dev/fd/1" | "/proc/self/fd/1")
}

/// Whether at most one of the paths that a line reads is standard input.
pub fn are_read_once(schema: &str, files: &[&str]) -> bool
    ensures { result ≡ is_read_once (schema.now ∷ map (λ f. f.now) files.now) }
{
    let count = files.iter().filter(|file| is_standard_input(file)).count();
    if is_standard_input(schema) {
        count < 1
    } else {
        count < 2
    }
}

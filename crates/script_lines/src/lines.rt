//! The lines of a text.
ghost use Rattle.std.specs.Prelude.{◌≡◌, ◌<◌, length};
ghost use Rattle.std.specs.List.{before_first, after_first};
ghost use Rattle.script_lines.specs.Lines.{is_lf};

use eden_base::cut;

/// Returns the first line of `text` without its LF, and what comes after that LF.
pub fn first_line(text: &[u8]) -> (&[u8], &[u8])
    requires { 0 < length text.now }
    ensures line { result.0.now ≡ before_first is_lf text.now }
    ensures rest { result.1.now ≡ after_first is_lf text.now }
    ensures shorter { length result.1.now < length text.now }
{
    match cut(text, b'\n') {
        Some((line, rest)) => (line, rest),
        None => (text, &[]),
    }
}

//! Cuts of texts.
ghost use Rattle.std.specs.Prelude.{◌≡◌, ◌<◌, ◌-◌, ◌++◌, length, option_map, IfSome};
ghost use Rattle.memchr.specs.Find.{IsFirstByte, is_byte};
ghost use Rattle.litrs_diagnostic.specs.Line.{without_line_end};

use memchr::memchr;

/// Returns the first line of `bytes` with its LF, and what follows it, or `None` if there is no LF.
pub(crate) fn first_line(bytes: &[u8]) -> Option<(&[u8], &[u8])>
    ensures at { IsFirstByte (is_byte 10) bytes.now
        (option_map (λ parts. length parts.0.now - 1) result) }
    ensures parts { IfSome result (λ parts. parts.0.now ++ parts.1.now ≡ bytes.now) }
    ensures shorter { IfSome result (λ parts. length parts.1.now < length bytes.now) }
{
    let at = memchr(b'\n', bytes)?;
    Some(bytes.split_at(at + 1))
}

/// Returns the line without the LF, or the CR and LF, at its end.
pub(crate) fn without_line_end(line: &str) -> &str
    ensures { result.now ≡ without_line_end line.now }
{
    match line.strip_suffix('\n') {
        Some(line) => line.strip_suffix('\r').unwrap_or(line),
        None => line,
    }
}

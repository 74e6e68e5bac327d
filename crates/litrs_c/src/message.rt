//! The message of an error.
ghost use Rattle.std.specs.Prelude.{◌^◌, ◌<◌, Some};
ghost use Rattle.litrs_base.specs.Refusal.{refusal_of, refusal_text, span_text};
ghost use Rattle.litrs_c.specs.Answers.{IsWritten, IsWrittenFrom};

use crate::room::write_from;
use itoa::Buffer;
use litrs::ParseError;
use std::ops::Range;

/// Writes the message of `error` to `room`, as much as fits, and returns its length in bytes. It
/// does not call the `Display` of the error: by its contract that may fail for any writer, and
/// there is no status for such a failure.
pub(crate) fn write_refusal(room: &mut [u8], error: &ParseError) -> usize
    ensures { IsWritten (refusal_text (refusal_of error.now)) room.old room.new result }
{
    let end = write_from(room, 0, error.kind().description());
    match error.span() {
        Some(span) => write_span(room, end, span),
        None => end,
    }
}

/// Writes a span to `room` from `place` on, as much as fits, and returns its end.
fn write_span(room: &mut [u8], place: usize, span: Range<usize>) -> usize
    requires { place < 2 ^ 63 }
    ensures { IsWrittenFrom place (span_text (Some span)) room.old room.new result }
{
    let mut digits = Buffer::new();
    let start = write_from(room, place, " (at ");
    let dots = write_from(room, start, digits.format(span.start));
    let end = write_from(room, dots, "..");
    let closing = write_from(room, end, digits.format(span.end));
    write_from(room, closing, ")")
}

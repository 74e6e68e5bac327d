//! The end of the items of a quoted body, and what ends them.
ghost use Rattle.std.specs.Prelude.{◌==◌, ⊤, drop, IsTrue, chars, IsCharBoundary};
ghost use Rattle.litrs_base.specs.Characters.{backslash};
ghost use Rattle.litrs_base.specs.Text.{first_passes};
ghost use Rattle.litrs_lex.specs.BodyStop.{StopsBy};
ghost use Rattle.litrs_lex.specs.QuotedItems.{EndsItems};
ghost use Rattle.litrs_lex.specs.Reading.{IsItemsEnd};

use crate::allowed::Allows;
use crate::escape_end::refused_escape_goes_on;
use crate::quoted::items_end;
use crate::{Switches, unescape_with};

/// The place at which a text ends inside a body.
#[derive(Clone, Copy)]
pub enum Within {
    /// Between two items.
    Items,
    /// A whole escape. It is read as an item only if more text follows.
    Escape,
    /// An escape that is not complete.
    PartOfEscape,
    /// A backslash alone.
    Backslash,
    /// A continuation that extends to the end of the text.
    Continuation,
}

/// The reason why the items of a body end.
#[derive(Clone, Copy)]
pub enum BodyStop {
    /// The closing quote.
    Quote,
    /// The text ends within the body.
    Ended(Within),
    /// A character or an escape that is invalid in every longer text too.
    Refused,
}

/// Returns where the items of the quoted body end that begins at `offset`, and what ends them. For
/// `"a\n"u8` and 1 that is 4 and `Quote`. For `"a\u{4` and 1 it is 2 and `Ended(PartOfEscape)`.
///
/// An escape or a continuation that ends the text is not among the items. `offset` is a character
/// boundary of `input`, as for [`cut_quoted`](crate::cut_quoted).
pub fn quoted_stop<A: Allows>(input: &str, offset: usize, allowed: A) -> (usize, BodyStop)
    requires { IsCharBoundary input.now offset }
    ensures ends { IsItemsEnd (A.allowed allowed) input.now offset (λ _. ⊤) result.0 }
    ensures stops { StopsBy (A.allowed allowed) (chars (drop result.0 input.now)) result.1 }
{
    let end = items_end(input, offset, allowed);
    (end, rest_stop(&input[end..], allowed.switches()))
}

/// Returns what ends the items of a body that `rest` follows.
fn rest_stop(rest: &str, allowed: Switches) -> BodyStop
    requires { EndsItems allowed (chars rest.now) }
    ensures { StopsBy allowed (chars rest.now) result }
{
    match rest.as_bytes() {
        [] => BodyStop::Ended(Within::Items),
        [b'"', ..] => BodyStop::Quote,
        [b'\\', ..] => slash_stop(rest, allowed),
        _ => BodyStop::Refused,
    }
}

/// Like [`rest_stop`], for a rest that begins with a backslash.
///
/// It is not inlined, because most rests begin with a quote.
#[inline(never)]
fn slash_stop(rest: &str, allowed: Switches) -> BodyStop
    requires ends { EndsItems allowed (chars rest.now) }
    requires slash { IsTrue (first_passes (λ c. c == backslash) rest.now) }
    ensures { StopsBy allowed (chars rest.now) result }
{
    let after = &rest.as_bytes()[1..];
    match after {
        [] => BodyStop::Ended(Within::Backslash),
        // A continuation that ends the items extends to the end of the text.
        [b'\n', ..] => BodyStop::Ended(Within::Continuation),
        _ => match unescape_with(rest, allowed) {
            Ok(_) => BodyStop::Ended(Within::Escape),
            Err(_) if refused_escape_goes_on(after, allowed) => {
                BodyStop::Ended(Within::PartOfEscape)
            }
            Err(_) => BodyStop::Refused,
        },
    }
}

//! Finds the literals in any text.
ghost use Rattle.std.specs.Prelude.{◌≡◌, ◌<◌, ◌≤◌, ◌+◌, length, IfSome};
ghost use Rattle.std.specs.Str.{IsUtf8};
ghost use Rattle.litrs_prefix.specs.Ends.{IsEndOf};
ghost use Rattle.litrs_explain.specs.Comments.{from_line_feed, SkipsSlashes, SkipsComment, FindsToken};
ghost use Rattle.litrs_explain.specs.Places.{IsTokenOf};

use litrs_lexer::{Token, Tokens};

/// The comments of a text, which are skipped.
#[derive(Clone, Copy, PartialEq, Eq)]
pub(crate) enum Comments {
    /// No comments: `/` and `#` are ordinary characters.
    None,
    /// From `#` to the end of the line.
    Hash,
    /// From `//` to the end of the line, and from `/*` to its `*/`.
    Rust,
}

/// Returns the next token of a text with these comments, or `None` at its end.
pub(crate) fn next_token<'a>(left: &mut Tokens<'a>, comments: Comments) -> Option<Token<'a>>
    requires { IsEndOf left.old.source.now left.old.rest.now }
    ensures source { left.new.source.now ≡ left.old.source.now }
    ensures rest { IsEndOf left.new.source.now left.new.rest.now }
    ensures token { IfSome result (IsTokenOf left.old.source.now) }
    ensures after { IfSome result (λ token.
        length left.old.source.now ≤ token.start + length left.old.rest.now) }
    ensures before { IfSome result (λ token.
        token.start + length left.new.rest.now ≤ length left.old.source.now) }
    ensures shorter { IfSome result (λ _.
        length left.new.rest.now < length left.old.rest.now) }
    ensures found { FindsToken comments left.old.source.now left.old.rest.now result
        left.new.rest.now }
{
    left.rest = without_slashes(left.rest, comments);
    let token = left.next()?;
    left.rest = after_comment(token, left.rest, comments);
    Some(token)
}

/// Returns `text` without the slashes at its front, unless they may begin a comment.
fn without_slashes(text: &str, comments: Comments) -> &str
    ensures end { IsEndOf text.now result.now }
    ensures front { SkipsSlashes comments text.now result.now }
{
    match comments {
        Comments::Rust => text,
        Comments::None | Comments::Hash => text.trim_start_matches('/'),
    }
}

/// Returns `rest`, which follows `token`, without the line of the comment that `token` begins.
fn after_comment<'a>(token: Token<'_>, rest: &'a str, comments: Comments) -> &'a str
    ensures end { IsEndOf rest.now result.now }
    ensures utf8 { IsUtf8 rest.now }
    ensures left { SkipsComment comments token.entry.text.now rest.now result.now }
{
    match comments {
        Comments::Hash => if token.text == "#" {
            after_line(rest)
        } else {
            rest
        },
        Comments::None | Comments::Rust => rest,
    }
}

/// Returns the part of `text` from its first line feed on.
fn after_line(text: &str) -> &str
    ensures end { IsEndOf text.now result.now }
    ensures line { result.now ≡ from_line_feed text.now }
{
    match text.find('\n') {
        Some(len) => &text[len..],
        None => "",
    }
}

//! Tokens that more lines belong to.
use litrs_lexer::{Token, TokenKind};

/// The open token at the end of a text, by the text that closes it.
#[derive(Clone, Copy)]
pub(crate) enum Open {
    /// `*/`, this number of times.
    Comment(usize),
    /// A `"` that is not escaped.
    Quote,
    /// A `"` before this number of hashes.
    RawQuote(usize),
    /// A `'` at the start of the next line.
    SingleQuote,
}

impl Open {
    /// Returns what closes the last token of a text, or `None` if nothing after the end of the
    /// line belongs to it.
    pub(crate) fn of(token: &Token) -> Option<Open> {
        match token.kind {
            TokenKind::UnterminatedBlockComment => Open::Comment(0).after(token.text),
            TokenKind::MalformedLiteral => match token.text {
                "'" | "b'" => Some(Open::SingleQuote),
                text => Open::of_string(text),
            },
            _ => None,
        }
    }

    /// Like [`Open::of`], for the text of a malformed literal that may be a string.
    fn of_string(text: &str) -> Option<Open> {
        let (opening, body) = text.split_once('"')?;
        let prefix = opening.trim_end_matches('#');
        match prefix {
            "" | "b" | "c" => Open::Quote.after(body),
            "r" | "br" | "cr" => {
                Open::RawQuote(opening.len().saturating_sub(prefix.len())).after(body)
            }
            _ => None,
        }
    }

    /// Returns what closes the token after `line`, or `None` if `line` does.
    pub(crate) fn after(self, line: &str) -> Option<Open> {
        match self {
            Open::Comment(depth) => match depth_after(depth, line) {
                0 => None,
                depth => Some(Open::Comment(depth)),
            },
            Open::Quote if !has_quote(line) => Some(self),
            Open::RawQuote(hashes) if !has_raw_quote(line, hashes) => Some(self),
            _ => None,
        }
    }
}

/// Returns the number of block comments that are open at the end of `line`, or 0 if the last of
/// them is closed in it. At its start there are `depth`.
fn depth_after(depth: usize, line: &str) -> usize {
    let mut depth = depth;
    let mut last = ' ';
    for c in line.chars() {
        let pair = (last, c);
        last = ' ';
        match pair {
            ('/', '*') => depth = depth.saturating_add(1),
            ('*', '/') if depth <= 1 => return 0,
            ('*', '/') => depth = depth.saturating_sub(1),
            _ => last = c,
        }
    }
    depth
}

/// Returns `true` if there is a `"` in `line` that is not escaped.
fn has_quote(line: &str) -> bool {
    let mut is_escaped = false;
    for c in line.chars() {
        match c {
            '"' if !is_escaped => return true,
            _ => is_escaped = c == '\\' && !is_escaped,
        }
    }
    false
}

/// Returns `true` if there is a `"` before this number of hashes in `line`.
fn has_raw_quote(line: &str, hashes: usize) -> bool {
    let mut found: Option<usize> = None;
    for c in line.chars() {
        found = match (c, found) {
            ('"', _) => Some(0),
            ('#', Some(count)) => Some(count.saturating_add(1)),
            _ => None,
        };
        if found == Some(hashes) {
            return true;
        }
    }
    false
}

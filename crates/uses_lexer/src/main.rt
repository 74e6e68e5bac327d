//! Cuts the Rust source on the standard input into tokens. Writes a line on each token that is not
//! white space: its kind, its place in bytes and its text. For a malformed literal it writes what
//! is wrong with it. A source that is not UTF-8 is an error. Arguments are ignored. If the reader
//! of the output has closed it, the program ends silently.
#![tactic(auto)]

use litrs_lexer::{TokenKind, Tokens, strip_shebang};
use std::alloc::{AllocError, Global};
use std::io::{self, ErrorKind};

/// Returns the lines on the tokens of `tokens` that are not white space.
fn report(alloc: Global, tokens: Tokens<'_>) -> Result<String, AllocError> {
    let mut out = String::new(alloc);
    for token in tokens {
        if token.kind == TokenKind::Whitespace {
            continue;
        }
        let kind = token.kind;
        let text = token.text;
        let range = token.range();
        write!(out, "{kind:?} {range:?} {text:?}")?;
        if let Some(style) = token.doc_style() {
            write!(out, " documents: {style:?}")?;
        }
        if token.kind == TokenKind::MalformedLiteral {
            if let Err(error) = token.literal(alloc) {
                write!(out, ": {error}")?;
            }
        }
        writeln!(out, "")?;
    }
    Ok(out)
}

fn main(rt: HostRuntime) -> io::Result<()> {
    let source = io::read_to_string(rt.alloc(), rt.stdin())?;
    let source = source.as_str();
    let tokens = Tokens {
        source,
        rest: strip_shebang(source),
    };
    let report = report(rt.alloc(), tokens)?;
    match print!(rt; "{report}") {
        Err(error) if error.kind() == ErrorKind::BrokenPipe => Ok(()),
        written => written,
    }
}

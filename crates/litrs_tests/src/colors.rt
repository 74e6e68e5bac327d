//! A message in color. The rows of `litrs_vectors` have the others.
use litrs_diagnostic::{Diagnostic, Label, Level, Remark, shown_in_color};
use std::process::Abort;

/// The lines of a message with a label, a gap and a remark, in color.
const COLORED: &str = concat!(
    "\x1b[1;33mwarning\x1b[0m: here\n",
    "\x1b[1;34m -->\x1b[0m row:1:5\n",
    "\x1b[1;34m  |\x1b[0m\n",
    "\x1b[1;34m1 |\x1b[0m a = b\n",
    "\x1b[1;34m  |\x1b[0m\x1b[1;33m     ^ this\x1b[0m\n",
    "\x1b[1;34m...\x1b[0m\n",
    "\x1b[1;34m3 |\x1b[0m b = 1\n",
    "\x1b[1;34m  |\x1b[0m\x1b[1;34m - that\x1b[0m\n",
    "\x1b[1;34m  |\x1b[0m\n",
    "\x1b[1;34m  =\x1b[0m help: none\n",
);

#[test]
fn colors_are_shown(rt: HostRuntime) {
    let source = "a = b\n\nb = 1\n";
    let labels = [Label::new(source, 7..8, "that")];
    let remarks = [Remark {
        level: Level::Help,
        text: "none",
    }];
    let diagnostic = Diagnostic::new("row", source, 4..5, "here")
        .with_level(Level::Warning)
        .with_label("this")
        .with_labels(&labels)
        .with_remarks(&remarks);
    let written = shown_in_color(rt.alloc(), &diagnostic);
    match written {
        Ok(lines) => assert!(rt; lines.as_str() == COLORED, "{lines}"),
        Err(_) => assert!(rt; false, "no memory"),
    }
}

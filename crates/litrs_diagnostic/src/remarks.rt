//! Remarks below a message.
ghost use Rattle.std.specs.Prelude.{map};
ghost use Rattle.std.specs.Fmt.{WritesOnOk};
ghost use Rattle.std.specs.List.{flat_map};
ghost use Rattle.std.specs.Str.{encode_utf8_all};
ghost use Rattle.litrs_diagnostic.specs.Diagnostic.{remark_text};
ghost use Rattle.litrs_diagnostic.specs.Rows.{remark_of};

use crate::colors::{Color, closing, opening};
use crate::levels::Level;
use crate::marks::{Blanks, Shown};
use crate::row::Frame;
use std::fmt;

/// A remark below a message, in a line of its own: ` = note: ` and its text.
#[derive(Clone, Copy, Debug)]
pub struct Remark<'a> {
    /// The word before the text.
    pub level: Level,
    /// The text.
    pub text: &'a str,
}

/// The lines of remarks, after an empty one if there are any.
#[derive(Clone, Copy)]
pub(crate) struct Remarks<'a> {
    pub(crate) frame: Frame,
    pub(crate) remarks: &'a [Remark<'a>],
}

impl fmt::Display for Remarks<'_> {
    ghost use Rattle.std.specs.Prelude.{Some};
    ghost use Rattle.litrs_diagnostic.specs.Diagnostic.{remarks_text};

    ghost output = { λ it. Some (encode_utf8_all (
        remarks_text it.frame.is_colored it.frame.margin (map remark_of it.remarks.now))) };

    fn fmt<W: fmt::Write>(&self, f: &mut fmt::Formatter<W>) -> fmt::Result {
        if self.remarks.is_empty() {
            return Ok(());
        }
        let blue = opening(self.frame.is_colored, Color::BoldBlue);
        let margin = Blanks(self.frame.margin);
        let plain = closing(self.frame.is_colored);
        write!(f, "{blue}{margin} |{plain}\n")?;
        write_remarks(f, self.frame, self.remarks)
    }
}

fn write_remarks<W: fmt::Write>(
    f: &mut fmt::Formatter<W>,
    frame: Frame,
    remarks: &[Remark<'_>],
) -> fmt::Result
    ensures { WritesOnOk W.write_str_gives f.old result (encode_utf8_all (flat_map
        (remark_text frame.is_colored frame.margin) (map remark_of remarks.now))) f.new }
{
    let blue = opening(frame.is_colored, Color::BoldBlue);
    let margin = Blanks(frame.margin);
    let plain = closing(frame.is_colored);
    for remark in remarks {
        let level = remark.level.word();
        let text = Shown(remark.text);
        write!(f, "{blue}{margin} ={plain} {level}: {text}\n")?;
    }
    Ok(())
}

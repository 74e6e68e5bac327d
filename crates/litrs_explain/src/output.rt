//! The standard output.
use crate::error::Error;
use std::io;
use std::io::Write;

/// The number of bytes from which on reports are written.
const BUFFER_LEN: usize = 8192;

/// The standard output, and the reports that are not written yet.
#[derive(Drop)]
pub(crate) struct Output {
    rt: HostRuntime,
    /// Set if each report is written immediately.
    is_terminal: bool,
    /// The reports that are not written yet, and the one that is being made.
    pub(crate) unwritten: String,
    /// The length of the whole reports in `unwritten`, in bytes.
    whole: usize,
}

impl Output {
    /// Creates an output to which nothing was added.
    pub(crate) fn new(rt: HostRuntime, is_terminal: bool) -> Output {
        Output {
            rt,
            is_terminal,
            unwritten: String::new(rt.alloc()),
            whole: 0,
        }
    }

    /// Ends the report that is at the end of `unwritten`. Writes the reports so far if there are
    /// many, or if the output is a terminal.
    pub(crate) fn end_report(&mut self) -> Result<(), Error> {
        self.whole = self.unwritten.len();
        if self.is_terminal || self.whole >= BUFFER_LEN {
            self.flush()?;
        }
        Ok(())
    }

    /// Writes the whole reports so far. Reports that cannot be written are dropped, and so is a
    /// part of a report.
    pub(crate) fn flush(&mut self) -> Result<(), Error> {
        let (reports, _) = self
            .unwritten
            .as_str()
            .split_at_checked(self.whole)
            .unwrap_or(("", ""));
        let written = self.write(reports);
        self.unwritten.clear();
        self.whole = 0;
        written
    }

    fn write(&self, text: &str) -> Result<(), Error> {
        io::writer(&self.rt)
            .write_all(text.as_bytes())
            .map_err(Error::Output)
    }
}

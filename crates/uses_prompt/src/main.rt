//! A prompt for literals. It reads lines until they are a literal and prints its explanation, or
//! shows the error, at most 100 columns of a line. Arguments other than `--help` are ignored.
#![tactic(auto)]

ghost use Rattle.std.specs.Prelude.{◌≡◌, ◌↔◌, IfOk, IfSome, IfNone, IsNone, string_bytes};
ghost use Rattle.uses_prompt.specs.Answered.{IsAnswerTo, IsAnswered, IsLastAnswer, IsReply, Quits};

use litrs::{Literal, ParseErrorKind};
use litrs_diagnostic::shown_refusal;
use litrs_explanation::explanation;
use litrs_lines::Collector;
use std::alloc::{AllocError, Global};
use std::io::{BufRead, ErrorKind};
use std::{env, io, str};

/// The answer to `--help`.
const HELP: &str = "Usage: uses_prompt

Explains each Rust literal that you type, such as 0xFF_u8 or 'a', or shows the error.
A string may continue over several lines.

:cancel           drops the lines of a string that is not complete
:quit or Ctrl-D   ends\n";

/// The answer to the first line of a literal that continues on the next line.
const HINT: &str =
    "the literal continues on the next line; :cancel drops it, :quit or Ctrl-D ends\n";

/// Returns the answer to a text: the explanation of the literal, or the error.
///
/// # Errors
///
/// Returns `AllocError` if an allocation fails.
fn answer_to(alloc: Global, text: &str) -> Result<String, AllocError>
    ensures { IfOk result (λ answer. IsAnswerTo text.now (string_bytes answer)) }
{
    match Literal::parse(alloc, text) {
        Ok(literal) => explanation(alloc, &literal),
        Err(error) if error.kind() == ParseErrorKind::OutOfMemory => Err(AllocError),
        Err(error) => shown_refusal(alloc, "prompt", text, &error, 100),
    }
}

/// Returns the answer to a line. It is empty for `:cancel` if lines are held, and for an empty line
/// if none is.
///
/// # Errors
///
/// Returns `AllocError` if an allocation fails.
fn answer(alloc: Global, collector: &mut Collector, line: &str) -> Result<String, AllocError>
    ensures { IfOk result (λ a. IsAnswered collector.old line.now collector.new (string_bytes a)) }
{
    let is_first = collector.is_empty();
    if matches!((is_first, line), (true, "") | (false, ":cancel")) {
        collector.clear();
        return Ok(String::new(alloc));
    }
    if collector.push(line)? {
        return String::from_str(alloc, if is_first { HINT } else { "" });
    }
    answer_to(alloc, collector.take_with(line)?.as_str())
}

/// Returns the answer to the end of the input: the error of the lines that the collector holds, if
/// it holds any.
fn last_answer(alloc: Global, collector: Collector) -> Result<String, AllocError>
    ensures { IfOk result (λ answer. IsLastAnswer collector (string_bytes answer)) }
{
    let text = String::from_str(alloc, collector.text())?;
    match collector.finish() {
        Some(error) => shown_refusal(alloc, "prompt", text.as_str(), &error, 100),
        None => Ok(text),
    }
}

/// Returns the answer to a line of the input, without its LF, or `None` if it is `:quit`. A CR at
/// its end is ignored, as is a line that is not UTF-8.
///
/// # Errors
///
/// Returns an error if an allocation fails.
fn reply(alloc: Global, collector: &mut Collector, line: &[u8]) -> io::Result<Option<String>>
    ensures quits { IfOk result (λ reply. IsNone reply ↔ Quits line.now) }
    ensures stays { IfOk result (λ reply. IfNone reply (collector.new ≡ collector.old)) }
    ensures answered { IfOk result (λ reply. IfSome reply (λ answer.
        IsReply collector.old line.now collector.new (string_bytes answer))) }
{
    match str::from_utf8(line) {
        Ok(line) => match line.strip_suffix('\r').unwrap_or(line) {
            ":quit" => Ok(None),
            line => Ok(Some(answer(alloc, collector, line)?)),
        },
        Err(e) => Ok(Some(format!(in alloc; "not UTF-8 at byte {}: ignored\n", e.valid_up_to())?)),
    }
}

/// Answers the lines of the standard input, or `--help`.
fn run(rt: &HostRuntime) -> io::Result<()> {
    if env::args(rt)?.any(|word| word.as_str() == "--help") {
        return print!(rt; "{HELP}");
    }
    let mut collector = Collector::new(rt.alloc());
    print!(rt; "> ")?;
    for line in rt.reader().split(rt.alloc(), b'\n') {
        let Some(answer) = reply(rt.alloc(), &mut collector, line?.as_slice())? else {
            return Ok(());
        };
        let sign = if collector.is_empty() { "> " } else { ". " };
        print!(rt; "{answer}{sign}")?;
    }
    print!(rt; "\n{}", last_answer(rt.alloc(), collector)?)
}

fn main(rt: HostRuntime) -> io::Result<()> {
    match run(&rt) {
        Err(error) if error.kind() != ErrorKind::BrokenPipe => Err(error),
        _ => Ok(()),
    }
}

//! Reports on lines, and collectors of lines.
use crate::calls::LONGEST;
use crate::fields::split;
use crate::outcome::{Call, Outcome, agrees, made, written};
use litrs::goes_on;
use litrs_lines::{Collector, MemInput, MemOutput, PrefixStep, Step, run, run_program};
use std::alloc::{AllocError, Global};
use std::process::ExitCode;

/// The length in bytes of an allocation directly before the calls that need no memory.
/// `.ci/refused.py` knows it, and lets all allocations from there on fail.
const MARK: usize = 9973;

/// The number of bytes that a device takes in a call.
const PIECE: usize = 4096;

/// The message of a program without memory.
const NO_MEMORY: &[u8] = b"litrs_lines: out of memory\n";

/// The call that feeds a line.
const FEED: Call = ("Collector", "feed", "&str");

/// The call that feeds a line in which more text may follow the literal.
const FEED_PREFIX: Call = ("Collector", "feed_prefix", "&str");

/// Tries the report on a text that is the only line of an input.
pub fn try_run(alloc: Global, text: &str) -> Outcome {
    if text.is_empty() || text.len() > LONGEST || text.contains('\n') {
        return Outcome::Holds;
    }
    try_reports(alloc, text).and(try_program(alloc, text))
}

/// Returns a number of bytes that suffices for the report on a text, 0 if it is empty.
fn room(text: &str) -> usize {
    text.len().saturating_mul(100)
}

/// Runs over an input.
fn try_reports(alloc: Global, text: &str) -> Outcome {
    let room = room(text);
    let mut input = MemInput::new(text.as_bytes(), PIECE, None);
    // bounded by the length of the text.
    match MemOutput::new(alloc, room, PIECE, None) {
        Ok(mut output) => made(
            ("litrs_lines", "run", "&str"),
            run(alloc, &mut input, &mut output),
        ),
        Err(_) => Outcome::Refused(("MemOutput", "new", "&str")),
    }
}

/// Runs as a program does over an input.
fn try_program(alloc: Global, text: &str) -> Outcome {
    let room = room(text);
    let mut input = MemInput::new(text.as_bytes(), PIECE, None);
    let mut messages = match Vec::from_slice(alloc, NO_MEMORY) {
        Ok(messages) => messages,
        Err(error) => return Outcome::Ends(error),
    };
    messages.clear();
    // bounded by the length of the text.
    match MemOutput::new(alloc, room, PIECE, None) {
        Ok(mut output) => {
            let status = run_program(alloc, &mut input, &mut output, &mut messages);
            ended(status, &messages)
        }
        Err(_) => Outcome::Refused(("MemOutput", "new", "&str")),
    }
}

/// Returns the outcome of a run as a program, given its status and its messages.
fn ended(status: ExitCode, messages: &[u8]) -> Outcome {
    let call = ("litrs_lines", "run_program", "&str");
    if status == ExitCode::SUCCESS {
        agrees(call, messages.is_empty())
    } else {
        agrees(call, messages == NO_MEMORY).and(Outcome::Refused(call))
    }
}

/// Feeds a line. Returns `true` if the lines are then a literal, `false` if they may become one,
/// and `None` if they are rejected.
fn feed(collector: &mut Collector, line: &str) -> Result<Option<bool>, AllocError> {
    let fed = collector.feed(line);
    let step = step_of(&fed);
    drop(fed);
    step
}

/// Returns the answer of [`feed`] for this result.
fn step_of(fed: &Result<Step, AllocError>) -> Result<Option<bool>, AllocError> {
    match fed {
        Ok(Step::Literal(_)) => Ok(Some(true)),
        Ok(Step::More) => Ok(Some(false)),
        Ok(Step::Refused(_)) => Ok(None),
        Err(error) => Err(*error),
    }
}

/// Tries a collector that is fed the lines of a text, which are a literal if and only if it is one.
pub fn try_collector(alloc: Global, text: &str, is_literal: bool) -> Outcome {
    if text.len() > LONGEST {
        return Outcome::Holds;
    }
    try_lines(&mut Collector::new(alloc), text, is_literal)
}

/// Like [`try_collector`], with a collector that is empty.
fn try_lines(collector: &mut Collector, text: &str, is_literal: bool) -> Outcome {
    let mut last = Ok(None);
    for line in text.split('\n') {
        last = last.and(feed(collector, line));
    }
    match last {
        Ok(step) => {
            agrees(FEED, (step == Some(true)) == is_literal).and(try_cleared(collector, text))
        }
        Err(_) => Outcome::Refused(FEED),
    }
}

/// Tries that a collector which held lines asks for no memory for the first of them, once it is
/// cleared.
fn try_cleared(collector: &mut Collector, text: &str) -> Outcome {
    if collector.is_empty() {
        return Outcome::Holds;
    }
    collector.clear();
    let (line, _) = text.split_once('\n').unwrap_or((text, ""));
    made(
        ("Collector", "feed_after_clear", "&str"),
        feed(collector, line),
    )
}

/// Tries a collector that is fed a text, then a piece some number of times, and then a last piece.
/// Only with that are the lines a literal.
pub fn try_feeds(alloc: Global, text: &str, answer: &str) -> Outcome {
    let (piece, fields) = split(answer);
    let (count, last) = split(fields);
    let mut collector = Collector::new(alloc);
    let mut outcome = try_piece(&mut collector, text, false);
    for _ in 0..count.parse::<u32>().unwrap_or(0) {
        outcome = outcome.and(try_piece(&mut collector, piece, false));
    }
    outcome.and(try_piece(&mut collector, last, true))
}

/// Tries a piece, after which the lines are a literal if and only if it is the last.
fn try_piece(collector: &mut Collector, piece: &str, is_last: bool) -> Outcome {
    match feed(collector, piece) {
        Ok(step) => agrees(FEED, step == Some(is_last)),
        Err(_) => Outcome::Refused(FEED),
    }
}

/// Tries the literal at the front of the lines of a text, with the rest of the last line.
pub fn try_prefix(alloc: Global, text: &str, answer: &str) -> Outcome {
    let (lines, last) = text.rsplit_once('\n').unwrap_or(("", text));
    let mut collector = Collector::new(alloc);
    let outcome = feed_prefixes(&mut collector, lines);
    let step = collector.feed_prefix(last);
    let outcome = outcome.and(try_step(alloc, &step, answer));
    drop(step);
    outcome
}

/// Feeds lines after which others follow.
fn feed_prefixes(collector: &mut Collector, lines: &str) -> Outcome {
    let mut outcome = Outcome::Holds;
    for line in lines.split('\n') {
        outcome = outcome.and(made(FEED_PREFIX, collector.feed_prefix(line)));
    }
    outcome
}

/// Tries what a line was answered: the literal and the rest with `|` between them, or the length
/// and the error of a malformed literal.
fn try_step(alloc: Global, step: &Result<PrefixStep, AllocError>, answer: &str) -> Outcome {
    let holds = match step {
        Ok(PrefixStep::More) => answer == "more",
        Ok(PrefixStep::Literal(lit, rest)) => is_literal(lit.raw_input(), rest, answer),
        Ok(PrefixStep::NoLiteral) => answer == "none",
        Ok(PrefixStep::Malformed(e)) => {
            let fields = format!(in alloc; "{}: {}", e.len, e.error);
            return written(FEED_PREFIX, fields, answer.as_bytes());
        }
        Err(_) => return Outcome::Refused(FEED_PREFIX),
    };
    agrees(FEED_PREFIX, holds)
}

/// Returns `true` if `answer` says this literal and this rest.
fn is_literal(literal: &str, rest: &str, answer: &str) -> bool {
    let (said, end) = answer.split_once('|').unwrap_or(("", ""));
    literal == said && rest == end
}

/// Tries the calls that need no memory, of which no contract says so: a run over an empty input,
/// and a first line that does not begin a literal.
pub fn try_unallocated(alloc: Global, text: &str) -> Outcome {
    // bounded by the constant `MARK`: the block marks where the calls begin, and is freed.
    let _ = String::with_capacity(alloc, MARK);
    let outcome = try_reports(alloc, "");
    if goes_on(text) {
        return outcome;
    }
    outcome.and(made(FEED, feed(&mut Collector::new(alloc), text)))
}

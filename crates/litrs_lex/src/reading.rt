//! The loop that reads a quoted body.
//!
//! [`read_items`] reads the items of a body: plain characters, escapes and continuations. It puts
//! their values into a [`Sink`], of which there are three:
//!
//! - [`Counted`](crate::sink::Counted) keeps only the length of the value.
//! - [`Room`](crate::room::Room) keeps a value of at most `N` bytes on the stack.
//! - [`Filled`](crate::filled::Filled) keeps a value in a container, such as a `String`. Short
//!   pieces are collected in a `Room` first.
//!
//! A [`Reading`] is the state of the loop, between two items. A [`Stop`] is the item or the closing
//! quote after the plain characters. A [`Reached`] is the result of a call: the closing quote, an
//! error, or the state at which the sink is full. A full sink is unchanged, and the loop continues
//! from that state with another sink.
ghost use Rattle.std.specs.Prelude.{not, ◌||◌, ◌≤◌, IsTrue};
ghost use Rattle.litrs_lex.specs.Reading.{IsReading, HasReached};

use crate::allowed::Allows;
use crate::search::Mask;
use crate::sink::Sink;
use crate::stop::{Stop, plain_end, stop_at};
use litrs_base::ParseError;

/// The state of reading a body. Places are in bytes.
#[derive(Clone, Copy)]
pub struct Reading {
    /// The end of the items whose value the sink has.
    pub at: usize,
    /// The end of the plain characters after `at`.
    pub place: usize,
    /// The mask of the last search.
    pub mask: Mask,
}

/// The end of the reading.
#[derive(Drop)]
pub enum Reached {
    /// The place of the closing quote.
    Quote(usize),
    /// The state at which the next value does not fit the sink.
    Full(Reading),
    /// The place after the last item, and the error there.
    Refused(usize, ParseError),
}

/// Reads the items of a body from the state `from` on, and puts their values into `sink`. Stops at
/// the closing quote, at an error, or if a value does not fit.
// This is inlined, so an error or a state passes through memory once.
#[inline(always)]
pub(crate) fn read_items<S: Sink, A: Allows>(
    input: &str,
    offset: usize,
    from: Reading,
    allowed: A,
    sink: &mut S,
) -> Reached
    requires from { IsReading (A.allowed allowed) input.now offset (S.holds sink.old) from }
    requires fits { IsTrue (not (A.allowed allowed).byte_escapes || S.takes_bytes) }
    ensures kept { S.room sink.old ≤ S.room sink.new }
    ensures reached { HasReached (A.allowed allowed) input.now offset (S.holds sink.new)
        (S.room sink.old) result }
{
    let switches = allowed.switches();
    let (mut at, mut place, mut mask) = (from.at, from.place, from.mask);
    loop {
        if !sink.push_run(input, at, place) {
            return Reached::Full(Reading { at, place, mask });
        }
        match stop_at(&input[place..], switches) {
            Ok(Stop::Quote) => return Reached::Quote(place),
            Ok(Stop::Item(value, len)) => {
                if !sink.push(value) {
                    at = place;
                    return Reached::Full(Reading { at, place, mask });
                }
                at = place + len;
                (place, mask) = plain_end(input, at, switches, mask);
            }
            Err(e) => return Reached::Refused(place, e.offset_span(place)),
        }
    }
}

//! A value in a container.
ghost use Rattle.std.specs.Prelude.{◌≡◌, ◌≤◌, ◌<◌, ◌+◌, ◌++◌, [], length, IsTrue, IsFalse, IsUtf8};
ghost use Rattle.litrs_lex.specs.Container.{IsFilledTo};

use crate::container::EscapeContainer;
use crate::room::Room;
use crate::sink::Sink;
use litrs_base::Unescape;

/// The number of bytes that are put into the container at a time.
const PIECE: usize = 1024;

/// A container, and bytes that are put into it next. A value fits if the capacity suffices.
#[derive(Drop)]
pub(crate) struct Filled<C: EscapeContainer> {
    /// The bytes that are not yet in the container.
    pub(crate) piece: Room<PIECE>,
    /// The container.
    pub(crate) into: C,
}

impl<C: EscapeContainer> Filled<C> {
    /// Puts the piece into the container. Returns `false` if it does not fit.
    ///
    /// It is cold and not inlined, so the loop that fills the piece keeps its state in registers.
    #[cold]
    #[inline(never)]
    fn flush(&mut self) -> bool
        requires { IsFalse C.TAKES_BYTES → IsUtf8 self.old.piece }
        ensures kept { C.capacity self.old.into ≤ C.capacity self.new.into }
        ensures done { IsTrue result →
            (C.contents self.new.into ≡ C.contents self.old.into ++ self.old.piece)
            × (self.new.piece ≡ []) }
        ensures full { IsFalse result →
            (C.contents self.new.into ≡ C.contents self.old.into)
            × (self.new.piece ≡ self.old.piece)
            × (C.capacity self.old.into
            < length (C.contents self.old.into) + length self.old.piece) }
    {
        let fits = self.into.push_bytes(self.piece.as_bytes()).is_ok();
        if fits {
            self.piece.clear();
        }
        fits
    }

    /// Returns the container, with all bytes in it.
    pub(crate) fn finish(mut self) -> C
        requires text { IsFalse C.TAKES_BYTES → IsUtf8 self.piece }
        requires room { length (C.contents self.into) + length self.piece ≤ C.capacity self.into }
        ensures { C.contents result ≡ C.contents self.into ++ self.piece }
    {
        if !self.flush() {
            unreachable!();
        }
        self.into
    }
}

impl<C: EscapeContainer> Sink for Filled<C> {
    ghost holds = { λ s. IsFilledTo C.TAKES_BYTES (C.contents s.into) s.piece };

    ghost takes_bytes = { C.TAKES_BYTES };

    ghost room = { λ s. C.capacity s.into };

    #[inline(always)]
    fn push_run(&mut self, text: &str, start: usize, end: usize) -> bool {
        let run = &text[start..end];
        self.piece.push_part(text.as_bytes(), start, end)
            || self.flush() && self.into.push_str(run).is_ok()
    }

    #[inline(always)]
    fn push(&mut self, value: Option<Unescape>) -> bool {
        match value {
            None => true,
            Some(value) => {
                self.piece.push_value(value) || self.flush() && self.piece.push_value(value)
            }
        }
    }
}

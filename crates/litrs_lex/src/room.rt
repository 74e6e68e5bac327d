//! A value on the stack.
ghost use Rattle.std.specs.Prelude.{◌≡◌, ◌≤◌, ◌<◌, ◌+◌, ◌-◌, ◌++◌, [], List, ℕ, Bool, true, length, take, drop, IsTrue, IsFalse, IsUtf8};
ghost use Rattle.litrs_grammar.specs.Escape.{value_bytes};
ghost use Rattle.litrs_lex.specs.Container.{is_pushable};

use crate::sink::Sink;
use litrs_base::Unescape;
use std::marker::Model;

/// The number of bytes that are moved for a short run.
const MOVE_LEN: usize = 16;

/// A value of at most `N` bytes.
#[derive(Drop)]
pub(crate) struct Room<const N: usize> {
    /// The bytes of the value, followed by bytes that may be overwritten.
    room: [u8; N],
    /// The length of the value.
    len: usize,
}

impl<const N: usize> Model for Room<N> {
    ghost Value = { List ℕ };

    ghost view = { λ s. take s.len s.room };

    ghost invariant = { λ s. s.len ≤ N };
}

impl<const N: usize> Room<N> {
    /// Creates an empty value.
    #[inline(always)]
    pub(crate) fn new() -> Room<N>
        ensures { result ≡ [] }
    {
        Room {
            room: [0; N],
            len: 0,
        }
    }

    #[inline(always)]
    pub(crate) fn as_bytes(&self) -> &[u8]
        ensures { result.now ≡ self.now }
    {
        &self.room[..self.len]
    }

    /// Removes all bytes.
    #[inline(always)]
    pub(crate) fn clear(&mut self)
        ensures { self.new ≡ [] }
    {
        self.len = 0;
    }

    /// Appends `bytes`. Returns `false` if they do not fit.
    #[inline(always)]
    pub(crate) fn push_bytes(&mut self, bytes: &[u8]) -> bool
        ensures taken { IsTrue result → self.new ≡ self.old ++ bytes.now }
        ensures full { IsFalse result →
            (self.new ≡ self.old) × (N < length self.old + length bytes.now) }
    {
        if bytes.len() <= N - self.len {
            copy_at(&mut self.room, self.len, bytes);
            self.len += bytes.len();
            true
        } else {
            false
        }
    }

    /// Appends the bytes of `text` from `start` up to `end`. Returns `false` if they do not fit.
    ///
    /// A run of at most 16 bytes is moved as 16 if `text` and the room have as many left. The next
    /// bytes overwrite the surplus.
    #[inline(always)]
    pub(crate) fn push_part(&mut self, text: &[u8], start: usize, end: usize) -> bool
        requires { (start ≤ end) × (end ≤ length text.now) }
        ensures taken { IsTrue result →
            self.new ≡ self.old ++ take (end - start) (drop start text.now) }
        ensures full { IsFalse result →
            (self.new ≡ self.old) × (N < length self.old + (end - start)) }
    {
        // There is no run between two escapes.
        if start == end {
            return true;
        }
        let count = end - start;
        if count <= MOVE_LEN && text.len() - start >= MOVE_LEN && N - self.len >= MOVE_LEN {
            let mut moved = [0; MOVE_LEN];
            moved.copy_from_slice(&text[start..start + MOVE_LEN]);
            copy_at(&mut self.room, self.len, &moved);
            self.len += count;
            true
        } else {
            self.push_bytes(&text[start..end])
        }
    }

    /// Appends the value of an escape. Returns `false` if it does not fit.
    #[inline(always)]
    pub(crate) fn push_value(&mut self, value: Unescape) -> bool
        ensures taken { IsTrue result → self.new ≡ self.old ++ value_bytes value }
        ensures full { IsFalse result →
            (self.new ≡ self.old) × (N < length self.old + length (value_bytes value)) }
        ensures text { (takes_bytes : Bool) → IsTrue (is_pushable takes_bytes value) →
            IsFalse takes_bytes → IsUtf8 (value_bytes value) }
    {
        match value {
            Unescape::Byte(byte) => self.push_bytes(&[byte]),
            Unescape::Unicode(c) => if c.is_ascii() {
                self.push_bytes(&[c as u8])
            } else {
                self.push_bytes(c.encode_utf8(&mut [0; 4]).as_bytes())
            },
        }
    }
}

/// Copies `bytes` over those of `room` from `place` on.
#[inline(always)]
fn copy_at(room: &mut [u8], place: usize, bytes: &[u8])
    requires { place + length bytes.now ≤ length room.old }
    ensures { take (place + length bytes.now) room.new ≡ take place room.old ++ bytes.now }
{
    room[place..place + bytes.len()].copy_from_slice(bytes);
}

impl<const N: usize> Sink for Room<N> {
    ghost holds = { λ s v. s ≡ v };

    ghost takes_bytes = { true };

    ghost room = { λ _. N };

    #[inline(always)]
    fn push_run(&mut self, text: &str, start: usize, end: usize) -> bool {
        self.push_part(text.as_bytes(), start, end)
    }

    #[inline(always)]
    fn push(&mut self, value: Option<Unescape>) -> bool {
        match value {
            None => true,
            Some(value) => self.push_value(value),
        }
    }
}

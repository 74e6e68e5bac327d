//! An output into memory, whose bytes are known.
ghost use Rattle.std.specs.Prelude.{◌≡◌, ◌-◌, ◌≤◌, ◌<◌, ◌↔◌, ◌⊎◌, min, true, false, Some, [], length, vec_len, vec_capacity, IsOk, IsErr, IsTrue, IfOk, OnOk, OnErr};
ghost use Rattle.std.specs.Io.KnownBytes.{Keeps, WriteAppends};
ghost use Rattle.litrs_lines.specs.Devices.{RecordsFailure};
ghost use Rattle.litrs_lines.specs.Calls.{fresh_calls, next_fails, after_call};

use crate::device::{Failed, Output};
use crate::device_calls::Calls;
use std::alloc::{AllocError, Global};

/// An output that keeps the bytes written to it in memory.
#[derive(Debug, Drop)]
pub struct MemOutput {
    bytes: Vec<u8>,
    room: usize,
    piece: usize,
    calls: Calls,
    failed: bool,
    write_failed: bool,
    flushed: bool,
    ghost some: { 0 < piece },
    ghost within: { vec_len bytes ≤ room },
    ghost reserved: { room ≤ vec_capacity bytes },
}

impl MemOutput {
    ghost use Rattle.litrs_lines.specs.MemOutput.{bytes_of, room_of, piece_of, calls_of, failed_of, write_failed_of, flushed_of};

    /// Creates an output for `room` bytes. A call takes at most `piece` bytes, and `piece` is at
    /// least 1. Calls from number `fail_at` on fail, counted from 0 over writes and flushes. A
    /// write also fails if the output is full. Does not allocate if `room` is 0.
    ///
    /// # Errors
    ///
    /// Returns `AllocError` if the allocation fails.
    pub fn new(
        alloc: Global,
        room: usize,
        piece: usize,
        fail_at: Option<u64>,
    ) -> Result<Self, AllocError>
        requires { 0 < piece }
        ensures bytes { IfOk result (λ output. bytes_of output ≡ []) }
        ensures room { IfOk result (λ output. room_of output ≡ room) }
        ensures piece { IfOk result (λ output. piece_of output ≡ piece) }
        ensures calls { IfOk result (λ output. calls_of output ≡ fresh_calls fail_at) }
        ensures failed { IfOk result (λ output. failed_of output ≡ false) }
        ensures write_failed { IfOk result (λ output. write_failed_of output ≡ false) }
        ensures flushed { IfOk result (λ output. flushed_of output ≡ true) }
        ensures succeeds { room ≡ 0 → IsOk result }
    {
        Ok(MemOutput {
            // bounded by the parameter `room`.
            bytes: Vec::with_capacity(alloc, room)?,
            room,
            piece,
            calls: Calls::new(fail_at),
            failed: false,
            write_failed: false,
            flushed: true,
        })
    }

    /// Returns the bytes that were written: `bool true` and an LF after a run over `true`.
    pub fn bytes(&self) -> &[u8]
        ensures { result.now ≡ bytes_of self.now }
    {
        self.bytes.as_slice()
    }
}

impl Output for MemOutput {
    ghost use Rattle.litrs_lines.specs.MemOutput.{bytes_of, room_of, room_left, piece_of, calls_of, failed_of, write_failed_of, flushed_of};

    ghost contents = { λ output. Some (bytes_of output) };

    ghost has_failed = { failed_of };

    ghost write_failed = { write_failed_of };

    ghost is_flushed = { flushed_of };

    fn write(&mut self, piece: &[u8]) -> Result<usize, Failed>
        ensures bound { IfOk result (λ count. count ≤ length piece.now) }
        ensures some { IfOk result (λ count. count ≡ 0 → piece.now ≡ []) }
        ensures bytes { WriteAppends (Some (bytes_of self.old)) (Some (bytes_of self.new))
            result piece.now }
        ensures failed { RecordsFailure (failed_of self.old) (failed_of self.new) result }
        ensures write_failed { RecordsFailure (write_failed_of self.old) (write_failed_of self.new)
            result }

        // The number of bytes that move, and the calls that fail.
        ensures fails { IsErr result
            ↔ (IsTrue (next_fails (calls_of self.old)) ⊎ (room_left self.old ≡ 0)) }
        ensures count { IfOk result (λ count.
            count ≡ min (min (length piece.now) (piece_of self.old)) (room_left self.old)) }
        ensures calls { calls_of self.new ≡ after_call (calls_of self.old) }
        ensures piece { piece_of self.new ≡ piece_of self.old }
        ensures room { room_of self.new ≡ room_of self.old }
        ensures flushed { flushed_of self.new ≡ false }
    {
        self.flushed = false;
        let room_left = self.room - self.bytes.len();
        if self.calls.make().is_err() || room_left == 0 {
            self.failed = true;
            self.write_failed = true;
            return Err(Failed);
        }
        let count = piece.len().min(self.piece).min(room_left);
        match self.bytes.extend_from_slice(&piece[..count]) {
            Ok(()) => Ok(count),
            Err(_) => unreachable!(),
        }
    }

    fn flush(&mut self) -> Result<(), Failed>
        ensures bytes { Keeps (Some (bytes_of self.old)) (Some (bytes_of self.new)) }
        ensures flushed { OnOk result (flushed_of self.new ≡ true) }
        ensures failed { RecordsFailure (failed_of self.old) (failed_of self.new) result }

        // The calls that fail, which change nothing else.
        ensures kept { OnErr result (flushed_of self.new ≡ flushed_of self.old) }
        ensures write_failed { write_failed_of self.new ≡ write_failed_of self.old }
        ensures fails { IsErr result ↔ IsTrue (next_fails (calls_of self.old)) }
        ensures calls { calls_of self.new ≡ after_call (calls_of self.old) }
        ensures piece { piece_of self.new ≡ piece_of self.old }
        ensures room { room_of self.new ≡ room_of self.old }
    {
        if self.calls.make().is_err() {
            self.failed = true;
            return Err(Failed);
        }
        self.flushed = true;
        Ok(())
    }

    fn failed(&self) -> bool {
        self.failed
    }
}

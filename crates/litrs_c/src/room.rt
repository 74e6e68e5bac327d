//! Writes to the room of the caller.
ghost use Rattle.std.specs.Prelude.{◌+◌, ◌^◌, ◌<◌, length};
ghost use Rattle.litrs_c.specs.Answers.{IsWritten, IsWrittenFrom};

/// Writes `bytes` to `room`, as many as fit, and returns the length of `bytes`.
pub(crate) fn write(room: &mut [u8], bytes: &[u8]) -> usize
    ensures { IsWritten bytes.now room.old room.new result }
{
    let fits = bytes.len().min(room.len());
    room[..fits].copy_from_slice(&bytes[..fits]);
    bytes.len()
}

/// Writes `part` to `room` from `place` on, as much as fits, and returns the end of the part.
/// `place` may lie past the room.
pub(crate) fn write_from(room: &mut [u8], place: usize, part: &str) -> usize
    requires { place + length part.now < 2 ^ 64 }
    ensures { IsWrittenFrom place part.now room.old room.new result }
{
    let start = place.min(room.len());
    place + write(&mut room[start..], part.as_bytes())
}

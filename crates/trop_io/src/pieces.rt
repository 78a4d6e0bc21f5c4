//! How many bytes a call moves.
ghost use Rattle.std.specs.Prelude.{◌≡◌, ◌≤◌, ◌-◌, ◌++◌, length, take, min, vec_capacity};

// Copies as many bytes as the piece and both slices allow.
pub(crate) fn give(left: &[u8], piece: usize, buf: &mut [u8]) -> usize
    ensures count { result ≡ min (min piece (length buf.old)) (length left.now) }
    ensures bytes { take result buf.new ≡ take result left.now }
{
    let count = piece.min(buf.len()).min(left.len());
    buf[..count].copy_from_slice(&left[..count]);
    count
}

// Appends as many bytes as the piece and the room allow, which the capacity holds.
pub(crate) fn take_in(bytes: &mut Vec<u8>, room: usize, piece: usize, from: &[u8]) -> usize
    requires within { length bytes.old.items ≤ room }
    requires capacity { room ≤ vec_capacity bytes.old }
    ensures count { result ≡ min (min piece (length from.now)) (room - length bytes.old.items) }
    ensures bytes { bytes.new.items ≡ bytes.old.items ++ take result from.now }
    ensures capacity { room ≤ vec_capacity bytes.new }
{
    let count = piece.min(from.len()).min(room - bytes.len());
    bytes.extend_from_slice(&from[..count]).unwrap();
    count
}

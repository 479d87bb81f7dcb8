ghost use Rattle.std.specs.Prelude.{◌≡◌, ◌-◌, ◌+◌, ◌≤◌, ◌↔◌, ◌++◌, IsTrue, Contains, length, min, take, vec_len, vec_capacity};

/// Whether a call's number is listed.
pub(crate) fn is_listed(numbers: &[u32], number: u64) -> bool
    ensures { IsTrue result ↔ Contains numbers.now number }
{
    numbers.iter().any(|listed| u64::from(*listed) == number)
}

/// Copies the first of `left` to the front of `buf`, as many as there are and fit, at most `chunk`, and answers how many.
pub(crate) fn give(left: &[u8], chunk: usize, buf: &mut [u8]) -> usize
    ensures count { result ≡ min chunk (min (length buf.old) (length left.now)) }
    ensures octets { take result buf.new ≡ take result left.now }
{
    let count = chunk.min(buf.len().min(left.len()));
    buf[..count].copy_from_slice(&left[..count]);
    count
}

/// Puts the first of `piece` behind what is held, as many as there is room for, and answers how many.
pub(crate) fn keep(held: &mut Vec<u8>, room: usize, piece: &[u8]) -> usize
    requires within { vec_len held.old ≤ room }
    requires reserved { room ≤ vec_capacity held.old }
    ensures count { result ≡ min (length piece.now) (room - vec_len held.old) }
    ensures octets { held.new.items ≡ held.old.items ++ take result piece.now }
    ensures length { vec_len held.new ≡ vec_len held.old + result }
    ensures reserved { room ≤ vec_capacity held.new }
{
    let count = piece.len().min(room - held.len());
    held.extend_from_slice(&piece[..count]).unwrap();
    count
}

//! Octets that are kept in memory reserved before.

ghost use Rattle.std.specs.Prelude.{◌≡◌, ◌-◌, ◌+◌, ◌≤◌, ◌++◌, length, min, take, drop, vec_len, vec_capacity};

/// How many octets are held.
pub(crate) fn count_of(held: &Vec<u8>) -> usize
    ensures count { result ≡ length held.now.items }
    ensures length { result ≡ vec_len held.now }
{
    held.as_slice().len()
}

/// Puts these octets behind what is held.
pub(crate) fn put_all(held: &mut Vec<u8>, octets: &[u8])
    requires { vec_len held.old + length octets.now ≤ vec_capacity held.old }
    ensures octets { held.new.items ≡ held.old.items ++ octets.now }
    ensures length { vec_len held.new ≡ vec_len held.old + length octets.now }
    ensures capacity { vec_capacity held.old ≤ vec_capacity held.new }
{
    held.extend_from_slice(octets).unwrap();
}

/// Puts these octets in the place of what was held.
pub(crate) fn refill(held: &mut Vec<u8>, octets: &[u8])
    requires { length octets.now ≤ vec_capacity held.old }
    ensures octets { held.new.items ≡ octets.now }
    ensures capacity { vec_capacity held.old ≤ vec_capacity held.new }
{
    held.clear();
    put_all(held, octets);
}

/// Puts the first of `piece` behind what is held, as many as there is room for, and answers how many.
pub(crate) fn keep(held: &mut Vec<u8>, room: usize, piece: &[u8]) -> usize
    requires within { vec_len held.old ≤ room }
    requires reserved { room ≤ vec_capacity held.old }
    ensures count { result ≡ min (length piece.now) (room - vec_len held.old) }
    ensures octets { held.new.items ≡ held.old.items ++ take result piece.now }
    ensures length { vec_len held.new ≡ vec_len held.old + result }
    ensures reserved { room ≤ vec_capacity held.new }
{
    let count = piece.len().min(room - held.len());
    put_all(held, &piece[..count]);
    count
}

/// Takes the first octets off, as many as there are and `buf` has room for, puts them at its front, and answers how many.
pub(crate) fn give(held: &mut Vec<u8>, buf: &mut [u8]) -> usize
    ensures count { result ≡ min (length buf.old) (vec_len held.old) }
    ensures octets { take result buf.new ≡ take result held.old.items }
    ensures rest { held.new.items ≡ drop result held.old.items }
    ensures length { vec_len held.new ≡ vec_len held.old - result }
    ensures capacity { vec_capacity held.new ≡ vec_capacity held.old }
{
    let count = buf.len().min(held.len());
    buf[..count].copy_from_slice(&held[..count]);
    take_off(held, count);
    count
}

/// Takes so many octets off the front.
fn take_off(held: &mut Vec<u8>, count: usize)
    requires { count ≤ vec_len held.old }
    ensures rest { held.new.items ≡ drop count held.old.items }
    ensures length { vec_len held.new ≡ vec_len held.old - count }
    ensures capacity { vec_capacity held.new ≡ vec_capacity held.old }
{
    held.drain(..count);
}

//! Bytes that lie in several pieces.

ghost use Rattle.std.specs.Prelude.{◌≡◌, ◌+◌, ◌^◌, ◌<◌, ◌≤◌, ◌++◌, SomeIff, drop, get_or, length, min, sum, take};
ghost use Rattle.vhost_connection.specs.Pass.{joined};

/// Passes whole pieces while `skip_size` is at least the length of the next one: how many, and what remains of
/// `skip_size` then.
///
/// Of pieces of 4, 4 and 5 bytes, 6 bytes pass the first, and 2 of the second. Where all are passed, the remainder may
/// be of any size.
///
/// Mirrors `get_sub_iovs_offset` of the crate `vhost`.
pub fn get_sub_iovs_offset(iov_lens: &[usize], skip_size: usize) -> (usize, usize)
    ensures count { result.0 ≤ length iov_lens.now }
    ensures whole { sum (take result.0 iov_lens.now) + result.1 ≡ skip_size }
    ensures within { result.0 < length iov_lens.now → result.1 < get_or iov_lens.now result.0 0 }
{
    let mut count = 0;
    let mut size = skip_size;
    while count < iov_lens.len() && iov_lens[count] <= size {
        size -= iov_lens[count];
        count += 1;
    }
    (count, size)
}

/// How many bytes the pieces have together, unless there are too many to be counted.
pub(crate) fn total_len(pieces: &[&[u8]]) -> Option<usize>
    ensures { SomeIff result (length (joined pieces.now) < 2 ^ 64) (length (joined pieces.now)) }
{
    let mut total: usize = 0;
    for piece in pieces {
        match total.checked_add(piece.len()) {
            Some(more) => total = more,
            None => return None,
        }
    }
    Some(total)
}

/// Writes as many of the bytes as there is room for to the start of a buffer.
fn put_front(out: &mut [u8], bytes: &[u8]) -> usize
    ensures count { result ≡ min (length out.old) (length bytes.now) }
    ensures bytes { out.new ≡ take result bytes.now ++ drop result out.old }
{
    let count = out.len().min(bytes.len());
    out[..count].copy_from_slice(&bytes[..count]);
    count
}

/// Writes the pieces one after another, as far as there is room.
pub(crate) fn gather(out: &mut [u8], pieces: &[&[u8]]) -> usize
    ensures count { result ≡ min (length out.old) (length (joined pieces.now)) }
    ensures bytes { take result out.new ≡ take result (joined pieces.now) }
{
    let mut count = 0;
    for piece in pieces {
        count += put_front(&mut out[count..], piece);
    }
    count
}

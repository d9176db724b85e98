// Little-endian fields of two and four bytes, split off the front of a part and put into a buffer.
#![tactic(auto)]

ghost use Rattle.std.specs.Prelude.{◌≡◌, ◌<◌, ◌≤◌, length, drop, MatchOption};
ghost use Rattle.fields.specs.Patches.{after_put, put_end};

mod field;

pub use field::Field;

// The number in front, and what follows it; none where there are fewer bytes.
pub fn split<T: Field<N>, const N: usize>(bytes: &[u8]) -> Option<(T, &[u8])>
    ensures { MatchOption result (length bytes.now < N) (λ x. (N ≤ length bytes.now) × (x.0 ≡ T.front bytes.now) × (x.1.now ≡ drop N bytes.now)) }
{
    let (head, rest) = bytes.split_first_chunk::<N>()?;
    Some((T::read(head), rest))
}

// Writes bytes into the buffer from an offset on, and answers the offset after them.
// An offset and no rest of the buffer, since it answers the next one, or leaves all as it was.
// Where they do not fit it answers none, and the buffer stays as it was.
pub fn put_bytes(buffer: &mut [u8], at: usize, bytes: &[u8]) -> Option<usize>
    ensures value { result ≡ put_end at bytes.now buffer.old }
    ensures after { buffer.new ≡ after_put at bytes.now buffer.old }
{
    let end = at.checked_add(bytes.len())?;
    if end > buffer.len() {
        return None;
    }
    buffer[at..end].copy_from_slice(bytes);
    Some(end)
}

// A number, put as `put_bytes` puts its bytes.
pub fn put<T: Field<N>, const N: usize>(buffer: &mut [u8], at: usize, x: T) -> Option<usize>
    ensures value { result ≡ put_end at (T.spelled x) buffer.old }
    ensures after { buffer.new ≡ after_put at (T.spelled x) buffer.old }
{
    put_bytes(buffer, at, &x.spell())
}

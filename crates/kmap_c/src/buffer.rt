//! Bytes that are put into a buffer of the caller, piece by piece. Those that have no room there are only counted.
ghost use Rattle.std.specs.Prelude.{◌≡◌, ℕ, ◌+◌, ◌^◌, ◌<◌, List, ◌++◌, length};
ghost use Rattle.kmap_c.specs.Buffers.{HasPut};

/// Puts a piece behind so many bytes, and answers how many they are with it.
pub(crate) fn put(buffer: &mut [u8], at: usize, piece: &[u8]) -> usize
    requires { at + length piece.now < 2 ^ 63 }
    ensures count { result ≡ at + length piece.now }
    ensures text { (bytes old : List ℕ) → HasPut bytes old at buffer.old
        → HasPut (bytes ++ piece.now) old result buffer.new }
{
    let end = at + piece.len();
    if end <= buffer.len() {
        buffer[at..end].copy_from_slice(piece);
    }
    end
}

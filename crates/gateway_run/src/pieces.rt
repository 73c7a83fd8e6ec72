//! Pieces of what is read.
ghost use Rattle.std.specs.Prelude.{◌≡◌, length};

/// How many bytes are asked for at a time.
pub(crate) const PIECE_BYTES: usize = 16_384;

/// How many bytes there are.
pub(crate) fn len_of(bytes: &Vec<u8>) -> usize
    ensures { result ≡ length bytes.now.items }
{
    bytes.as_slice().len()
}

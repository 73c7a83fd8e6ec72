//! Integers of prefixes (RFC 7541, section 5.1). `ones` is a prefix with every bit set.
ghost use Rattle.std.specs.Prelude.{◌≡◌, ◌≤◌, length, IfSome};
ghost use Rattle.hpack_codec.specs.PrefixInteger.{integer_in};

use base::read_groups;

/// How many groups of seven bits may stand behind a prefix.
const MAX_GROUPS: usize = 5;

/// The integer at the front, and how many bytes it takes.
pub(crate) fn read_integer(bytes: &[u8], ones: u8) -> Option<(u32, usize)>
    ensures value { result ≡ integer_in ones bytes.now }
    ensures len { IfSome result (λ r. (1 ≤ r.1) × (r.1 ≤ length bytes.now)) }
{
    let (first, rest) = bytes.split_first()?;
    let low = *first as u32 % (ones as u32 + 1);
    if low < ones as u32 {
        return Some((low, 1));
    }
    let (high, len) = read_groups(rest, MAX_GROUPS).ok()?;
    let n = ones as u128 + high;
    if n < 1 << 32 {
        Some((n as u32, len + 1))
    } else {
        None
    }
}

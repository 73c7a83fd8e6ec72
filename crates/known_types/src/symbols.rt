//! The two alphabets of base64 (RFC 4648, sections 4 and 5).
ghost use Rattle.std.specs.Prelude.{◌≡◌, map, IfOk};
ghost use Rattle.known_types.specs.BytesTexts.{standard_symbol as standard_of};

use base::NoMemory;
use std::alloc::Global;

/// The symbol of the standard alphabet for the bits of one of either alphabet; other bytes stay.
fn standard_symbol(byte: u8) -> u8
    ensures { result ≡ standard_of byte }
{
    match byte {
        b'-' => b'+',
        b'_' => b'/',
        other => other,
    }
}

/// The text with all its symbols in the standard alphabet.
pub(crate) fn standard_symbols(alloc: Global, text: &[u8]) -> Result<Vec<u8>, NoMemory>
    ensures { IfOk result (λ out. out.items ≡ map standard_of text.now) }
{
    let mut out = Vec::with_capacity(alloc, text.len())?;
    for byte in text {
        out.push(standard_symbol(*byte))?;
    }
    Ok(out)
}

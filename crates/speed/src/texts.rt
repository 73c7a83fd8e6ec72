//! JSON texts of books.

use json_events::Reader;
use std::alloc::{AllocError, Global};

const BOOK: &[u8] =
    b"{\"title\":\"The Left Hand of Darkness\",\"author\":{\"name\":\"Ursula K. Le Guin\",\"born\":1929},\"pages\":304,\"price\":-12.50e0,\"tags\":[\"science fiction\",\"caf\\u00e9\",\"Gr\xc3\xbc\xc3\x9fe\"],\"printed\":true,\"sequel\":null,\"isbn\":\"978-0-441-47812-5\"},\n";

/// An array of one book at least, of about so many MiB.
fn books(alloc: Global, size: usize) -> Result<Vec<u8>, AllocError> {
    let bytes = size.saturating_mul(1_048_576);
    let mut text = Vec::with_capacity(alloc, bytes.saturating_add(1_024))?;
    text.push(b'[')?;
    for _ in 0..bytes / 256 + 1 {
        text.extend_from_slice(BOOK)?;
    }
    text.extend_from_slice(b"0]")?;
    Ok(text)
}

/// How many tokens a text has, read in pieces of so many bytes; 0 where it is refused. A number that only the text's end
/// ends is left out.
fn tokens_in(alloc: Global, text: &[u8], piece: usize) -> u64 {
    let mut reader = Reader::new(alloc);
    let mut count = 0u64;
    let mut rest = text;
    for _ in 0..text.len().saturating_mul(2).saturating_add(1) {
        if rest.is_empty() {
            break;
        }
        match reader.feed(&rest[..piece.min(rest.len())]) {
            Err(_) => return 0,
            Ok(fed) => {
                rest = rest.get(fed.taken..).unwrap_or(b"");
                if fed.token.is_some() {
                    count = count.saturating_add(1);
                }
            }
        }
    }
    count
}

/// How many tokens a text of about so many MiB has, read in pieces of so many bytes; 0 where it is refused.
pub fn token_count(alloc: Global, size: usize, piece: usize) -> Result<u64, AllocError> {
    Ok(tokens_in(alloc, books(alloc, size)?.as_slice(), piece))
}

/// How many tokens a text has that is read so often in one piece; 0 where it is refused.
pub fn token_rounds(alloc: Global, text: &[u8], rounds: usize) -> u64 {
    let mut count = 0u64;
    for _ in 0..rounds {
        count = count.saturating_add(tokens_in(alloc, text, text.len()));
    }
    count
}

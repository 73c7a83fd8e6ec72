//! JSON of the library's books, as texts, tokens and values.

use crate::json_types::book_types;
use crate::texts::token_rounds;
use field_index::IndexedTypes;
use json_bodies::read_body;
use protojson_write::show;
use schema::{TypeId, Value, valid};
use std::alloc::{AllocError, Global};

/// How many bytes a text has at most that is shown: 1 MiB.
const MAX_TEXT_BYTES: u64 = 1_048_576;

/// The title of a book, often.
const TITLE: &[u8] = b"The \\\"Left\\\" Hand of Gr\xc3\xbc\xc3\x9fe, ";

/// What stands behind the shelves that have a book.
const SEQUEL: &[u8] =
    b"},\"person\":\"Ursula K. Le Guin\",\"lent\":true,\"price\":\"1250\",\"sequel\":{\"pages\":189}}";

/// Appends a text as often as it fits into so many bytes.
fn put_often(out: &mut Vec<u8>, text: &[u8], bytes: usize) -> Result<(), AllocError> {
    for _ in 0..bytes / text.len().max(1) {
        out.extend_from_slice(text)?;
    }
    Ok(())
}

/// The JSON of a book of about so many bytes, as it is shown: a quarter of it is its title, a quarter its marks, a
/// quarter its cover, and a quarter the shelves that have it.
fn book_text(alloc: Global, bytes: usize) -> Result<Vec<u8>, AllocError> {
    let mut text = Vec::with_capacity(alloc, bytes.saturating_add(1_024))?;
    let part = bytes.saturating_sub(256) / 4;
    text.extend_from_slice(b"{\"name\":\"books/8259\",\"title\":\"")?;
    put_often(&mut text, TITLE, part)?;
    text.extend_from_slice(b"\",\"pages\":304,\"marks\":[\"5\"")?;
    put_often(&mut text, b",\"-4\",\"300\",\"1234567890123\"", part)?;
    text.extend_from_slice(b"],\"kind\":\"NOVEL\",\"cover\":\"")?;
    put_often(&mut text, b"iVBORw0KGgoAAAANSUhEUgAA+/8A", part)?;
    text.extend_from_slice(b"\",\"stock\":{\"library\":7")?;
    for i in 0..part / 17 {
        let shelf = 10_000_000u64.saturating_add(i as u64);
        text.extend_from_slice(format!(in alloc; ",\"s{shelf}\":12")?.as_bytes())?;
    }
    text.extend_from_slice(SEQUEL)?;
    Ok(text)
}

/// How often texts of a length are in so many MiB, once at least.
fn rounds_of(text: &[u8], size: usize) -> usize {
    (size.saturating_mul(1_048_576) / text.len().max(1)).saturating_add(1)
}

/// The book that a text is; None where it is refused, or without memory.
fn book_of(alloc: Global, types: &IndexedTypes<'_>, text: &[u8]) -> Option<Value> {
    match read_body(alloc, types, TypeId(0), None, text, 0) {
        Ok(book) => Some(book),
        Err(_) => None,
    }
}

/// How many fields so many MiB of books of so many bytes have, each read; 0 where one is refused, or without memory.
pub fn read_rounds(alloc: Global, bytes: usize, size: usize) -> u64 {
    let Ok(declared) = book_types(alloc) else {
        return 0;
    };
    let Ok(types) = IndexedTypes::new(alloc, &declared) else {
        return 0;
    };
    let Ok(text) = book_text(alloc, bytes) else {
        return 0;
    };
    let mut count = 0u64;
    for _ in 0..rounds_of(text.as_slice(), size) {
        let Some(book) = book_of(alloc, &types, text.as_slice()) else {
            return 0;
        };
        count = count.saturating_add(book.fields().len() as u64);
    }
    count
}

/// How many bytes such books have, one of them shown again and again; 0 where that fails.
pub fn show_rounds(alloc: Global, bytes: usize, size: usize) -> u64 {
    let Ok(declared) = book_types(alloc) else {
        return 0;
    };
    let Ok(types) = IndexedTypes::new(alloc, &declared) else {
        return 0;
    };
    let Ok(text) = book_text(alloc, bytes) else {
        return 0;
    };
    match book_of(alloc, &types, text.as_slice()) {
        Some(book) => shown_bytes(alloc, &types, &book, rounds_of(text.as_slice(), size)),
        None => 0,
    }
}

/// How many bytes a book has that is shown so often; 0 where that fails.
fn shown_bytes(alloc: Global, types: &IndexedTypes<'_>, book: &Value, rounds: usize) -> u64 {
    if !valid(types.types(), TypeId(0), book) {
        return 0;
    }
    let mut out = Vec::new(alloc);
    let mut count = 0u64;
    for _ in 0..rounds {
        out.clear();
        match show(types, TypeId(0), None, book, MAX_TEXT_BYTES, &mut out) {
            Ok(()) => count = count.saturating_add(out.len() as u64),
            Err(_) => return 0,
        }
    }
    count
}

/// How many tokens such books have, each read by itself; 0 where one is refused, or without memory.
pub fn book_tokens(alloc: Global, bytes: usize, size: usize) -> u64 {
    match book_text(alloc, bytes) {
        Ok(text) => token_rounds(alloc, text.as_slice(), rounds_of(text.as_slice(), size)),
        Err(_) => 0,
    }
}

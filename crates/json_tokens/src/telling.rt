//! What the reader tells of a text, as a line.

use json_events::{JsonFault, Reader, Token};
use std::alloc::{AllocError, Global};

/// A word, and then the bytes in hexadecimal.
fn put_bytes(alloc: Global, out: &mut String, word: &str, bytes: &[u8]) -> Result<(), AllocError> {
    out.push_str(word)?;
    out.push_str(hex::encode(alloc, bytes)?.as_str())?;
    out.push_str(" ")
}

fn put_token(alloc: Global, out: &mut String, token: &Token) -> Result<(), AllocError> {
    match token {
        Token::BeginObject => out.push_str("{ "),
        Token::EndObject => out.push_str("} "),
        Token::BeginArray => out.push_str("[ "),
        Token::EndArray => out.push_str("] "),
        Token::Key(text) => put_bytes(alloc, out, "k", text.as_str().as_bytes()),
        Token::Text(text) => put_bytes(alloc, out, "t", text.as_str().as_bytes()),
        Token::Number(text) => put_bytes(alloc, out, "n", text.as_str().as_bytes()),
        Token::True => out.push_str("true "),
        Token::False => out.push_str("false "),
        Token::Null => out.push_str("null "),
    }
}

fn put_fault(alloc: Global, out: &mut String, fault: JsonFault) -> Result<(), AllocError> {
    match fault {
        JsonFault::Syntax(at) => out.push_str(format!(in alloc; "syntax {at}")?.as_str()),
        JsonFault::TooDeep(at) => out.push_str(format!(in alloc; "too deep {at}")?.as_str()),
        JsonFault::NoMemory => out.push_str("no memory"),
    }
}

/// Feeds the text in pieces of so many bytes; false where a fault was told.
fn feed(
    alloc: Global,
    reader: &mut Reader,
    text: &[u8],
    piece: usize,
    out: &mut String,
) -> Result<bool, AllocError> {
    let mut rest = text;
    for _ in 0..text.len().saturating_mul(2).saturating_add(1) {
        match reader.feed(&rest[..piece.min(rest.len())]) {
            Err(fault) => {
                put_fault(alloc, out, fault)?;
                return Ok(false);
            }
            Ok(fed) => {
                rest = rest.get(fed.taken..).unwrap_or(b"");
                match &fed.token {
                    None => {}
                    Some(given) => put_token(alloc, out, &given.token)?,
                }
            }
        }
    }
    Ok(true)
}

/// The tokens of a text that hexadecimal digits write, in pieces of so many bytes.
pub(crate) fn told(alloc: Global, digits: &str, piece: usize) -> Result<String, AllocError> {
    let mut out = String::new(alloc);
    let mut reader = Reader::new(alloc);
    let text = match hex::decode(alloc, digits) {
        Ok(text) => text,
        Err(_) => Vec::new(alloc),
    };
    if !feed(alloc, &mut reader, text.as_slice(), piece, &mut out)? {
        return Ok(out);
    }
    for _ in 0..2 {
        match reader.finish() {
            Err(fault) => {
                put_fault(alloc, &mut out, fault)?;
                return Ok(out);
            }
            Ok(None) => {}
            Ok(Some(given)) => put_token(alloc, &mut out, &given.token)?,
        }
    }
    out.push_str("end")?;
    Ok(out)
}

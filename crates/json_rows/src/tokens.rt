//! What the reader tells of a text.

use base::{Blob, List};
use json_events::{JsonFault, Reader, Token, read_text};
use rows::{Cut, Row, Stream, shown, told_however_cut, told_in_sizes};
use std::alloc::Global;
use std::io;

/// A letter, and then the bytes of a text.
fn put_bytes(alloc: Global, out: &mut String, letter: char, text: &str) -> io::Result<()> {
    out.push(letter)?;
    out.push_str(shown(alloc, text.as_bytes())?.as_str())?;
    out.push(' ')?;
    Ok(())
}

fn put_token(alloc: Global, out: &mut String, token: &Token) -> io::Result<()> {
    match token {
        Token::BeginObject => out.push_str("{ ")?,
        Token::EndObject => out.push_str("} ")?,
        Token::BeginArray => out.push_str("[ ")?,
        Token::EndArray => out.push_str("] ")?,
        Token::Key(text) => put_bytes(alloc, out, 'k', text.as_str())?,
        Token::Text(text) => put_bytes(alloc, out, 't', text.as_str())?,
        Token::Number(text) => put_bytes(alloc, out, 'n', text.as_str())?,
        Token::True => out.push_str("true ")?,
        Token::False => out.push_str("false ")?,
        Token::Null => out.push_str("null ")?,
    }
    Ok(())
}

fn put_fault(alloc: Global, out: &mut String, fault: JsonFault) -> io::Result<()> {
    match fault {
        JsonFault::Syntax(at) => out.push_str(format!(in alloc; "syntax {at}")?.as_str())?,
        JsonFault::TooDeep(at) => out.push_str(format!(in alloc; "too deep {at}")?.as_str())?,
        JsonFault::NoMemory => out.push_str("no memory")?,
    }
    Ok(())
}

/// Feeds a text in pieces, and appends the tokens; false where a fault was told.
fn feed(
    alloc: Global,
    reader: &mut Reader,
    text: &[u8],
    cut: Cut,
    out: &mut String,
) -> io::Result<bool> {
    let mut cut = cut;
    let mut rest = text;
    for _ in 0..text.len().saturating_add(1) {
        let (piece, behind) = rest.split_at(cut.next_piece(rest.len()));
        rest = behind;
        if !feed_piece(alloc, reader, piece, out)? {
            return Ok(false);
        }
        if rest.is_empty() {
            break;
        }
    }
    Ok(true)
}

/// Feeds a piece until all of it is taken, and appends the tokens; false where a fault was told.
fn feed_piece(
    alloc: Global,
    reader: &mut Reader,
    piece: &[u8],
    out: &mut String,
) -> io::Result<bool> {
    let mut rest = piece;
    for _ in 0..piece.len().saturating_mul(2).saturating_add(1) {
        match reader.feed(rest) {
            Err(fault) => {
                put_fault(alloc, out, fault)?;
                return Ok(false);
            }
            Ok(fed) => {
                rest = rest.get(fed.taken..).unwrap_or(b"");
                match &fed.token {
                    None => return Ok(true),
                    Some(given) => put_token(alloc, out, &given.token)?,
                }
            }
        }
    }
    Ok(true)
}

/// Ends a text, and appends what is told then.
fn finish(alloc: Global, reader: &mut Reader, out: &mut String) -> io::Result<()> {
    for _ in 0..2 {
        match reader.finish() {
            Err(fault) => return put_fault(alloc, out, fault),
            Ok(None) => {}
            Ok(Some(given)) => put_token(alloc, out, &given.token)?,
        }
    }
    out.push_str("end")?;
    Ok(())
}

/// A text, whose tokens are told, and then the fault or `end`.
#[derive(Drop)]
struct Texts;

impl Stream for Texts {
    fn told(&self, alloc: Global, bytes: &[u8], cut: Cut) -> io::Result<String> {
        let mut out = String::new(alloc);
        let mut reader = Reader::new(alloc);
        if feed(alloc, &mut reader, bytes, cut, &mut out)? {
            finish(alloc, &mut reader, &mut out)?;
        }
        Ok(out)
    }
}

/// The tokens of a text, which must be the same in any pieces.
pub(crate) fn however_cut(alloc: Global, row: &mut Row) -> io::Result<String> {
    let text = row.bytes(alloc)?;
    told_however_cut(alloc, &Texts, text.as_slice())
}

/// Of each front of a text, from the empty one to the whole, the last word that is told in pieces of some sizes: where
/// it ends, or `end` where it is a text.
pub(crate) fn of_fronts(alloc: Global, row: &mut Row) -> io::Result<String> {
    let text = row.bytes(alloc)?;
    let mut out = String::new(alloc);
    for len in 0..=text.len() {
        let (front, _) = text.as_slice().split_at(len.min(text.len()));
        let told = told_in_sizes(alloc, &Texts, front, &[1, 2, 5])?;
        if len > 0 {
            out.push(' ')?;
        }
        let (_, last) = told
            .as_str()
            .rsplit_once(' ')
            .unwrap_or(("", told.as_str()));
        out.push_str(last)?;
    }
    Ok(out)
}

/// Each token's offsets and how many bytes the call took that gave it.
pub(crate) fn with_offsets(alloc: Global, row: &mut Row) -> io::Result<String> {
    let text = row.bytes(alloc)?;
    let mut out = String::new(alloc);
    let mut reader = Reader::new(alloc);
    let mut rest = text.as_slice();
    for _ in 0..text.len().saturating_mul(2) {
        match reader.feed(rest) {
            Err(fault) => {
                put_fault(alloc, &mut out, fault)?;
                return Ok(out);
            }
            Ok(fed) => {
                rest = rest.get(fed.taken..).unwrap_or(b"");
                let Some(given) = &fed.token else {
                    break;
                };
                let (from, to, taken) = (given.from, given.to, fed.taken);
                out.push_str(format!(in alloc; "{from}-{to}/{taken} ")?.as_str())?;
            }
        }
    }
    finish(alloc, &mut reader, &mut out)?;
    Ok(out)
}

/// What `finish` answers behind the first word's bytes, and then what `feed` and `finish` answer to each
/// further word's.
pub(crate) fn again(alloc: Global, row: &mut Row) -> io::Result<String> {
    let mut out = String::new(alloc);
    let mut reader = Reader::new(alloc);
    let _first = reader.feed(row.bytes(alloc)?.as_slice());
    finish(alloc, &mut reader, &mut out)?;
    for _ in 0..16 {
        if row.is_empty() {
            break;
        }
        out.push_str(", ")?;
        let more = row.bytes(alloc)?;
        let _whole = feed_piece(alloc, &mut reader, more.as_slice(), &mut out)?;
        out.push_str(", ")?;
        finish(alloc, &mut reader, &mut out)?;
    }
    Ok(out)
}

/// The most pieces of a text in a row.
const MOST_PIECES: usize = 16;

/// The tokens of a whole text, whose pieces are the words, and then the fault or `end`.
pub(crate) fn whole(alloc: Global, row: &mut Row) -> io::Result<String> {
    let mut pieces = Vec::new(alloc);
    for _ in 0..MOST_PIECES {
        if row.is_empty() {
            break;
        }
        pieces.push(Blob::from_vec(row.bytes(alloc)?))?;
    }
    let mut told = List::new(alloc);
    let answer = read_text(alloc, pieces.as_slice(), &mut told);
    let mut out = String::new(alloc);
    for given in told.as_slice() {
        put_token(alloc, &mut out, &given.token)?;
    }
    match answer {
        Ok(()) => out.push_str("end")?,
        Err(fault) => put_fault(alloc, &mut out, fault)?,
    }
    Ok(out)
}

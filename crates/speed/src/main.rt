//! Reads and writes as much as its words ask for, for scripts/speed.py to time; without words, a little of
//! each. Words: what to do, and how many MiB, or how many items; or `route` or `bind`, how often, a method, and a path
//! or a target, over the set that the input has.
#![tactic(auto)]

mod blocks;
mod books;
mod json_books;
mod json_types;
mod requests;
mod texts;

use blocks::block_rounds;
use books::{book_rounds, encode_rounds, many_items};
use json_books::{book_tokens, read_rounds, show_rounds};
use requests::{bind_rounds, route_rounds};
use std::alloc::{AllocError, Global};
use std::io::{self, Read, Write};
use std::{env, str};
use texts::token_count;

/// The number that a word is, or 1.
fn number_of(word: Option<&String>) -> usize {
    match word {
        Some(word) => word.as_str().parse().unwrap_or(1),
        None => 1,
    }
}

/// How many bytes the JSON of a small book has, and of a large one.
const BOOK_BYTES: [usize; 2] = [1_024, 65_536];

/// What is counted of books in JSON; 0 of other words.
fn counted_books(alloc: Global, what: &str, size: usize) -> u64 {
    let [small, large] = BOOK_BYTES;
    match what {
        "json-tokens-small" => book_tokens(alloc, small, size),
        "json-tokens-large" => book_tokens(alloc, large, size),
        "json-read-small" => read_rounds(alloc, small, size),
        "json-read-large" => read_rounds(alloc, large, size),
        "json-show-small" => show_rounds(alloc, small, size),
        "json-show-large" => show_rounds(alloc, large, size),
        _ => 0,
    }
}

/// What is counted for the words.
fn counted(alloc: Global, what: &str, size: usize) -> Result<u64, AllocError> {
    match what {
        "tokens" => token_count(alloc, size, 16_384),
        "tokens-by-byte" => token_count(alloc, size, 1),
        "decode" => Ok(book_rounds(alloc, size)),
        "encode" => Ok(encode_rounds(alloc, size)),
        "many" => Ok(many_items(alloc, size)),
        "huffman" => Ok(block_rounds(alloc, true, size)),
        "indexed" => Ok(block_rounds(alloc, false, size)),
        _ => Ok(counted_books(alloc, what, size)),
    }
}

/// The bytes of the input.
fn input_of<R: Read>(alloc: Global, input: &mut R) -> io::Result<Vec<u8>> {
    let mut bytes = Vec::new(alloc);
    input.read_to_end(&mut bytes)?;
    Ok(bytes)
}

/// What is counted over a set for the words behind the first.
fn counted_of(alloc: Global, set: &[u8], what: &str, words: &[String]) -> u64 {
    let [rounds, method, path] = words else {
        return 0;
    };
    let rounds = number_of(Some(rounds));
    match what {
        "route" => route_rounds(alloc, set, method.as_str(), path.as_str(), rounds),
        "bind" => bind_rounds(alloc, set, method.as_str(), path.as_str(), rounds),
        _ => 0,
    }
}

/// The parts that are timed, each by its own size.
const PARTS: [&str; 12] = [
    "tokens",
    "tokens-by-byte",
    "decode",
    "encode",
    "huffman",
    "indexed",
    "json-tokens-small",
    "json-tokens-large",
    "json-read-small",
    "json-read-large",
    "json-show-small",
    "json-show-large",
];

/// One line a part, over the least input: what the gate compares.
fn write_counts<W: Write>(alloc: Global, out: &mut W) -> io::Result<()> {
    for what in PARTS {
        let count = counted(alloc, what, 0)?;
        out.write_all(format!(in alloc; "{what} {count}\n")?.as_bytes())?;
    }
    let count = counted(alloc, "many", 100)?;
    out.write_all(format!(in alloc; "many {count}\n")?.as_bytes())
}

fn main(rt: HostRuntime) -> io::Result<()> {
    let alloc = rt.alloc();
    let mut words = Vec::new(alloc);
    for word in env::args(&rt)?.skip(1) {
        words.push(word)?;
    }
    let size = number_of(words.get(1));
    let mut out = io::writer(&rt);
    let Some(what) = words.first() else {
        return write_counts(alloc, &mut out);
    };
    if words.len() == 4 {
        let set = input_of(alloc, &mut rt.stdin())?;
        let count = counted_of(alloc, set.as_slice(), what.as_str(), &words.as_slice()[1..]);
        return out.write_all(format!(in alloc; "{count}\n")?.as_bytes());
    }
    let count = counted(alloc, what.as_str(), size)?;
    out.write_all(format!(in alloc; "{count}\n")?.as_bytes())
}

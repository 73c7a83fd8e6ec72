//! Huffman-coded strings (RFC 7541, section 5.2), read by table steps of four bits.
ghost use Rattle.std.specs.Prelude.{◌≡◌, ◌==◌, ◌++◌, ◌+◌, ◌<◌, ◌≤◌, not, length, take, drop, is_some, vec_capacity};
ghost use Rattle.hpack_codec.specs.Huffman.{bits_of, huffman_text, is_padding, text_from};
ghost use Rattle.hpack_codec.specs.HuffmanStates.{IsByteStep, IsStep, state_of, symbol_text};
ghost use Rattle.hpack_codec.specs.PutTexts.{IsPut};

mod next_states;
mod symbols;

use crate::put::Put;
use next_states::NEXT;
use symbols::SYMBOL;

/// What four bits do behind a state: the symbol whose code ends, 256 for none and 257 for an end of
/// string, and the next state.
#[inline]
fn step(state: u8, four: u8) -> (u16, u8)
    requires { four < 16 }
    ensures { IsStep state four result.0 result.1 }
{
    let symbols = &SYMBOL[state as usize];
    let nexts = &NEXT[state as usize];
    (symbols[four as usize], nexts[four as usize])
}

/// What a byte does behind a state: the two entries of the table, and the next state.
#[inline]
fn byte_step(state: u8, byte: u8) -> (u16, u16, u8)
    ensures { IsByteStep state byte result.0 result.1 result.2 }
{
    let (first, middle) = step(state, byte / 16);
    let (second, next) = step(middle, byte % 16);
    (first, second, next)
}

/// True where the bytes spell a text behind a state.
fn is_text_from(start: u8, coded: &[u8]) -> bool
    ensures { result ≡ is_some (text_from (state_of start) (bits_of coded.now)) }
{
    let mut state = start;
    for byte in coded {
        let (first, second, next) = byte_step(state, *byte);
        if first == 257 || second == 257 {
            return false;
        }
        state = next;
    }
    is_end(state)
}

/// True where the bits of a state are padding: at most seven, all of them ones.
#[inline]
fn is_end(state: u8) -> bool
    ensures { result ≡ is_padding (state_of state) }
{
    state < 8
}

/// Appends the symbol of an entry, if it is one. False at an end of string.
#[inline]
fn put_symbol(entry: u16, out: &mut Vec<u8>) -> bool
    requires small { entry < 258 }
    requires room { length out.old.items < vec_capacity out.old }
    ensures value { result ≡ not (entry == 257) }
    ensures appended { out.new.items ≡ out.old.items ++ symbol_text entry }
    ensures one { length out.new.items ≤ length out.old.items + 1 }
    ensures capacity { vec_capacity out.old ≤ vec_capacity out.new }
{
    if entry < 256 {
        match out.push(entry as u8) {
            Ok(()) => {}
            Err(_) => unreachable!(),
        }
    }
    entry != 257
}

/// Appends the text that coded bytes spell, where so many bytes may be. Two bytes of room beyond serve
/// the symbols of the byte with which it becomes too long.
pub(crate) fn put_text(coded: &[u8], room: usize, out: &mut Vec<u8>) -> Put
    requires { length out.old.items + room + 2 ≤ vec_capacity out.old }
    ensures kept { take (length out.old.items) out.new.items ≡ out.old.items }
    ensures capacity { vec_capacity out.old ≤ vec_capacity out.new }
    ensures put { IsPut (huffman_text coded.now) room (drop (length out.old.items) out.new.items) result }
{
    let end = out.len() + room;
    let mut state = 0;
    for (i, byte) in coded.iter().enumerate() {
        let (first, second, next) = byte_step(state, *byte);
        state = next;
        if !put_symbol(first, out) {
            return Put::Bad;
        }
        if !put_symbol(second, out) {
            return Put::Bad;
        }
        if out.len() > end {
            return if is_text_from(state, &coded[i + 1..]) {
                Put::Over
            } else {
                Put::Bad
            };
        }
    }
    if is_end(state) { Put::Whole } else { Put::Bad }
}

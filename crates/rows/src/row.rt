//! One row.

use crate::bytes::bytes_of;
use std::alloc::Global;
use std::io;

/// A label and the words behind it, which are taken one after another.
#[derive(Debug, Drop)]
pub struct Row<'a> {
    label: &'a str,
    rest: &'a str,
}

impl<'a> Row<'a> {
    /// The row of a line, whose words stand behind single blanks.
    pub fn of(line: &'a str) -> Row<'a> {
        let (label, rest) = line.split_once(' ').unwrap_or((line, ""));
        Row { label, rest }
    }

    /// The first word.
    pub fn label(&self) -> &'a str {
        self.label
    }

    /// True where no word is left.
    pub fn is_empty(&self) -> bool {
        self.rest.is_empty()
    }

    /// The next word, or none where none is left.
    pub fn word(&mut self) -> &'a str {
        let (word, rest) = self.rest.split_once(' ').unwrap_or((self.rest, ""));
        self.rest = rest;
        word
    }

    /// All words that are left, with the blanks between them.
    pub fn rest(&mut self) -> &'a str {
        let rest = self.rest;
        self.rest = "";
        rest
    }

    /// The number that the next word is.
    pub fn number(&mut self) -> io::Result<u64> {
        match self.word().parse() {
            Ok(number) => Ok(number),
            Err(_) => Err(io::Error::from(io::ErrorKind::InvalidData)),
        }
    }

    /// The number of 8 bits that the next word is.
    pub fn number_u8(&mut self) -> io::Result<u8> {
        match self.word().parse() {
            Ok(number) => Ok(number),
            Err(_) => Err(io::Error::from(io::ErrorKind::InvalidData)),
        }
    }

    /// The number of 16 bits that the next word is.
    pub fn number_u16(&mut self) -> io::Result<u16> {
        match self.word().parse() {
            Ok(number) => Ok(number),
            Err(_) => Err(io::Error::from(io::ErrorKind::InvalidData)),
        }
    }

    /// The number of 32 bits that the next word is.
    pub fn number_u32(&mut self) -> io::Result<u32> {
        match self.word().parse() {
            Ok(number) => Ok(number),
            Err(_) => Err(io::Error::from(io::ErrorKind::InvalidData)),
        }
    }

    /// The bytes that the next word spells.
    pub fn bytes(&mut self, alloc: Global) -> io::Result<Vec<u8>> {
        bytes_of(alloc, self.word())
    }
}

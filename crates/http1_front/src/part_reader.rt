//! Gathering one part of a connection's bytes, up to its end or its limit (RFC 9112, sections 2.2 and 7.1).
ghost use Rattle.std.specs.Prelude.{◌≡◌, ◌≢◌, ◌↔◌, ◌≤◌, ◌<◌, ◌++◌, ℕ, [], List, length, take, drop, IfOk, vec_capacity};
ghost use Rattle.http1_requests.specs.HeadEnd.{Ends, NoEnd, TooLarge, cut_at};
ghost use Rattle.http1_front.specs.PartReading.{ReadPart, part_cut, behind_cut, IsStateOf, IsKept, IsNewPart, progress_behind};
ghost use Rattle.http1_front.specs.PartScan.{IsScanned};
ghost use Rattle.http1_front.specs.declared.part.Part.{Part};
ghost use Rattle.http1_front.specs.PartSizes.{part_lines};

use crate::part::Part;
use crate::place::Place;
use crate::scan::{Found, find_end};
use base::NoMemory;
use std::alloc::Global;
use std::marker::Model;

/// The largest part, in bytes, with its end.
const PART_BYTES: usize = 16_384;

/// How far a part has come.
#[derive(Debug, Clone, Copy, PartialEq, Eq)]
pub enum PartState {
    /// Its end has not come, and more bytes may.
    Open,
    /// It has ended.
    Whole,
    /// No end stands in its first 16,384 bytes.
    TooLarge,
}

/// The same, with where the scan stands.
#[derive(Debug, Clone, Copy, PartialEq, Eq)]
enum Progress {
    Open(Place),
    Whole,
    TooLarge,
}

/// What a part has come to with so many bytes, where the scan stands at a place, or has found the end.
fn progress_of(place: Option<Place>, len: usize) -> Progress
    ensures { result ≡ progress_behind place len }
{
    match place {
        None => Progress::Whole,
        Some(place) => {
            if len < PART_BYTES {
                Progress::Open(place)
            } else {
                Progress::TooLarge
            }
        }
    }
}

/// Keeps what of a piece belongs to a part of which these bytes came before, as far as there is
/// room for it.
fn keep(bytes: &mut Vec<u8>, lines: u32, place: Place, piece: &[u8]) -> Found
    requires within { length bytes.old.items ≤ 16384 }
    requires room { 16384 ≤ vec_capacity bytes.old }
    requires few { lines ≤ length bytes.old.items }
    ensures taken { result.taken ≤ length piece.now }
    ensures bytes { bytes.new.items ≡ bytes.old.items ++ take result.taken piece.now }
    ensures within { length bytes.new.items ≤ 16384 }
    ensures room { 16384 ≤ vec_capacity bytes.new }
    ensures few { result.lines ≤ length bytes.new.items }
    ensures kept { (part : Part) → IsScanned part bytes.old.items place lines
        → IsKept part bytes.new.items result (drop result.taken piece.now) }
{
    let offered = &piece[..piece.len().min(PART_BYTES - bytes.len())];
    let found = find_end(place, lines, offered);
    match bytes.extend_from_slice(&offered[..found.taken]) {
        Ok(()) => found,
        Err(_) => unreachable!(),
    }
}

/// Gathers one part of a connection's bytes at a time, in any pieces. It keeps the part's bytes and
/// looks at each once. Room for the largest part is reserved when it is made: later calls take no
/// memory.
#[derive(Debug, Drop)]
pub struct PartReader {
    part: Part,
    progress: Progress,
    lines: u32,
    bytes: Vec<u8>,
}

impl Model for PartReader {
    ghost use Rattle.std.specs.Prelude.{◌≤◌, length, vec_capacity};
    ghost use Rattle.http1_front.specs.PartReading.{ReadPart, HasProgress};

    ghost Value = { ReadPart };

    ghost view = { λ r. record { part = r.part; bytes = r.bytes.items; lines = r.lines } };

    ghost invariant = { λ r. HasProgress r.part r.progress r.lines r.bytes.items × (length r.bytes.items ≤ 16384)
        × (r.lines ≤ length r.bytes.items) × (16384 ≤ vec_capacity r.bytes) };
}

impl PartReader {
    /// A reader at the start of a head.
    pub fn new(alloc: Global) -> Result<PartReader, NoMemory>
        ensures { IfOk result (IsNewPart Part.Head) }
    {
        Ok(PartReader {
            part: Part::Head,
            progress: Progress::Open(Place::first(Part::Head)),
            lines: 0,
            bytes: Vec::with_capacity(alloc, PART_BYTES)?,
        })
    }

    /// Drops what it has, and stands at the start of another part.
    pub fn begin(&mut self, part: Part)
        ensures { IsNewPart part self.new }
    {
        self.bytes.clear();
        self.part = part;
        self.lines = 0;
        self.progress = Progress::Open(Place::first(part));
    }

    /// Takes bytes of the part, up to its end or its limit, and says how many it took: all of them
    /// where the part is still open then, and none where it was not open before. Where the bytes so
    /// far and the piece have the part's end, and only there, it has the part then, and left what
    /// stands behind it. A part that is too large stays so, whatever follows.
    pub fn read(&mut self, piece: &[u8]) -> usize
        ensures taken { result ≤ length piece.now }
        ensures bytes { self.new.bytes ≡ self.old.bytes ++ take result piece.now }
        ensures part { self.new.part ≡ self.old.part }
        ensures cut { part_cut self.old.part (self.old.bytes ++ piece.now)
            ≡ behind_cut (part_cut self.new.part self.new.bytes) (drop result piece.now) }
        ensures open { part_cut self.new.part self.new.bytes ≡ NoEnd → result ≡ length piece.now }
        ensures end { (part rest : List ℕ) → (part_cut self.old.part (self.old.bytes ++ piece.now) ≡ Ends part rest)
            ↔ ((part_cut self.old.part part ≡ Ends part []) × (self.new.bytes ≡ part)
            × (drop result piece.now ≡ rest)) }
        ensures closed { part_cut self.old.part self.old.bytes ≢ NoEnd → (result ≡ 0) × (self.new ≡ self.old) }
        ensures large { part_cut self.new.part self.new.bytes ≡ TooLarge → (more : List ℕ)
            → part_cut self.old.part (self.old.bytes ++ (piece.now ++ more)) ≡ TooLarge }
    {
        let place = match self.progress {
            Progress::Open(place) => place,
            Progress::Whole => return 0,
            Progress::TooLarge => return 0,
        };
        let found = keep(&mut self.bytes, self.lines, place, piece);
        self.lines = found.lines;
        self.progress = progress_of(found.place, self.bytes.len());
        found.taken
    }

    /// How far the part has come.
    pub fn state(&self) -> PartState
        ensures { IsStateOf (part_cut self.now.part self.now.bytes) self.now.bytes result }
    {
        match self.progress {
            Progress::Open(_) => PartState::Open,
            Progress::Whole => PartState::Whole,
            Progress::TooLarge => PartState::TooLarge,
        }
    }

    /// Which part it reads.
    pub fn part(&self) -> Part
        ensures { result ≡ self.now.part }
    {
        self.part
    }

    /// The bytes of the part so far; where it is whole, all of them, with its end.
    pub fn bytes(&self) -> &[u8]
        ensures bytes { result.now ≡ self.now.bytes }
        ensures room { length result.now ≤ 16384 }
    {
        self.bytes.as_slice()
    }

    /// How many lines of the part have ended: of a head those from its request line on.
    pub fn lines(&self) -> u32
        ensures { result ≡ part_lines self.now.part self.now.bytes }
    {
        self.lines
    }
}

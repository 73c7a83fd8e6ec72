//! The end of a part, found in any pieces without looking at a byte twice.
ghost use Rattle.std.specs.Prelude.{◌≡◌, ◌+◌, ◌≤◌, ℕ, List, length};
ghost use Rattle.http1_front.specs.declared.part.Part.{Part};
ghost use Rattle.http1_front.specs.PartScan.{IsScanned, IsFound};

use crate::place::Place;

/// What was found in the bytes that come next.
#[derive(Clone, Copy)]
pub(crate) struct Found {
    /// How many of the bytes belong to the part.
    pub(crate) taken: usize,
    /// How many lines of the part were ended so far.
    pub(crate) lines: u32,
    /// The place behind all of the bytes; none where the part ends with the last that was taken.
    pub(crate) place: Option<Place>,
}

/// Looks for the end of a part in the bytes that come next, where so many lines were ended before.
pub(crate) fn find_end(start: Place, lines: u32, bytes: &[u8]) -> Found
    requires { lines + length bytes.now ≤ 4294967295 }
    ensures found { (part : Part) (seen : List ℕ) → IsScanned part seen start lines
        → IsFound part seen bytes.now result }
    ensures taken { result.taken ≤ length bytes.now }
    ensures lines { result.lines ≤ lines + result.taken }
{
    let mut place = start;
    let mut ended = lines;
    for i in 0..bytes.len() {
        ended += place.line_step(bytes[i]);
        match place.after(bytes[i]) {
            Some(next) => place = next,
            None => {
                return Found {
                    taken: i + 1,
                    lines: ended,
                    place: None,
                };
            }
        }
    }
    Found {
        taken: bytes.len(),
        lines: ended,
        place: Some(place),
    }
}

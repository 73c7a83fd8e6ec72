//! A whole text, in whatever pieces it comes.

ghost use Rattle.std.specs.Prelude.{◌≡◌, ◌++◌, List, ℕ, [], IfErr, OnOk};
ghost use Rattle.std.specs.List.{concat};
ghost use Rattle.json_events.specs.ReaderRuns.{HasTold, IsFirstFault, IsTextToldBy, IsTextFault};

use crate::fault::JsonFault;
use crate::reader::Reader;
use crate::token::Spanned;
use base::{Blob, List};
use std::alloc::Global;

/// Reads a text (RFC 8259, section 2) that comes in these pieces and ends with the last, and puts its tokens into
/// `out`. Where it is refused, the tokens of its longest front that begins a text stand there, or those before the
/// bracket that is too deep; where memory was not found, some of them. The cuts between the pieces change neither.
pub fn read_text(alloc: Global, pieces: &[Blob], out: &mut List<Spanned>) -> Result<(), JsonFault>
    requires empty { out.old ≡ [] }
    ensures ok { OnOk result (IsTextToldBy (concat pieces.now) out.new) }
    ensures err { IfErr result (λ f. IsTextFault f (concat pieces.now) out.new) }
{
    let mut reader = Reader::new(alloc);
    for piece in pieces {
        feed_all(&mut reader, piece.as_slice(), out)?;
    }
    end(&mut reader, out)
}

/// Gives a whole piece, and adds the tokens that end with it.
fn feed_all(reader: &mut Reader, piece: &[u8], out: &mut List<Spanned>) -> Result<(), JsonFault>
    ensures ok { OnOk result ((before behind : List ℕ)
        → HasTold reader.old (before ++ (piece.now ++ behind)) before out.old
        → HasTold reader.new (before ++ (piece.now ++ behind)) (before ++ piece.now) out.new) }
    ensures err { IfErr result (λ f. (before behind : List ℕ)
        → HasTold reader.old (before ++ (piece.now ++ behind)) before out.old
        → IsFirstFault f (before ++ (piece.now ++ behind)) out.new) }
{
    let mut rest = piece;
    'feeding: loop {
        let fed = reader.feed(rest)?;
        let taken = fed.taken;
        match fed.token {
            None => return Ok(()),
            Some(token) => {
                out.push(token)?;
                rest = &rest[taken..];
            }
        }
    }
}

/// Ends the text, and adds the number that ends with it.
fn end(reader: &mut Reader, out: &mut List<Spanned>) -> Result<(), JsonFault>
    ensures ok { OnOk result ((bytes : List ℕ) → HasTold reader.old bytes bytes out.old
        → IsTextToldBy bytes out.new) }
    ensures err { IfErr result (λ f. (bytes : List ℕ) → HasTold reader.old bytes bytes out.old
        → IsTextFault f bytes out.new) }
{
    match reader.finish()? {
        None => Ok(()),
        Some(token) => {
            out.push(token)?;
            Ok(())
        }
    }
}

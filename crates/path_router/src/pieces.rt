//! The pieces of a path, cut at its slashes, beside the segments of a template.
ghost use Rattle.std.specs.Prelude.{◌≡◌, ◌≢◌, ◌≤◌, ◌<◌, ◌↔◌, ◌∷◌, ◌++◌, ◌+◌, [], ℕ, List, length, take, drop, IsTrue, MatchOption};
ghost use Rattle.std.specs.List.{AllByRecursion};
ghost use Rattle.http_rules.specs.TemplateMatch.{IsPathSegment, slashed};
ghost use Rattle.path_router.specs.PathSegments.{IsUncut, IsAtCut, BeginsWith, TakesOne, TakesFront, TakeAll};

use http_rules::Segment;

/// Where a piece that begins the text ends: at the first slash, or at the end.
fn piece_len(text: &[u8]) -> usize
    ensures within { result ≤ length text.now }
    ensures uncut { IsUncut (take result text.now) }
    ensures cut { IsAtCut (drop result text.now) }
{
    let mut len = 0;
    while len < text.len() && text[len] != b'/' {
        len += 1;
    }
    len
}

/// The first piece of a path, behind its slash, and what follows it.
fn first_piece(path: &[u8]) -> Option<(&[u8], &[u8])>
    ensures { MatchOption result ((p : List ℕ) → path.now ≢ 47 ∷ p) (λ x. BeginsWith path.now x.0.now x.1.now) }
{
    match path {
        [b'/', rest @ ..] => Some(rest.split_at(piece_len(rest))),
        _ => None,
    }
}

/// True where a segment other than `**` takes the piece.
fn takes_one(segment: &Segment, piece: &[u8]) -> bool
    ensures { IsTrue result ↔ TakesOne segment.now piece.now }
{
    match segment {
        Segment::Literal(literal) => literal.as_str().as_bytes() == piece,
        Segment::One => !piece.is_empty(),
        Segment::Rest => false,
    }
}

/// What follows the first piece of a path, where a segment other than `**` takes that piece.
fn behind_front<'a>(segment: &Segment, path: &'a [u8]) -> Option<&'a [u8]>
    ensures { MatchOption result ((more : List ℕ) → TakesFront segment.now path.now more → ⊥)
        (λ more. TakesFront segment.now path.now more.now) }
{
    match first_piece(path) {
        Some((piece, more)) => {
            if takes_one(segment, piece) {
                Some(more)
            } else {
                None
            }
        }
        None => None,
    }
}

/// True where a path is pieces of which none is empty, or nothing.
fn are_full_pieces(path: &[u8]) -> bool
    ensures { IsTrue result
        ↔ ((pieces : List (List ℕ)) × AllByRecursion IsPathSegment pieces × (path.now ≡ slashed pieces)) }
{
    let mut rest = path;
    while let Some(more) = behind_front(&Segment::One, rest) {
        rest = more;
    }
    rest.is_empty()
}

/// True where the segments take all pieces of a path.
pub(crate) fn take_all(segments: &[Segment], path: &[u8]) -> bool
    ensures { IsTrue result ↔ TakeAll segments.now path.now }
{
    let mut rest = path;
    for segment in segments {
        if let Segment::Rest = segment {
            return are_full_pieces(rest);
        }
        match behind_front(segment, rest) {
            Some(more) => rest = more,
            None => return false,
        }
    }
    rest.is_empty()
}

/// Where the piece ends that begins at an offset.
fn piece_end(path: &[u8], at: usize) -> usize
    requires { at ≤ length path.now }
    ensures within { result ≤ length path.now }
    ensures ends { (piece more : List ℕ) → BeginsWith (drop at path.now) piece more
        → result ≡ at + 1 + length piece }
{
    match first_piece(path.split_at(at).1) {
        Some((piece, _)) => at + 1 + piece.len(),
        None => at,
    }
}

/// The offset behind so many pieces of a path.
pub(crate) fn offset_behind(path: &[u8], count: u32) -> usize
    ensures within { result ≤ length path.now }
    ensures there { (pieces : List (List ℕ)) → AllByRecursion IsUncut pieces → path.now ≡ slashed pieces
        → count ≤ length pieces → result ≡ length (slashed (take count pieces)) }
{
    let mut at = 0;
    for _ in 0..count {
        at = piece_end(path, at);
    }
    at
}

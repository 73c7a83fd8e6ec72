//! The path of a request's target (RFC 9112, section 3.2; RFC 3986, section 3).
ghost use Rattle.std.specs.Prelude.{◌≡◌, ◌≢◌, ◌≤◌, ◌++◌, ℕ, List, codes, length, map, take, drop, IsTrue, ◌↔◌, MatchOption};
ghost use Rattle.std.specs.Char.{to_ascii_lowercase};
ghost use Rattle.std.specs.List.{AllByRecursion};
ghost use Rattle.path_router.specs.TargetPath.{EndsAuthority, IsBehindAuthority, IsBehindScheme, IsEndedBy, IsOriginForm, IsPathBehind, IsQuery, IsRooted, IsTargetPath};

/// The path of a target in absolute form that has none of its own.
const ROOT: &[u8] = b"/";

/// The number of bytes of `http`.
const SCHEME_LEN: usize = 4;

/// How many bytes stand before the first `?`.
fn path_len(text: &[u8]) -> usize
    ensures within { result ≤ length text.now }
    ensures free { AllByRecursion (λ b. b ≢ 63) (take result text.now) }
    ensures query { IsQuery (drop result text.now) }
{
    let mut len = 0;
    while len < text.len() && text[len] != b'?' {
        len += 1;
    }
    len
}

/// True where a text begins with a slash.
fn is_rooted(text: &[u8]) -> bool
    ensures { IsTrue result ↔ IsRooted text.now }
{
    match text.first() {
        Some(byte) => *byte == b'/',
        None => false,
    }
}

/// What stands before the first `?`, where the text begins with a slash.
fn origin_path(text: &[u8]) -> Option<&[u8]>
    ensures { MatchOption result (IsRooted text.now → ⊥) (λ p. IsOriginForm text.now p.now) }
{
    if is_rooted(text) {
        Some(text.split_at(path_len(text)).0)
    } else {
        None
    }
}

/// True where the bytes are `http` in any case of letters.
fn is_http(scheme: &[u8]) -> bool
    ensures { IsTrue result ↔ (map to_ascii_lowercase scheme.now ≡ codes "http") }
{
    scheme.eq_ignore_ascii_case(b"http")
}

/// What stands behind `://` at the front of a text.
fn behind_slashes(text: &[u8]) -> Option<&[u8]>
    ensures { MatchOption result ((b : List ℕ) → text.now ≢ codes "://" ++ b) (λ b. text.now ≡ codes "://" ++ b.now) }
{
    text.strip_prefix(b"://")
}

/// What stands behind `http://` at the front of a target.
fn behind_scheme(target: &[u8]) -> Option<&[u8]>
    ensures { MatchOption result ((b : List ℕ) → IsBehindScheme target.now b → ⊥)
        (λ b. IsBehindScheme target.now b.now) }
{
    if target.len() < SCHEME_LEN {
        return None;
    }
    let (scheme, rest) = target.split_at(SCHEME_LEN);
    if !is_http(scheme) {
        return None;
    }
    behind_slashes(rest)
}

/// True for a byte that ends an authority.
fn ends_authority(byte: u8) -> bool
    ensures { IsTrue result ↔ EndsAuthority byte }
{
    byte == b'/' || byte == b'?'
}

/// How many bytes an authority has.
fn authority_len(text: &[u8]) -> usize
    ensures within { result ≤ length text.now }
    ensures inside { AllByRecursion (λ b. EndsAuthority b → ⊥) (take result text.now) }
    ensures end { IsEndedBy EndsAuthority (drop result text.now) }
{
    let mut len = 0;
    while len < text.len() && !ends_authority(text[len]) {
        len += 1;
    }
    len
}

/// The path of a target in absolute form, of which this stands behind `http://`.
fn absolute_path(behind: &[u8]) -> &[u8]
    ensures { (rest : List ℕ) × IsBehindAuthority behind.now rest × IsPathBehind rest result.now }
{
    let rest = behind.split_at(authority_len(behind)).1;
    match origin_path(rest) {
        Some(path) => path,
        None => ROOT,
    }
}

/// The path of a request's target: of one in origin form, or of one in absolute form with the scheme `http`, where a
/// target without a path of its own has `/`. Takes no memory.
pub fn target_path(target: &[u8]) -> Option<&[u8]>
    ensures { MatchOption result ((p : List ℕ) → IsTargetPath target.now p → ⊥) (λ p. IsTargetPath target.now p.now) }
{
    match origin_path(target) {
        Some(path) => Some(path),
        None => match behind_scheme(target) {
            Some(behind) => Some(absolute_path(behind)),
            None => None,
        },
    }
}

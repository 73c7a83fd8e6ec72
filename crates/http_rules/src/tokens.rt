//! Tokens: the texts of methods and of the names of header fields (RFC 9110, section 5.6.2).
ghost use Rattle.std.specs.Prelude.{◌≡◌};
ghost use Rattle.std.specs.Char.{is_ascii_uppercase};
ghost use Rattle.std.specs.List.{list_any};
ghost use Rattle.http_rules.specs.Tokens.{is_lower_case_token, is_method_kind, is_short_token, is_token, is_token_byte};

/// The most bytes of a short token.
const MAX_SHORT_TOKEN_BYTES: usize = 32;

/// Whether the byte may stand in a token: a letter, a digit, or one of ``!#$%&'*+-.^_`|~``.
pub fn is_token_byte(byte: u8) -> bool
    ensures { result ≡ is_token_byte byte }
{
    httparse::is_method_token(byte)
}

/// Whether the bytes are a token: at least one, and each may stand in a token.
pub fn is_token(bytes: &[u8]) -> bool
    ensures { result ≡ is_token bytes.now }
{
    httparse::is_token(bytes)
}

/// Whether a byte is a capital letter.
fn has_capital(bytes: &[u8]) -> bool
    ensures { result ≡ list_any is_ascii_uppercase bytes.now }
{
    for byte in bytes {
        if byte.is_ascii_uppercase() {
            return true;
        }
    }
    false
}

/// Whether the bytes are a token of at most 32 bytes, as a custom method of an HTTP rule is.
pub fn is_short_token(bytes: &[u8]) -> bool
    ensures { result ≡ is_short_token bytes.now }
{
    bytes.len() <= MAX_SHORT_TOKEN_BYTES && is_token(bytes)
}

/// Whether the bytes are a token without `A` to `Z`, as the name of a field of HTTP/2 is (RFC 9113,
/// section 8.2).
pub fn is_lower_case_token(bytes: &[u8]) -> bool
    ensures { result ≡ is_lower_case_token bytes.now }
{
    is_token(bytes) && !has_capital(bytes)
}

/// Whether a text can be the method of a binding: `*` for any, or a token of at most 32 bytes other
/// than HEAD and CONNECT.
pub fn is_method_kind(kind: &str) -> bool
    ensures { result ≡ is_method_kind kind.now }
{
    kind == "*" || (is_short_token(kind.as_bytes()) && kind != "HEAD" && kind != "CONNECT")
}

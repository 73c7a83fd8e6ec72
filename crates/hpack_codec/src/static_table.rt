//! The static table (RFC 7541, appendix A).
ghost use Rattle.std.specs.Prelude.{◌≡◌, ◌+◌, ◌<◌, ◌≤◌, ◌&&◌, [], length, get_or};
ghost use Rattle.std.specs.Str.{bytes_eq};
ghost use Rattle.hpack_codec.specs.StaticTable.{static_table};
ghost use Rattle.hpack_codec.specs.EncodedBlock.{static_field_index, static_name_index};

/// How many fields the static table has.
pub(crate) const STATIC_FIELDS: usize = 61;

/// The name and the value of the index `i + 1`.
pub(crate) fn static_field(i: usize) -> (&'static [u8], &'static [u8])
    requires { i < 61 }
    ensures field { (result.0.now, result.1.now) ≡ get_or static_table i ([], []) }
    ensures short { length result.0.now + length result.1.now ≤ 64 }
{
    match i {
        0 => (b":authority", b""),
        1 => (b":method", b"GET"),
        2 => (b":method", b"POST"),
        3 => (b":path", b"/"),
        4 => (b":path", b"/index.html"),
        5 => (b":scheme", b"http"),
        6 => (b":scheme", b"https"),
        7 => (b":status", b"200"),
        8 => (b":status", b"204"),
        9 => (b":status", b"206"),
        10 => (b":status", b"304"),
        11 => (b":status", b"400"),
        12 => (b":status", b"404"),
        13 => (b":status", b"500"),
        14 => (b"accept-charset", b""),
        15 => (b"accept-encoding", b"gzip, deflate"),
        16 => (b"accept-language", b""),
        17 => (b"accept-ranges", b""),
        18 => (b"accept", b""),
        19 => (b"access-control-allow-origin", b""),
        20 => (b"age", b""),
        21 => (b"allow", b""),
        22 => (b"authorization", b""),
        23 => (b"cache-control", b""),
        24 => (b"content-disposition", b""),
        25 => (b"content-encoding", b""),
        26 => (b"content-language", b""),
        27 => (b"content-length", b""),
        28 => (b"content-location", b""),
        29 => (b"content-range", b""),
        30 => (b"content-type", b""),
        31 => (b"cookie", b""),
        32 => (b"date", b""),
        33 => (b"etag", b""),
        34 => (b"expect", b""),
        35 => (b"expires", b""),
        36 => (b"from", b""),
        37 => (b"host", b""),
        38 => (b"if-match", b""),
        39 => (b"if-modified-since", b""),
        40 => (b"if-none-match", b""),
        41 => (b"if-range", b""),
        42 => (b"if-unmodified-since", b""),
        43 => (b"last-modified", b""),
        44 => (b"link", b""),
        45 => (b"location", b""),
        46 => (b"max-forwards", b""),
        47 => (b"proxy-authenticate", b""),
        48 => (b"proxy-authorization", b""),
        49 => (b"range", b""),
        50 => (b"referer", b""),
        51 => (b"refresh", b""),
        52 => (b"retry-after", b""),
        53 => (b"server", b""),
        54 => (b"set-cookie", b""),
        55 => (b"strict-transport-security", b""),
        56 => (b"transfer-encoding", b""),
        57 => (b"user-agent", b""),
        58 => (b"vary", b""),
        59 => (b"via", b""),
        60 => (b"www-authenticate", b""),
        _ => unreachable!(),
    }
}

/// True where the index `i + 1` has this name.
fn has_name(i: usize, name: &[u8]) -> bool
    requires { i < 61 }
    ensures { result ≡ bytes_eq (get_or static_table i ([], [])).0 name.now }
{
    static_field(i).0 == name
}

/// True where the index `i + 1` has this value.
fn has_value(i: usize, value: &[u8]) -> bool
    requires { i < 61 }
    ensures { result ≡ bytes_eq (get_or static_table i ([], [])).1 value.now }
{
    static_field(i).1 == value
}

/// True where the index `i + 1` has this name and this value.
fn has_field(i: usize, name: &[u8], value: &[u8]) -> bool
    requires { i < 61 }
    ensures { result ≡ (bytes_eq (get_or static_table i ([], [])).0 name.now && bytes_eq (get_or static_table i ([], [])).1 value.now) }
{
    has_name(i, name) && has_value(i, value)
}

/// The index that has this name and this value, or 0.
pub(crate) fn field_index(name: &[u8], value: &[u8]) -> usize
    ensures { result ≡ static_field_index (name.now, value.now) }
{
    for i in 0..STATIC_FIELDS {
        if has_field(i, name, value) {
            return i + 1;
        }
    }
    0
}

/// The lowest index that has this name, or 0.
pub(crate) fn name_index(name: &[u8]) -> usize
    ensures { result ≡ static_name_index name.now }
{
    for i in 0..STATIC_FIELDS {
        if has_name(i, name) {
            return i + 1;
        }
    }
    0
}

//! The tables between gRPC codes, HTTP statuses and HTTP/2 error codes.
ghost use Rattle.std.specs.Prelude.{◌≡◌};
ghost use Rattle.status_map.specs.StatusTables.{http_status_of, code_of_http_status, code_of_error_code};

const CANCELLED: u8 = 1;

const UNKNOWN: u8 = 2;

const PERMISSION_DENIED: u8 = 7;

const RESOURCE_EXHAUSTED: u8 = 8;

const UNIMPLEMENTED: u8 = 12;

const INTERNAL: u8 = 13;

const UNAVAILABLE: u8 = 14;

const UNAUTHENTICATED: u8 = 16;

const REFUSED_STREAM: u32 = 0x7;

const CANCEL: u32 = 0x8;

const ENHANCE_YOUR_CALM: u32 = 0xb;

const INADEQUATE_SECURITY: u32 = 0xc;

/// The HTTP status of a gRPC code (google/rpc/code.proto, "HTTP Mapping"). A code over 16 has 500.
pub fn http_of(code: u8) -> u16
    ensures { result ≡ http_status_of code }
{
    match code {
        0 => 200,
        1 => 499,
        3 | 9 | 11 => 400,
        4 => 504,
        5 => 404,
        6 | 10 => 409,
        7 => 403,
        8 => 429,
        12 => 501,
        14 => 503,
        16 => 401,
        _ => 500,
    }
}

/// The gRPC code of a response that has an HTTP status and no grpc-status (gRPC, "HTTP to gRPC
/// Status Code Mapping").
pub fn code_of_http(status: u16) -> u8
    ensures { result ≡ code_of_http_status status }
{
    match status {
        400 => INTERNAL,
        401 => UNAUTHENTICATED,
        403 => PERMISSION_DENIED,
        404 => UNIMPLEMENTED,
        429 | 502 | 503 | 504 => UNAVAILABLE,
        _ => UNKNOWN,
    }
}

/// The gRPC code of a stream that was reset with an HTTP/2 error code (gRPC over HTTP/2, "Errors").
pub fn code_of_reset(code: u32) -> u8
    ensures { result ≡ code_of_error_code code }
{
    match code {
        REFUSED_STREAM => UNAVAILABLE,
        CANCEL => CANCELLED,
        ENHANCE_YOUR_CALM => RESOURCE_EXHAUSTED,
        INADEQUATE_SECURITY => PERMISSION_DENIED,
        _ => INTERNAL,
    }
}

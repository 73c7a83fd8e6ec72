//! How much is taken of clients, of their requests and of messages.
ghost use Rattle.std.specs.Prelude.{◌≡◌, ◌≤◌, ◌↔◌, IfSome, IsSome, min};
ghost use Rattle.gate_world.specs.LimitRanges.{AreInRange};

/// The most clients that may be connected at one time.
pub const MAX_CONNECTIONS: u32 = 1_024;

/// How many clients may be connected at one time where nothing else is said.
pub const STANDARD_CONNECTIONS: u32 = 64;

/// The most streams that are open to the upstream at one time.
pub const MAX_STREAMS: u32 = 64;

/// The largest request head, in bytes, with the empty lines before it and the one that ends it.
pub const HEAD_BYTES: usize = 16_384;

/// The most field lines of a request head.
pub const HEAD_FIELDS: usize = 64;

/// The largest body of a unary request, and the largest element of a streamed one, in bytes.
pub const BODY_BYTES: u64 = 1_048_576;

/// The largest encoded message, either way, in bytes.
pub const MESSAGE_BYTES: u32 = 1_048_576;

/// The largest JSON text of one message, in bytes.
pub const TEXT_BYTES: u64 = 4_194_304;

/// The least that a limit of bytes may be.
const LEAST_BYTES: u32 = 64;

/// What stands before each message, in bytes (gRPC over HTTP/2, "Length-Prefixed-Message").
const PREFIX_BYTES: u64 = 5;

/// How much is taken. Each number is in its range.
#[derive(Debug, Clone, Copy)]
pub struct Limits {
    /// Clients connected at one time, from 1 to `MAX_CONNECTIONS`.
    pub connections: u32,
    /// Bytes of a unary request's body, and of an element of a streamed one, from 64 to
    /// `BODY_BYTES`.
    pub body: u64,
    /// Bytes of an encoded message, either way, from 64 to `MESSAGE_BYTES`.
    pub message: u32,
    /// Bytes of the JSON text of one message, from `message` and 5 to `TEXT_BYTES`.
    pub text: u64,
    pub ghost in_range: { AreInRange connections body message text },
}

impl Limits {
    /// The largest numbers, for so many clients.
    pub fn standard(connections: u32) -> Limits
        requires least { 1 ≤ connections }
        requires most { connections ≤ 1024 }
        ensures connections { result.connections ≡ connections }
        ensures body { result.body ≡ 1048576 }
        ensures message { result.message ≡ 1048576 }
        ensures text { result.text ≡ 4194304 }
    {
        Limits {
            connections,
            body: BODY_BYTES,
            message: MESSAGE_BYTES,
            text: TEXT_BYTES,
        }
    }

    /// These numbers, where each is in its range.
    pub fn new(connections: u32, body: u64, message: u32, text: u64) -> Option<Limits>
        ensures some { IsSome result ↔ AreInRange connections body message text }
        ensures connections { IfSome result (λ limits. limits.connections ≡ connections) }
        ensures body { IfSome result (λ limits. limits.body ≡ body) }
        ensures message { IfSome result (λ limits. limits.message ≡ message) }
        ensures text { IfSome result (λ limits. limits.text ≡ text) }
    {
        if connections < 1 || connections > MAX_CONNECTIONS {
            return None;
        }
        if body < u64::from(LEAST_BYTES) || body > BODY_BYTES {
            return None;
        }
        if message < LEAST_BYTES || message > MESSAGE_BYTES {
            return None;
        }
        if text < u64::from(message) + PREFIX_BYTES || text > TEXT_BYTES {
            return None;
        }
        Some(Limits {
            connections,
            body,
            message,
            text,
        })
    }

    /// How many streams may be open to the upstream at one time.
    pub fn streams(self) -> u32
        ensures { result ≡ min 64 self.connections }
    {
        MAX_STREAMS.min(self.connections)
    }
}

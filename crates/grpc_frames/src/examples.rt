//! Worked examples, as laws (gRPC over HTTP/2, "Length-Prefixed-Message").
ghost use Rattle.std.specs.Prelude.{◌≡◌, ◌∷◌, codes};
ghost use Rattle.grpc_frames.specs.LengthPrefixed.{length_prefixed};

/// A message of three bytes on the stream: a flag of 0, the length in four bytes, the high one first, and the bytes.
pub fn framing_examples()
    ensures { length_prefixed (codes "abc") ≡ 0 ∷ 0 ∷ 0 ∷ 0 ∷ 3 ∷ codes "abc" }
{}

//! Laws of the requests of a client's bytes, for callers and for whoever checks the definitions.
ghost use Rattle.std.specs.Prelude.{◌≡◌, ◌↔◌, ◌++◌, ◌+◌, ◌≤◌, ℕ, List, [], length, map, None, Some, Bool, false, true};
ghost use Rattle.httparse.specs.Grammar.{RequestHead, ReadsRequest, print_request, Field, LineEnd, ReadsSection, print_section, ChunkLine, ReadsChunkLine, print_chunk_line};
ghost use Rattle.http1_requests.specs.GrammarReading.{chunk_line_in, head_in, section_in};
ghost use Rattle.gate_world.specs.MessageHead.{MessageHead};
ghost use Rattle.gate_world.specs.declared.refusal.Refusal.{Refusal};
ghost use Rattle.http1_requests.specs.HeadEnd.{Ends, NoEnd, cut_at, head_lines, head_size, line_feeds, line_size, section_size, size_limit};
ghost use Rattle.http1_requests.specs.HeadJudgement.{Refused, Served, body_length, judgement};
ghost use Rattle.http1.specs.Fields.{Header};
ghost use Rattle.gate_world.specs.declared.body_length.BodyLength.{BodyLength};
ghost use Rattle.http1_requests.specs.BodyLengths.{TellsBody};
ghost use Rattle.http1_requests.specs.PartGrowth.{CutsOff};
ghost use Rattle.http1_requests.specs.HeadCauses.{HasRank, IsRefusedFor, IsServed, ServedBounds};
ghost use Rattle.http1_requests.specs.FirstHeads.{IsFirstRefused};
ghost use Rattle.http1_requests.specs.ClientRequests.{LastRequest, NoRequest, RefusedHead, first_request, then_requests, client_requests};
ghost use Rattle.http1_requests.specs.RequestGrowth.{Later, FirstGrowsBy, EndsFinal};
ghost use Rattle.http1_requests.specs.ChunkedBody.{EndsBefore, chunk_of, then_chunks, decoded};
ghost use Rattle.http1_requests.specs.ChunkedText.{ReadsChunked};
ghost use Rattle.http1_requests.specs.ClientEnd.{Stop, StopsAt, IsToldAt, at_client_end};

/// The head that bytes are is the one that httparse's grammar gives for exactly these bytes.
pub fn heads_are_those_of_the_grammar()
    ensures { (bytes : List ℕ) (head : RequestHead) → (head_in bytes ≡ Some head) ↔ ReadsRequest bytes head [] }
{}

/// The trailer section that bytes are is the one that httparse's grammar gives for exactly these bytes.
pub fn sections_are_those_of_the_grammar()
    ensures { (bytes : List ℕ) (fields : List Field)
        → (section_in bytes ≡ Some fields) ↔ ((last : LineEnd) × ReadsSection bytes fields last []) }
{}

/// The chunk size line that bytes are is the one that httparse's grammar gives for exactly these bytes.
pub fn chunk_lines_are_those_of_the_grammar()
    ensures { (bytes : List ℕ) (line : ChunkLine)
        → (chunk_line_in bytes ≡ Some line) ↔ ReadsChunkLine bytes line [] }
{}

/// What is cut off the front of bytes stays cut off, whatever follows, and so does what is too large. A part that is cut
/// off stands at the front, within the limit, and fewer of its bytes have no end.
pub fn parts_stay()
    ensures heads { CutsOff head_size }
    ensures sections { CutsOff section_size }
    ensures lines { CutsOff line_size }
{}

/// A part that is cut off and is one of the grammar is exactly what the grammar has at the front of the bytes, where that
/// is within the limit: no byte fewer, and none more.
pub fn parts_end_where_the_grammar_ends()
    ensures heads { (bytes part rest : List ℕ) (head : RequestHead)
        → ((cut_at head_size bytes ≡ Ends part rest) × ReadsRequest part head [])
        ↔ (ReadsRequest bytes head rest × (part ≡ print_request head) × (length part ≤ size_limit)) }
    ensures sections { (bytes part rest : List ℕ) (fields : List Field) (last : LineEnd)
        → ((cut_at section_size bytes ≡ Ends part rest) × ReadsSection part fields last [])
        ↔ (ReadsSection bytes fields last rest × (part ≡ print_section fields last) × (length part ≤ size_limit)) }
    ensures lines { (bytes part rest : List ℕ) (line : ChunkLine)
        → ((cut_at line_size bytes ≡ Ends part rest) × ReadsChunkLine part line [])
        ↔ (ReadsChunkLine bytes line rest × (part ≡ print_chunk_line line) × (length part ≤ size_limit)) }
{}

/// A body in chunks is what its first chunk gives, and the body of the bytes behind it. It has ended exactly where the
/// bytes begin with a body in chunks of the grammar, and has the data of its chunks then.
pub fn chunks_follow_one_another()
    ensures next { (bytes : List ℕ) → decoded bytes ≡ then_chunks decoded (chunk_of bytes) }
    ensures whole { (bytes data_bytes rest : List ℕ)
        → (decoded bytes ≡ record { bytes = data_bytes; over = EndsBefore rest })
        ↔ ReadsChunked bytes data_bytes rest }
{}

/// The requests of bytes are the one at their front, and those of the bytes behind it.
pub fn requests_follow_one_another()
    ensures { (bytes : List ℕ) (ended : Bool)
        → client_requests bytes ended
        ≡ then_requests (λ rest. client_requests rest ended) (first_request ended bytes) }
{}

/// Request k of bytes is request k of more bytes, with its body so far: only a body that goes on grows. What stands
/// behind a request that has ended grows by the same bytes.
pub fn requests_stay()
    ensures all { (bytes more : List ℕ) (ended : Bool)
        → Later (client_requests bytes false) (client_requests (bytes ++ more) ended) }
    ensures first { (bytes more : List ℕ) (ended : Bool)
        → FirstGrowsBy (first_request false bytes) (first_request ended (bytes ++ more)) more }
{}

/// A head that is refused and a body whose framing is broken are the last of a connection: bytes behind them count for
/// nothing.
pub fn nothing_follows_a_refusal()
    ensures { (bytes more : List ℕ) (ended : Bool) → EndsFinal (client_requests bytes false)
        → client_requests (bytes ++ more) ended ≡ client_requests bytes false }
{}

/// A client stops in one way: between requests, in a head or the empty lines before one, in a body, or behind bytes that
/// are refused. Only in a body its end tells more than the bytes did, and that is that the body is broken.
pub fn client_ends_are_told()
    ensures all { (bytes : List ℕ) → client_requests bytes true ≡ map at_client_end (client_requests bytes false) }
    ensures some { (bytes : List ℕ) → (stop : Stop) × StopsAt bytes stop }
    ensures one { (bytes : List ℕ) (a b : Stop) → StopsAt bytes a → StopsAt bytes b → a ≡ b }
    ensures told { (bytes : List ℕ) (stop : Stop) → StopsAt bytes stop
        → IsToldAt stop (client_requests bytes false) }
{}

/// A head that is read has a line feed for its request line, one for each field and one for the empty line that ends it,
/// from its request line on; a trailer section has one for each field and one for its empty line. So field lines can be
/// counted before the grammar reads them.
pub fn field_lines_are_counted()
    ensures head { (bytes : List ℕ) (head : RequestHead) → ReadsRequest bytes head []
        → head_lines bytes ≡ length head.fields + 2 }
    ensures section { (bytes : List ℕ) (fields : List Field) (last : LineEnd) → ReadsSection bytes fields last []
        → line_feeds bytes ≡ length fields + 1 }
{}

/// A head is refused for the first cause in this order: it has too many field lines, it is not of the grammar, and then,
/// of one that is read, its version, its method, its field Host and its length fields. Each such refusal is one of the
/// first six of the table, which ranks the first two the other way.
pub fn heads_are_refused_in_order()
    ensures causes { (bytes : List ℕ) (refusal : Refusal)
        → (judgement bytes ≡ Refused refusal) ↔ IsRefusedFor bytes refusal }
    ensures ranks { (bytes : List ℕ) (refusal : Refusal) → IsRefusedFor bytes refusal
        → (n : ℕ) × HasRank n refusal × (n ≤ 6) }
{}

/// A head that is served is one of the grammar that has no cause to be refused, and what is told of it is within bounds.
pub fn served_heads_are_read()
    ensures served { (bytes : List ℕ) (head : MessageHead) → (judgement bytes ≡ Served head) ↔ IsServed bytes head }
    ensures bounds { (bytes : List ℕ) (head : MessageHead) → IsServed bytes head → ServedBounds bytes head }
{}

/// The fields of a head tell of one body at most: of none, of so many bytes, or of chunks. A head whose fields tell of
/// no such body is refused for it, and one that is served has the body that its fields tell of.
pub fn body_lengths_are_told()
    ensures told { (fields : List Header) (body : BodyLength)
        → (body_length fields ≡ Some body) ↔ TellsBody fields body }
    ensures one { (fields : List Header) (a b : BodyLength) → TellsBody fields a → TellsBody fields b → a ≡ b }
    ensures none { (fields : List Header)
        → (body_length fields ≡ None) ↔ ((body : BodyLength) → ¬ (TellsBody fields body)) }
    ensures served { (bytes : List ℕ) (head : MessageHead) → judgement bytes ≡ Served head
        → TellsBody head.fields head.body }
{}

/// The request at the front of bytes is refused by its head exactly where that has no end within the limit, or is refused
/// by its bytes; such a refusal is one of the first six. There is no request exactly where no head has ended so far,
/// whether the client has ended or not.
pub fn requests_begin_with_their_heads()
    ensures refused { (ended : Bool) (bytes : List ℕ) (refusal : Refusal)
        → (first_request ended bytes ≡ LastRequest (RefusedHead refusal)) ↔ IsFirstRefused bytes refusal }
    ensures ranks { (bytes : List ℕ) (refusal : Refusal) → IsFirstRefused bytes refusal
        → (n : ℕ) × HasRank n refusal × (n ≤ 6) }
    ensures none { (ended : Bool) (bytes : List ℕ)
        → (first_request ended bytes ≡ NoRequest) ↔ (cut_at head_size bytes ≡ NoEnd) }
{}

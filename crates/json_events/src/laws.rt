//! Laws of the definitions.

ghost use Rattle.std.specs.Prelude.{◌≡◌, ℕ, ℤ, ◌+◌, ◌<◌, ◌≤◌, ◌^◌, List, [], ◌++◌, length, take, Option, None, Ok, Err, pos, nat_abs, decimal, IsUtf8};
ghost use Rattle.std.specs.List.{AllByRecursion};
ghost use Rattle.std.specs.Option.{option_to_list};
ghost use Rattle.std.specs.Fmt.{signed_decimal};
ghost use Rattle.json_events.specs.JsonNumbers.{DenotesInteger};
ghost use Rattle.json_events.specs.JsonStrings.{AreCharacters, IsString};
ghost use Rattle.json_events.specs.StringOutput.{escaped, json_string};
ghost use Rattle.json_events.specs.JsonTree.{Json, with_value, tokens_in};
ghost use Rattle.json_events.specs.JsonText.{Span, marks_of, IsTextWith, BeginsText};
ghost use Rattle.json_events.specs.JsonTokens.{BeginsWith, HasEnded, HasNotEnded, IsWithin, AreTokensOf, HaveEndedIn, StandInOrder, IsPending, level, level_limit};
ghost use Rattle.json_events.specs.ReaderState.{ReaderState, Stands, IsBroken, IsTooDeep};
ghost use Rattle.json_events.specs.declared.token.Fed.{Fed};
ghost use Rattle.json_events.specs.declared.token.Spanned.{Spanned};
ghost use Rattle.json_events.specs.declared.fault.JsonFault.{JsonFault};
ghost use Rattle.json_events.specs.ReaderRuns.{IsFinish, json_feeding, AreSpans, StandsForTokens, AreGivenInTurn, IsFirstFault, IsTextToldBy, IsCutAt};
ghost use Rattle.base.specs.PiecewiseReading.{FeedCall, taken_in_all, told_by_all, IsRun};

/// A string stands for one text, which is UTF-8, and a number is one integer at most: so what the
/// writers append means their argument and nothing else.
pub fn texts_mean_one_value()
    ensures strings { (s t bytes : List ℕ) → IsString s bytes → IsString t bytes → s ≡ t }
    ensures utf8 { (text bytes : List ℕ) → IsString text bytes → IsUtf8 text }
    ensures numbers { (y z : ℤ) (text : List ℕ) → DenotesInteger y text → DenotesInteger z text → y ≡ z }
{}

/// What the writers append means their argument: the characters and the string that are written for a text
/// stand for it, and the digits that are written for a number are that number.
#[tactic(auto, using(crate::proofs::writing::SpellingLemmas::escaped_characters, crate::proofs::writing::SpellingLemmas::json_string_denotes, crate::proofs::writing::DecimalLemmas::decimal_denotes, crate::proofs::writing::DecimalLemmas::signed_decimal_denotes))]
pub fn written_texts_mean_their_values()
    ensures characters { (text : List ℕ) → IsUtf8 text → AreCharacters text (escaped text) }
    ensures strings { (text : List ℕ) → IsUtf8 text → IsString text (json_string text) }
    ensures numbers { (n : ℕ) → n < 2 ^ 64 → DenotesInteger (pos n) (decimal n) }
    ensures integers { (z : ℤ) → nat_abs z < 2 ^ 64 → DenotesInteger z (signed_decimal z) }
{}

/// A text has one tree, and its tokens, with their offsets, in one way. They stand one behind another, and end within
/// the text. Their marks are those of the tree but for commas and colons, and these alone determine the tree.
#[tactic(auto, using(crate::proofs::texts::TreeLemmas::one_tree, crate::proofs::facts::TextFacts::one_way, crate::proofs::texts::OrderLemmas::text_order))]
pub fn texts_have_one_tree()
    ensures tree { (j k : Json) (s : List ℕ) (ts us : List Span) → IsTextWith j s ts → IsTextWith k s us → j ≡ k }
    ensures tokens { (j k : Json) (s : List ℕ) (ts us : List Span) → IsTextWith j s ts → IsTextWith k s us → ts ≡ us }
    ensures order { (j : Json) (s : List ℕ) (ts : List Span) → IsTextWith j s ts → StandInOrder 0 ts }
    ensures within { (j : Json) (s : List ℕ) (ts : List Span) → IsTextWith j s ts → AllByRecursion (IsWithin (length s)) ts }
    ensures marks { (j : Json) (s : List ℕ) (ts : List Span) → IsTextWith j s ts → marks_of ts ≡ tokens_in (with_value j []) }
    ensures determined { (j k : Json) → tokens_in (with_value j []) ≡ tokens_in (with_value k []) → j ≡ k }
{}

/// The tokens that have ended in the bytes at the front of a text are those of each text that begins so.
/// A front of what begins a text begins one, and each list has a longest front that does.
#[tactic(auto, using(crate::proofs::reading::FrontLemmas::ended_are_same, crate::proofs::reading::FrontLemmas::front_begins))]
pub fn fronts_have_one_list_of_tokens()
    ensures tokens { (p s t : List ℕ) (j k : Json) (ts others all : List Span) → IsTextWith j (p ++ s) (ts ++ others) → AllByRecursion (HasEnded (length p)) ts → IsTextWith k (p ++ t) all → (rest : List Span) × (all ≡ ts ++ rest) }
    ensures fronts { (p s : List ℕ) → BeginsText (p ++ s) → BeginsText p }
    ensures longest { (bytes : List ℕ) → (n : ℕ) × (n ≤ length bytes) × BeginsText (take n bytes) × (n < length bytes → BeginsText (take (n + 1) bytes) → ⊥) }
{}

/// Bytes that begin a text have one list of tokens, and that of more bytes goes on from it. What has ended in some
/// first bytes is a front of it, and of the tokens of the longest front that begins a text. The tokens of a text are
/// those of its bytes, and behind them at most one number, which ends where they end.
#[tactic(auto, using(crate::proofs::reading::TokenLists::have_tokens, crate::proofs::reading::TokenLists::one_list, crate::proofs::reading::TokenLists::list_goes_on))]
pub fn bytes_have_one_list_of_tokens()
    ensures some { (b : List ℕ) → BeginsText b → (ts : List Span) × AreTokensOf b ts }
    ensures one { (b : List ℕ) (ts us : List Span) → AreTokensOf b ts → AreTokensOf b us → ts ≡ us }
    ensures longer { (b more : List ℕ) (ts us : List Span) → AreTokensOf b ts → AreTokensOf (b ++ more) us → (rest : List Span) × (us ≡ ts ++ rest) }
    ensures first { (bytes : List ℕ) (ts us : List Span) → HaveEndedIn bytes ts → AreTokensOf bytes us → (rest : List Span) × (us ≡ ts ++ rest) }
    ensures front { (bytes : List ℕ) (ts us : List Span) (k : ℕ) → HaveEndedIn bytes ts → AreTokensOf (take k bytes) us → (BeginsText (take (k + 1) bytes) → ⊥) → (rest : List Span) × (us ≡ ts ++ rest) }
    ensures text { (j : Json) (b : List ℕ) (ts all : List Span) → AreTokensOf b ts → IsTextWith j b all → (rest : List Span) × (all ≡ ts ++ rest) × AllByRecursion (IsPending (length b)) rest × (length rest ≤ 1) }
{}

/// The place of a fault is the length of the longest front that begins a text, and the tokens that were given are
/// those of that front, where they have ended in it, or in some bytes of the list. Those before a bracket that is too
/// deep are those of the bytes before it.
#[tactic(auto, using(crate::proofs::reading::FrontLemmas::longest_front))]
pub fn faults_have_the_place_of_the_longest_front()
    ensures front { (bytes : List ℕ) (ts : List Span) (k : ℕ) → IsBroken bytes ts k → AllByRecursion (HasEnded k) ts → BeginsText (take k bytes) × (BeginsText (take (k + 1) bytes) → ⊥) }
    ensures tokens { (bytes : List ℕ) (ts : List Span) (k : ℕ) → IsBroken bytes ts k → HaveEndedIn bytes ts → AreTokensOf (take k bytes) ts × (BeginsText (take (k + 1) bytes) → ⊥) }
    ensures deep { (bytes : List ℕ) (ts : List Span) (k : ℕ) → IsTooDeep bytes ts k → AreTokensOf (take k bytes) ts }
{}

/// What a reader stands for that has refused nothing: bytes that begin a text, and of each text that begins
/// with them and with the tokens that were given, those that end within the bytes, and no other that has
/// ended in them. So these are the tokens of the bytes, and at most one number more, which ends where they end: `feed`
/// gave it with its next byte shown, or `finish` where nothing followed.
/// At most 208 brackets are open.
#[tactic(auto, using(crate::proofs::reading::TokenLists::reader_tokens, crate::proofs::reading::TokenLists::reader_split, crate::proofs::reading::FrontLemmas::reader_begins, crate::proofs::reading::FrontLemmas::reader_given, crate::proofs::reading::FrontLemmas::reader_others, crate::proofs::reading::FrontLemmas::reader_level))]
pub fn readers_stand_for_the_front_of_a_text()
    ensures begins { (r : ReaderState) (b : List ℕ) (ts : List Span) → r.fault ≡ None → Stands r b ts → BeginsWith b ts }
    ensures given { (r : ReaderState) (b : List ℕ) (ts : List Span) → r.fault ≡ None → Stands r b ts → AllByRecursion (IsWithin (length b)) ts }
    ensures others { (r : ReaderState) (b : List ℕ) (ts : List Span) → r.fault ≡ None → Stands r b ts → (s : List ℕ) (others : List Span) (j : Json) → IsTextWith j (b ++ s) (ts ++ others) → AllByRecursion (HasNotEnded (length b)) others }
    ensures tokens { (r : ReaderState) (b : List ℕ) (ts : List Span) → r.fault ≡ None → Stands r b ts → HaveEndedIn b ts → AreTokensOf b ts }
    ensures pending { (r : ReaderState) (b : List ℕ) (ts : List Span) → r.fault ≡ None → Stands r b ts → (us pending : List Span) × (ts ≡ us ++ pending) × AreTokensOf b us × AllByRecursion (IsPending (length b)) pending × (length pending ≤ 1) }
    ensures level { (r : ReaderState) (b : List ℕ) (ts : List Span) → r.fault ≡ None → Stands r b ts → level ts ≤ level_limit }
{}

/// Calls of `feed` one after another, none of which was refused: the reader stands for all bytes that they
/// took, and for the tokens that they told, however the input was cut.
pub fn runs_of_calls_tell_what_a_reader_stands_for()
    ensures { (old new : ReaderState) (calls : List (FeedCall Fed)) → Stands old [] [] → IsRun json_feeding old calls new → StandsForTokens new (taken_in_all json_feeding.taken calls) (told_by_all json_feeding [] calls) }
{}

/// However a list is given to a reader, each call from where the one before it stopped: what is told has ended in
/// it, and once all of it was taken it is its tokens. The first refusal is the first fault of the list, and what was
/// told are the tokens of its longest front that begins a text, or those before the bracket that is too deep.
/// `finish` gives what is left of the tokens of a text, and refuses what is none.
pub fn pieces_change_nothing()
    ensures so_far { (old new : ReaderState) (calls : List (FeedCall Fed)) (bytes left : List ℕ) → old.fault ≡ None → Stands old [] []
        → IsRun json_feeding old calls new → AreGivenInTurn json_feeding.taken bytes calls left
        → (ts : List Span) × HaveEndedIn bytes ts × AreSpans (told_by_all json_feeding [] calls) ts }
    ensures told { (old new : ReaderState) (calls : List (FeedCall Fed)) (bytes : List ℕ) → old.fault ≡ None → Stands old [] []
        → IsRun json_feeding old calls new → AreGivenInTurn json_feeding.taken bytes calls []
        → (ts : List Span) × AreTokensOf bytes ts × AreSpans (told_by_all json_feeding [] calls) ts }
    ensures refused { (old new last : ReaderState) (calls : List (FeedCall Fed)) (bytes piece more : List ℕ) (fault : JsonFault) → old.fault ≡ None → Stands old [] []
        → IsRun json_feeding old calls new → AreGivenInTurn json_feeding.taken bytes calls (piece ++ more) → json_feeding.Step new piece (Err fault) last
        → IsFirstFault fault bytes (told_by_all json_feeding [] calls) }
    ensures whole { (old new : ReaderState) (calls : List (FeedCall Fed)) (bytes : List ℕ) (token : Option Spanned) → old.fault ≡ None → Stands old [] []
        → IsRun json_feeding old calls new → AreGivenInTurn json_feeding.taken bytes calls [] → IsFinish new (Ok token)
        → IsTextToldBy bytes (told_by_all json_feeding [] calls ++ option_to_list token) }
    ensures cut { (old new : ReaderState) (calls : List (FeedCall Fed)) (bytes : List ℕ) (fault : JsonFault) → old.fault ≡ None → Stands old [] []
        → IsRun json_feeding old calls new → AreGivenInTurn json_feeding.taken bytes calls [] → IsFinish new (Err fault)
        → IsCutAt fault bytes (told_by_all json_feeding [] calls) }
{}

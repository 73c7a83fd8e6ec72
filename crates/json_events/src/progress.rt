//! How far a text has come, byte by byte.

ghost use Rattle.std.specs.Prelude.{◌≡◌, ℕ, ◌+◌, ◌*◌, ◌<◌, ◌≤◌, ◌⊎◌, List, [], ◌∷◌, length, take, true, Some, None, IfOk, IfErr, IfSome, IsSome, OnOk, IsUtf8};
ghost use Rattle.json_events.specs.WordSteps.{begin, more_state, held_on};
ghost use Rattle.json_events.specs.WordStates.{IsOpen};
ghost use Rattle.json_events.specs.declared.state.StringState.TheVariants.{Plain};
ghost use Rattle.json_events.specs.declared.state.WordState.TheVariants.{Inside};
ghost use Rattle.json_events.specs.JsonTree.{digits};
ghost use Rattle.json_events.specs.declared.fault.JsonFault.TheVariants as fault;
ghost use Rattle.json_events.specs.HeldWords.{HoldsWord};
ghost use Rattle.json_events.specs.NestingSpot.{spot_seen};
ghost use Rattle.json_events.specs.ReadingSteps.{leaves, on_word, begins, wants_key};
ghost use Rattle.json_events.specs.ReadingMoves.{lost, takes, moved_at, moved_word, may_come};
ghost use Rattle.json_events.specs.JsonTokens.{level_in, level_limit};
ghost use Rattle.base.specs.Saturated.{saturated};
ghost use Rattle.json_events.specs.ReaderState.{config_at, KeepsLess, IsReadable, StandsFor};
ghost use Rattle.json_events.specs.ReaderAnswers.{mark_seen, StandsOn, ReadsOn, IsNumberToken, IsFaultBehind, IsWholeWith, IsNotWhole, pending_word};
ghost use Rattle.json_events.specs.ProgressSeen.{reading_of, word_seen, word_start, HoldsReading, BeganAt, given_seen, started, step_seen, at_behind, IsPlaced, IsBefore, IsEntryFault, IsRefused};

use crate::endings::{ended, string_token, take_text};
use crate::escapes::plain_len;
use crate::fault::JsonFault;
use crate::held::hold_more;
use crate::nesting::{Spot, wants_key};
use crate::stack::Stack;
use crate::state::{Want, WordState};
use crate::step::{Ended, Step};
use crate::token::{Fed, Spanned, Token};
use crate::words::{begin, hold_first, is_blank, is_plain_string, is_whole, kind, more};
use std::alloc::Global;

/// A word that has begun and not ended.
#[derive(Clone, Copy, Debug)]
pub(crate) struct Begun {
    /// How far it has come.
    pub(crate) state: WordState,
    /// Whether it stands where a key is wanted.
    pub(crate) is_key: bool,
    /// The offset of its first byte.
    pub(crate) from: u64,
}

/// How far a text has come.
#[derive(Debug, Drop)]
pub(crate) struct Progress {
    /// Where memory comes from.
    pub(crate) alloc: Global,
    /// The word that has begun, if one has.
    pub(crate) word: Option<Begun>,
    /// What is kept of it.
    pub(crate) held: Vec<u8>,
    /// What may come behind it.
    pub(crate) spot: Spot,
    /// How many bytes were taken.
    pub(crate) at: u64,
}

impl Progress {
    /// Nothing has come.
    #[tactic(auto, using(crate::proofs::reading::StandLemmas::start_stands))]
    pub fn new(alloc: Global) -> Progress
        ensures stands { StandsFor (reading_of result) [] [] }
        ensures readable { IsReadable (reading_of result) }
        ensures idle { (reading_of result).word ≡ None }
    {
        Progress {
            alloc,
            word: None,
            held: Vec::new(alloc),
            spot: Spot {
                want: Want::Value,
                around: Stack::new(alloc),
            },
            at: 0,
        }
    }

    /// Puts the word that has just taken a byte.
    fn put(&mut self, word: Begun) -> Option<Spanned>
        requires holds { HoldsWord word.state self.old.held.items }
        requires kept { KeepsLess (Some word.state) self.old.held.items word.from self.old.at }
        ensures out { (from at : ℕ) → leaves (config_at (reading_of self.new) from at) (given_seen result from at) ≡ on_word (word_seen word self.old.held.items) (spot_seen self.old.spot) from at }
        ensures holds { HoldsReading (reading_of self.new) }
        ensures spot { self.new.spot ≡ self.old.spot }
        ensures from { BeganAt (reading_of self.new) word.from }
        ensures at { self.new.at ≡ self.old.at }
        ensures placed { IfSome result (λ s. (s.from ≡ word.from) × (s.to ≡ self.old.at)) }
    {
        self.word = None;
        match ended(word.state) {
            Ended::No => {
                self.word = Some(word);
                None
            }
            Ended::Quiet => {
                self.held.clear();
                None
            }
            Ended::Text => Some(Spanned {
                token: string_token(word.is_key, take_text(self.alloc, &mut self.held)),
                from: word.from,
                to: self.at,
            }),
            Ended::Gives(token) => {
                self.held.clear();
                Some(Spanned {
                    token,
                    from: word.from,
                    to: self.at,
                })
            }
        }
    }

    /// Takes a byte that is not white space, where no word has begun.
    #[tactic(auto, using(crate::proofs::reading::HeldSizes::first_kept))]
    fn enter(&mut self, b: u8) -> Result<Option<Spanned>, JsonFault>
        requires shallow { level_in self.old.spot.want self.old.spot.around ≤ level_limit }
        requires empty { self.old.held.items ≡ [] }
        ensures ok { IfOk result (λ s. (at : ℕ) → leaves (config_at (reading_of self.new) at (at + 1)) (given_seen s at (at + 1)) ≡ begins (begin (wants_key self.old.spot.want) b) (spot_seen self.old.spot) at) }
        ensures holds { OnOk result (HoldsReading (reading_of self.new)) }
        ensures shallow { OnOk result (level_in self.new.spot.want self.new.spot.around ≤ level_limit) }
        ensures from { OnOk result (BeganAt (reading_of self.new) self.old.at) }
        ensures at { OnOk result (self.new.at ≡ saturated (self.old.at + 1)) }
        ensures placed { IfOk result (λ t. IfSome t (λ s. (s.from ≡ self.old.at) × (s.to ≡ self.new.at))) }
        ensures err { IfErr result (λ f. IsEntryFault f (reading_of self.old) b) }
    {
        let is_key = wants_key(self.spot.want);
        match begin(is_key, b) {
            None => Err(JsonFault::Syntax(self.at)),
            Some(l) => match self.spot.enter(kind(l, is_key), self.at) {
                Err(fault) => Err(fault),
                Ok(()) => match hold_first(&mut self.held, l, b) {
                    Err(_) => Err(JsonFault::NoMemory),
                    Ok(()) => {
                        let word = Begun {
                            state: l,
                            is_key,
                            from: self.at,
                        };
                        self.at = self.at.saturating_add(1);
                        Ok(self.put(word))
                    }
                },
            },
        }
    }

    /// Takes the number out that ends here.
    fn take_number(&mut self, from: u64) -> Spanned
        requires { IsUtf8 self.old.held.items }
        ensures mark { mark_seen result.token ≡ digits self.old.held.items }
        ensures empty { self.new.held.items ≡ [] }
        ensures placed { (result.from ≡ from) × (result.to ≡ self.old.at) }
        ensures word { self.new.word ≡ None }
        ensures spot { self.new.spot ≡ self.old.spot }
        ensures at { self.new.at ≡ self.old.at }
    {
        self.word = None;
        let digits = take_text(self.alloc, &mut self.held);
        Spanned {
            token: Token::Number(digits),
            from,
            to: self.at,
        }
    }

    /// Ends a word before a byte that does not go on with it.
    #[tactic(auto, using(crate::proofs::reading::HeldLemmas::whole_utf8))]
    fn end_before(&mut self, word: Begun, b: u8) -> Result<Step, JsonFault>
        requires open { IsOpen word.state }
        requires holds { HoldsWord word.state self.old.held.items }
        ensures ok { IfOk result (λ s. (from at : ℕ) → step_seen s (reading_of self.new) from at ≡ moved_word None (word_seen word self.old.held.items) (spot_seen self.old.spot) from at b) }
        ensures err { IfErr result (λ f. (f ≡ fault.Syntax self.old.at) × ((from at : ℕ) → moved_word None (word_seen word self.old.held.items) (spot_seen self.old.spot) from at b ≡ lost)) }
        ensures word { OnOk result (self.new.word ≡ None) }
        ensures holds { OnOk result (HoldsReading (reading_of self.new)) }
        ensures spot { self.new.spot ≡ self.old.spot }
        ensures at { IfOk result (λ s. self.new.at ≡ at_behind s self.old.at) }
        ensures placed { IfOk result (λ s. IsPlaced s word.from self.new.at) }
    {
        if is_whole(word.state) && self.may_come(b) {
            Ok(Step::Before(self.take_number(word.from)))
        } else {
            Err(JsonFault::Syntax(self.at))
        }
    }

    /// Whether a byte may stand where no word has begun.
    fn may_come(&self, b: u8) -> bool
        ensures { result ≡ may_come (spot_seen self.now.spot) b }
    {
        if is_blank(b) {
            return true;
        }
        let is_key = wants_key(self.spot.want);
        match begin(is_key, b) {
            None => false,
            Some(l) => self.spot.allows(kind(l, is_key)),
        }
    }

    /// Goes on with a word by a byte that it may have.
    #[tactic(auto, using(crate::proofs::reading::HeldLemmas::more_holds))]
    fn go_on(&mut self, word: Begun, next: WordState, b: u8) -> Result<Step, JsonFault>
        requires open { IsOpen word.state }
        requires holds { HoldsWord word.state self.old.held.items }
        requires kept { KeepsLess (Some word.state) self.old.held.items word.from self.old.at }
        requires next { more_state word.state b ≡ Some next }
        ensures ok { IfOk result (λ s. (from at : ℕ) → step_seen s (reading_of self.new) from at ≡ takes (on_word (record { state = next; is_key = word.is_key; held = held_on word.state self.old.held.items b }) (spot_seen self.old.spot) from (at + 1))) }
        ensures err { IfErr result (λ f. f ≡ fault.NoMemory) }
        ensures taken { IfOk result (λ s. IsBefore s → ⊥) }
        ensures holds { OnOk result (HoldsReading (reading_of self.new)) }
        ensures spot { self.new.spot ≡ self.old.spot }
        ensures from { OnOk result (BeganAt (reading_of self.new) word.from) }
        ensures at { IfOk result (λ s. self.new.at ≡ at_behind s self.old.at) }
        ensures placed { IfOk result (λ s. IsPlaced s word.from self.new.at) }
    {
        match hold_more(&mut self.held, word.state, b) {
            Err(_) => Err(JsonFault::NoMemory),
            Ok(()) => {
                self.at = self.at.saturating_add(1);
                match self.put(Begun {
                    state: next,
                    ..word
                }) {
                    None => Ok(Step::Takes),
                    Some(token) => Ok(Step::Gives(token)),
                }
            }
        }
    }

    /// One byte.
    fn advance(&mut self, b: u8) -> Result<Step, JsonFault>
        requires readable { IsReadable (reading_of self.old) }
        ensures ok { IfOk result (λ s. (from at : ℕ) → step_seen s (reading_of self.new) (started (reading_of self.old).word from at) at ≡ moved_at (config_at (reading_of self.old) from at) b) }
        ensures err { IfErr result (λ f. IsRefused f (reading_of self.old) b) }
        ensures holds { OnOk result (HoldsReading (reading_of self.new)) }
        ensures shallow { OnOk result (level_in self.new.spot.want self.new.spot.around ≤ level_limit) }
        ensures at { IfOk result (λ s. self.new.at ≡ at_behind s self.old.at) }
        ensures from { OnOk result (BeganAt (reading_of self.new) (word_start (reading_of self.old))) }
        ensures placed { IfOk result (λ s. IsPlaced s (word_start (reading_of self.old)) self.new.at) }
        ensures before { IfOk result (λ s. IsBefore s → (pending_word (reading_of self.old).word ≡ 1) × (pending_word (reading_of self.new).word ≡ 0)) }
    {
        match self.word {
            None => if is_blank(b) {
                self.at = self.at.saturating_add(1);
                Ok(Step::Takes)
            } else {
                match self.enter(b) {
                    Err(e) => Err(e),
                    Ok(None) => Ok(Step::Takes),
                    Ok(Some(token)) => Ok(Step::Gives(token)),
                }
            },
            Some(word) => match more(word.state, b) {
                None => self.end_before(word, b),
                Some(next) => self.go_on(word, next, b),
            },
        }
    }

    /// Whether a string has begun and stands between two characters.
    fn is_between_characters(&self) -> bool
        ensures { result ≡ true → (reading_of self.now).word ≡ Some (Inside Plain) }
    {
        match self.word {
            None => false,
            Some(word) => is_plain_string(word.state),
        }
    }

    /// Takes the bytes at the front that stand for themselves, where a string has begun.
    fn pass(&mut self, bytes: &[u8]) -> Result<usize, JsonFault>
        requires readable { IsReadable (reading_of self.old) }
        ensures readable { OnOk result (IsReadable (reading_of self.new)) }
        ensures within { IfOk result (λ n. n ≤ length bytes.now) }
        ensures stands { IfOk result (λ n. StandsOn (reading_of self.old) (reading_of self.new) (take n bytes.now) None) }
        ensures word { self.new.word ≡ self.old.word }
        ensures err { IfErr result (λ f. f ≡ fault.NoMemory) }
    {
        if !self.is_between_characters() {
            return Ok(0);
        }
        let n = plain_len(bytes);
        match self.held.extend_from_slice(&bytes[..n]) {
            Err(_) => Err(JsonFault::NoMemory),
            Ok(()) => {
                self.at = self.at.saturating_add(n as u64);
                Ok(n)
            }
        }
    }

    /// Takes one byte.
    fn step(&mut self, bytes: &[u8]) -> Result<Fed, JsonFault>
        requires readable { IsReadable (reading_of self.old) }
        requires some { 0 < length bytes.now }
        ensures readable { OnOk result (IsReadable (reading_of self.new)) }
        ensures within { IfOk result (λ fed. fed.taken ≤ length bytes.now) }
        ensures moves { IfOk result (λ fed. (fed.token ≡ None → 0 < fed.taken) × (IsSome fed.token → pending_word (reading_of self.new).word < 2 * fed.taken + pending_word (reading_of self.old).word)) }
        ensures reads { IfOk result (λ fed. ReadsOn (reading_of self.old) (reading_of self.new) bytes.now fed.taken fed.token) }
        ensures number { IfOk result (λ fed. IfSome fed.token (λ s. IsNumberToken s.token → fed.taken < length bytes.now)) }
        ensures fault { IfErr result (λ f. IsFaultBehind f (reading_of self.old) bytes.now) }
    {
        match self.advance(bytes[0]) {
            Err(fault) => Err(fault),
            Ok(Step::Takes) => Ok(Fed {
                taken: 1,
                token: None,
            }),
            Ok(Step::Gives(token)) => Ok(Fed {
                taken: 1,
                token: Some(token),
            }),
            Ok(Step::Before(token)) => Ok(Fed {
                taken: 0,
                token: Some(token),
            }),
        }
    }

    /// Takes one byte, or more that stand for themselves in a string.
    fn run(&mut self, bytes: &[u8]) -> Result<Fed, JsonFault>
        requires readable { IsReadable (reading_of self.old) }
        requires some { 0 < length bytes.now }
        ensures readable { OnOk result (IsReadable (reading_of self.new)) }
        ensures within { IfOk result (λ fed. fed.taken ≤ length bytes.now) }
        ensures moves { IfOk result (λ fed. (fed.token ≡ None → 0 < fed.taken) × (IsSome fed.token → pending_word (reading_of self.new).word < 2 * fed.taken + pending_word (reading_of self.old).word)) }
        ensures reads { IfOk result (λ fed. ReadsOn (reading_of self.old) (reading_of self.new) bytes.now fed.taken fed.token) }
        ensures number { IfOk result (λ fed. IfSome fed.token (λ s. IsNumberToken s.token → fed.taken < length bytes.now)) }
        ensures fault { IfErr result (λ f. IsFaultBehind f (reading_of self.old) bytes.now) }
    {
        match self.pass(bytes) {
            Err(fault) => Err(fault),
            Ok(taken) => if taken == 0 {
                self.step(bytes)
            } else {
                Ok(Fed { taken, token: None })
            },
        }
    }

    /// Takes bytes until a token has ended or all are taken.
    pub fn read(&mut self, bytes: &[u8]) -> Result<Fed, JsonFault>
        requires readable { IsReadable (reading_of self.old) }
        ensures readable { OnOk result (IsReadable (reading_of self.new)) }
        ensures within { IfOk result (λ fed. fed.taken ≤ length bytes.now) }
        ensures all { IfOk result (λ fed. fed.token ≡ None → fed.taken ≡ length bytes.now) }
        ensures moves { IfOk result (λ fed. IsSome fed.token → pending_word (reading_of self.new).word < 2 * fed.taken + pending_word (reading_of self.old).word) }
        ensures reads { IfOk result (λ fed. ReadsOn (reading_of self.old) (reading_of self.new) bytes.now fed.taken fed.token) }
        ensures number { IfOk result (λ fed. IfSome fed.token (λ s. IsNumberToken s.token → fed.taken < length bytes.now)) }
        ensures fault { IfErr result (λ f. IsFaultBehind f (reading_of self.old) bytes.now) }
    {
        let mut taken = 0;
        'bytes: while taken < bytes.len() {
            match self.run(&bytes[taken..]) {
                Err(fault) => return Err(fault),
                Ok(Fed { taken: n, token }) => match token {
                    None => taken += n,
                    Some(given) => return Ok(Fed {
                        taken: taken + n,
                        token: Some(given),
                    }),
                },
            }
        }
        Ok(Fed { taken, token: None })
    }

    /// Says that nothing follows.
    pub fn end(&mut self) -> Result<Option<Spanned>, JsonFault>
        requires readable { IsReadable (reading_of self.old) }
        ensures readable { OnOk result (IsReadable (reading_of self.new)) }
        ensures stands { IfOk result (λ token. StandsOn (reading_of self.old) (reading_of self.new) [] token) }
        ensures whole { IfOk result (λ token. IsWholeWith (StandsFor (reading_of self.old)) token) }
        ensures once { OnOk result (pending_word (reading_of self.new).word ≡ 0) }
        ensures none { pending_word (reading_of self.old).word ≡ 0 → IfOk result (λ token. token ≡ None) }
        ensures fault { IfErr result (λ f. IsNotWhole (StandsFor (reading_of self.old)) f) }
        ensures syntax { IfErr result (λ f. f ≡ fault.Syntax self.old.at) }
    {
        if !self.spot.is_done() {
            return Err(JsonFault::Syntax(self.at));
        }
        match self.word {
            None => Ok(None),
            Some(word) => if is_whole(word.state) {
                Ok(Some(self.take_number(word.from)))
            } else {
                Err(JsonFault::Syntax(self.at))
            },
        }
    }
}

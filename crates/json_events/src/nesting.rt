//! Which mark may come next.

ghost use Rattle.std.specs.Prelude.{◌≡◌, ◌==◌, ◌≤◌, IfOk, IfErr, OnOk, Some, None, if◌then◌else◌};
ghost use Rattle.json_events.specs.ReadingMoves.{is_place};
ghost use Rattle.json_events.specs.JsonTokens.{level_in, level_limit};
ghost use Rattle.json_events.specs.ProgressSeen.{is_opening, IsMarkFault};
ghost use Rattle.json_events.specs.NestingSteps.{IsTurn, IsTurnAnywhere, next, turned};
ghost use Rattle.json_events.specs.NestingSpot.{spot_seen};
ghost use Rattle.std.specs.Prelude.{List};
ghost use Rattle.json_events.specs.JsonText.{Span};
ghost use Rattle.json_events.specs.ReadingSteps.{if_done, wants_key};

use crate::fault::JsonFault;
use crate::stack::Stack;
use crate::state::{Bracket, Kind, Turn, Want};
use std::alloc::AllocError;

/// How many brackets may be open.
pub(crate) const LEVEL_LIMIT: usize = 208;

fn after_value(top: Option<Bracket>, kind: Kind) -> Turn
    ensures { IsTurn result Want.After top kind }
{
    match top {
        None => Turn::Refuse,
        Some(Bracket::Array) => match kind {
            Kind::Separator => Turn::Stay(Want::Value),
            Kind::Closing(Bracket::Array) => Turn::Pop(Want::After),
            _ => Turn::Refuse,
        },
        Some(Bracket::Object) => match kind {
            Kind::Separator => Turn::Pop(Want::Key),
            Kind::Closing(Bracket::Object) => Turn::Pop(Want::After),
            _ => Turn::Refuse,
        },
    }
}

fn first_item(kind: Kind) -> Turn
    ensures { IsTurnAnywhere result Want.FirstItem kind }
{
    match kind {
        Kind::Opening(Bracket::Array) => Turn::Push(Bracket::Array, Want::FirstItem),
        Kind::Opening(Bracket::Object) => Turn::Push(Bracket::Array, Want::FirstKey),
        Kind::Closing(Bracket::Array) => Turn::Stay(Want::After),
        Kind::Scalar => Turn::Push(Bracket::Array, Want::After),
        _ => Turn::Refuse,
    }
}

/// What a mark does at a place.
pub(crate) fn turn(want: Want, top: Option<Bracket>, kind: Kind) -> Turn
    ensures { IsTurn result want top kind }
{
    match want {
        Want::Value => match kind {
            Kind::Opening(Bracket::Array) => Turn::Stay(Want::FirstItem),
            Kind::Opening(Bracket::Object) => Turn::Stay(Want::FirstKey),
            Kind::Scalar => Turn::Stay(Want::After),
            _ => Turn::Refuse,
        },
        Want::FirstItem => first_item(kind),
        Want::FirstKey => match kind {
            Kind::Closing(Bracket::Object) => Turn::Stay(Want::After),
            Kind::Naming => Turn::Stay(Want::Colon),
            _ => Turn::Refuse,
        },
        Want::Key => match kind {
            Kind::Naming => Turn::Stay(Want::Colon),
            _ => Turn::Refuse,
        },
        Want::Colon => match kind {
            Kind::Between => Turn::Push(Bracket::Object, Want::Value),
            _ => Turn::Refuse,
        },
        Want::After => after_value(top, kind),
    }
}

/// What is wanted, and the brackets around it.
#[derive(Debug, Drop)]
pub(crate) struct Spot {
    pub want: Want,
    pub around: Stack,
}

impl Spot {
    /// Whether a whole text has come.
    pub fn is_done(&self) -> bool
        ensures { (xs : List Span) → if_done self.now.want self.now.around xs ≡ (if result then Some xs else None) }
    {
        match self.want {
            Want::After => match self.around.top() {
                None => true,
                Some(_) => false,
            },
            Want::Value | Want::FirstItem | Want::FirstKey | Want::Key | Want::Colon => false,
        }
    }

    /// Whether as many brackets are open as may be.
    fn is_full(&self) -> bool
        ensures { result ≡ (level_in self.now.want self.now.around == level_limit) }
    {
        match self.want {
            Want::Value | Want::After => self.around.len() == LEVEL_LIMIT,
            Want::FirstItem | Want::FirstKey | Want::Key | Want::Colon => {
                self.around.len() == LEVEL_LIMIT - 1
            }
        }
    }

    /// Whether a mark may come.
    pub fn allows(&self, kind: Kind) -> bool
        ensures { result ≡ is_place (next (spot_seen self.now) kind) }
    {
        match turn(self.want, self.around.top(), kind) {
            Turn::Stay(_) | Turn::Push(_, _) => true,
            Turn::Pop(_) => match self.around.top() {
                None => false,
                Some(_) => true,
            },
            Turn::Refuse => false,
        }
    }

    /// Goes inside a bracket, where the mark has this turn.
    fn go_inside(
        &mut self,
        bracket: Bracket,
        want: Want,
        kind: Kind,
        at: u64,
    ) -> Result<(), JsonFault>
        requires turn { turned (Turn.Push bracket want) self.old.around ≡ next (spot_seen self.old) kind }
        requires shallow { level_in self.old.want self.old.around ≤ level_limit }
        ensures ok { OnOk result (next (spot_seen self.old) kind ≡ Some (spot_seen self.new)) }
        ensures err { IfErr result (λ f. IsMarkFault f at (spot_seen self.old) kind) }
        ensures shallow { OnOk result (level_in self.new.want self.new.around ≤ level_limit) }
    {
        if is_opening(kind) && self.is_full() {
            return Err(JsonFault::TooDeep(at));
        }
        if self.around.push(bracket).is_err() {
            return Err(JsonFault::NoMemory);
        }
        self.want = want;
        Ok(())
    }

    /// Goes on by a mark that begins there, or says why it may not come.
    pub fn enter(&mut self, kind: Kind, at: u64) -> Result<(), JsonFault>
        requires shallow { level_in self.old.want self.old.around ≤ level_limit }
        ensures ok { OnOk result (next (spot_seen self.old) kind ≡ Some (spot_seen self.new)) }
        ensures err { IfErr result (λ f. IsMarkFault f at (spot_seen self.old) kind) }
        ensures shallow { OnOk result (level_in self.new.want self.new.around ≤ level_limit) }
    {
        match turn(self.want, self.around.top(), kind) {
            Turn::Refuse => Err(JsonFault::Syntax(at)),
            Turn::Stay(want) => {
                if is_opening(kind) && self.is_full() {
                    return Err(JsonFault::TooDeep(at));
                }
                self.want = want;
                Ok(())
            }
            Turn::Push(bracket, want) => self.go_inside(bracket, want, kind, at),
            Turn::Pop(want) => match self.around.top() {
                None => Err(JsonFault::Syntax(at)),
                Some(_) => {
                    self.around.pop();
                    self.want = want;
                    Ok(())
                }
            },
        }
    }
}

/// Whether it opens a bracket.
fn is_opening(kind: Kind) -> bool
    ensures { result ≡ is_opening kind }
{
    match kind {
        Kind::Opening(_) => true,
        Kind::Closing(_) | Kind::Separator | Kind::Between | Kind::Naming | Kind::Scalar => false,
    }
}

/// Whether a string is a key there.
pub(crate) fn wants_key(want: Want) -> bool
    ensures { result ≡ wants_key want }
{
    match want {
        Want::FirstKey | Want::Key => true,
        Want::Value | Want::FirstItem | Want::Colon | Want::After => false,
    }
}

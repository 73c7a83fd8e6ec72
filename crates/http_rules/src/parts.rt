//! The parts of a template that are read so far.
ghost use Rattle.std.specs.Prelude.{◌≡◌, ◌<◌, ◌≤◌, ◌++◌, ◌∷◌, [], length, encode_utf8, IsTrue, Some, OnOk, IfOk, IfSome};
ghost use Rattle.http_rules.specs.Template.{IsWithinLimits};
ghost use Rattle.http_rules.specs.TemplateMachine.{no_parts, shaped, named, with_segment, opened, with_variable, did, is_final, finish};
ghost use Rattle.http_rules.specs.TemplateLimits.{AreFew, RefusesOver, KeepsAscii};

use crate::fault::TemplateFault;
use crate::state::{Act, Shape, State};
use crate::template::{Segment, Template, Variable};
use base::{List, NoMemory, Text};
use std::alloc::Global;
use std::mem;

/// The most segments of a template.
const MAX_SEGMENTS: usize = 64;

/// The most variables of a template.
const MAX_VARIABLES: usize = 16;

/// What is read of a template: its whole segments and variables, and what has begun.
#[derive(Drop)]
pub(crate) struct Parts {
    /// The segments that have ended.
    pub(crate) segments: List<Segment>,
    /// The variables that have ended.
    pub(crate) variables: List<Variable>,
    /// The bytes of the literal or identifier that has begun.
    pub(crate) word: Text,
    /// The names of the field path that has begun.
    pub(crate) path: List<Text>,
    /// The first segment of the variable that has begun.
    pub(crate) from: u32,
}

impl Parts {
    /// Nothing is read. Takes no memory.
    pub(crate) fn new(alloc: Global) -> Parts
        ensures { result ≡ no_parts }
    {
        Parts {
            segments: List::new(alloc),
            variables: List::new(alloc),
            word: Text::new(alloc),
            path: List::new(alloc),
            from: 0,
        }
    }

    fn keep(&mut self, byte: u8) -> Result<(), NoMemory>
        requires { byte < 128 }
        ensures { OnOk result (self.new ≡ record self.old { word = self.old.word ++ byte ∷ [] }) }
    {
        self.word.push(char::from(byte))
    }

    fn end_name(&mut self, alloc: Global) -> Result<(), NoMemory>
        ensures { OnOk result (self.new ≡ named self.old) }
    {
        let word = mem::replace(&mut self.word, Text::new(alloc));
        self.path.push(word)
    }

    fn open(&mut self)
        requires { AreFew self.old }
        ensures { self.new ≡ opened self.old }
    {
        self.from = self.segments.len() as u32;
    }

    fn end_segment(&mut self, alloc: Global, shape: Shape) -> Result<(), TemplateFault>
        requires { AreFew self.old }
        ensures ok { OnOk result (self.new ≡ with_segment (shaped shape self.old.word) self.old) }
        ensures few { OnOk result (AreFew self.new) }
        ensures over { RefusesOver result (64 ≤ length self.old.segments) }
    {
        if self.segments.len() >= MAX_SEGMENTS {
            return Err(TemplateFault::TooMany);
        }
        let word = mem::replace(&mut self.word, Text::new(alloc));
        let segment = match shape {
            Shape::One => Segment::One,
            Shape::Rest => Segment::Rest,
            Shape::Literal => Segment::Literal(word),
        };
        self.segments.push(segment)?;
        Ok(())
    }

    fn end_variable(&mut self, alloc: Global) -> Result<(), TemplateFault>
        requires { AreFew self.old }
        ensures ok { OnOk result (self.new ≡ with_variable self.old) }
        ensures few { OnOk result (AreFew self.new) }
        ensures over { RefusesOver result (16 ≤ length self.old.variables) }
    {
        if self.variables.len() >= MAX_VARIABLES {
            return Err(TemplateFault::TooMany);
        }
        let path = mem::replace(&mut self.path, List::new(alloc));
        let to = self.segments.len() as u32;
        let from = self.from;
        self.variables.push(Variable { path, from, to })?;
        Ok(())
    }

    /// Does what a byte does.
    pub(crate) fn take(&mut self, alloc: Global, act: Act, byte: u8) -> Result<(), TemplateFault>
        requires ascii { KeepsAscii act byte }
        requires few { AreFew self.old }
        ensures ok { OnOk result (self.new ≡ did act byte self.old) }
        ensures few { OnOk result (AreFew self.new) }
        ensures over { RefusesOver result (AreFew (did act byte self.old) → ⊥) }
    {
        match act {
            Act::Skip => {}
            Act::Keep => self.keep(byte)?,
            Act::EndName => self.end_name(alloc)?,
            Act::OpenRange => {
                self.end_name(alloc)?;
                self.open();
            }
            Act::CloseBare => {
                self.end_name(alloc)?;
                self.open();
                self.end_segment(alloc, Shape::One)?;
                self.end_variable(alloc)?;
            }
            Act::EndSegment(shape) => self.end_segment(alloc, shape)?,
            Act::CloseRange(shape) => {
                self.end_segment(alloc, shape)?;
                self.end_variable(alloc)?;
            }
        }
        Ok(())
    }

    /// The template, where the text ends.
    pub(crate) fn finish(mut self, alloc: Global, state: State) -> Result<Template, TemplateFault>
        requires state { IsTrue (is_final state) }
        requires few { AreFew self }
        ensures ok { IfOk result (λ t. finish state self ≡ Some t) }
        ensures few { IfOk result IsWithinLimits }
        ensures over { RefusesOver result (IfSome (finish state self) (λ t. IsWithinLimits t → ⊥)) }
    {
        let mut verb = None;
        match state {
            State::Star(_) => self.end_segment(alloc, Shape::One)?,
            State::Stars(_) => self.end_segment(alloc, Shape::Rest)?,
            State::Literal(_) => self.end_segment(alloc, Shape::Literal)?,
            State::Verb => verb = Some(mem::replace(&mut self.word, Text::new(alloc))),
            _ => {}
        }
        Ok(Template {
            segments: self.segments,
            variables: self.variables,
            verb,
        })
    }
}

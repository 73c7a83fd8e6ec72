//! The parameters of a query, one by one (URL Standard, section 5.1).
ghost use Rattle.std.specs.Borrow.{Bor};
ghost use Rattle.std.specs.Option.{ForSome};
ghost use Rattle.std.specs.Prelude.{◌≡◌, ◌-◌, ◌+◌, ◌<◌, ◌^◌, List, ℕ, length};
ghost use Rattle.query_parameters.specs.QueryParameters.{parameters_of};

use crate::pieces::{first_piece, split_once};
use std::marker::Model;

/// One parameter of a query, still encoded: parts of the query.
#[derive(Clone, Copy, Debug)]
pub struct Parameter<'a> {
    /// Which of the pieces between the `&` it is, counted from 1. Empty pieces count, and are no parameters.
    pub number: u32,
    /// What stands before its first `=`.
    pub name: &'a [u8],
    /// What stands behind its first `=`; nothing where it has none.
    pub value: &'a [u8],
}

/// The parameters of a query that are left, seen by contracts as their list.
#[derive(Drop)]
pub struct Parameters<'a> {
    // How many pieces came.
    before: u32,
    // What stands behind the last of them.
    rest: Option<&'a [u8]>,
    // So that the numbers fit.
    pub ghost fits: { ForSome rest (λ (r : Bor (List ℕ)). before + length r.now < 2 ^ 32 - 1) },
}

impl<'a> Model for Parameters<'a> {
    ghost use Rattle.std.specs.Prelude.{List, suc};
    ghost use Rattle.std.specs.Coded.{coded_list};
    ghost use Rattle.query_parameters.specs.QueryParameters.{EncodedParameter, parameter_code};
    ghost use Rattle.query_parameters.specs.QueryParameters.{numbered_from, pieces_left};
    ghost use Rattle.form_urlencoded.specs.Form.{ampersand};

    ghost Value = { List EncodedParameter };

    ghost coded = { coded_list parameter_code };

    ghost view = { λ p. numbered_from (suc p.before) (pieces_left ampersand p.rest) };
}

impl<'a> Parameters<'a> {
    /// The parameters of a query, in order. Takes no memory.
    pub fn of(query: &'a [u8]) -> Parameters<'a>
        requires { length query.now < 2 ^ 32 - 1 }
        ensures { result ≡ parameters_of query.now }
    {
        Parameters {
            before: 0,
            rest: Some(query),
        }
    }
}

impl<'a> Iterator for Parameters<'a> {
    ghost use Rattle.std.specs.Iterator.{YieldsFirstBy, at_most};
    ghost use Rattle.std.specs.Prelude.{length};
    ghost use Rattle.query_parameters.specs.ParameterParts.{encoded_of};

    type Item = Parameter<'a>;

    ghost next_gives = { YieldsFirstBy encoded_of (λ p. p) };

    ghost remaining = { λ p. at_most (length p) };

    #[tactic(auto, using(crate::proofs::Splits::empty_piece, crate::proofs::Splits::full_piece))]
    fn next(&mut self) -> Option<Parameter<'a>> {
        while let Some(bytes) = self.rest {
            let (piece, rest) = first_piece(bytes, b'&');
            self.before += 1;
            self.rest = rest;
            if !piece.is_empty() {
                let (name, value) = split_once(piece, b'=');
                return Some(Parameter {
                    number: self.before,
                    name,
                    value,
                });
            }
        }
        None
    }
}

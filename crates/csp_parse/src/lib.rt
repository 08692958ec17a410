//! The tree of a script, from its tokens.
//!
//! `parse` reads the tokens once, and each of its choices is made by the next token. By its contract a
//! tree that it answers is one that the grammar gives these tokens, with each name's spelling and place,
//! and no token is too high for its declaration; and a refusal is the one that the definitions give these
//! tokens, at its place. So every script within the limit of heights is read, as long as there is memory.
#![tactic(auto)]

mod declarations;
mod event_sets;
mod events;
mod expressions;
mod levels;
mod names;
mod nests;
mod parsers;
mod processes;
mod read_assertions;
mod read_declarations;
mod read_events;
mod read_expressions;
mod read_fields;
mod read_freedoms;
mod read_processes;
mod read_starts;
mod refusals;
mod starts;
mod stops;

ghost use Rattle.std.specs.Prelude.{IfOk, IfErr, map};
ghost use Rattle.theory_text.specs.Grammar.{IsScript};
ghost use Rattle.theory_text.specs.Height.{HasNoneTooHigh};
ghost use Rattle.csp_lex.specs.Places.{place_of};
ghost use Rattle.csp_lex.specs.Tokens.{placed_token};
ghost use Rattle.csp_parse.specs.Declarations.{script_of};
ghost use Rattle.csp_parse.specs.Stopping.{IsRefusalOf};

use csp_lex::TokenList;
pub use declarations::{Clause, Declaration, Domain, Property, Raw};
pub use event_sets::EventSet;
pub use events::{Event, Pair};
pub use expressions::Expression;
pub use names::Name;
pub use nests::GREATEST_HEIGHT;
pub use processes::{Field, Infix, Process};
pub use refusals::{GrammarFault, Refused};
use std::alloc::Allocator;
pub use theory_syntax::{
    BinaryOperator, EventSetOperator, Model, ProcessOperator, ReplicatedOperator, UnaryOperator,
};

/// The script that tokens are, or why they are none.
///
/// A token is refused with which the tokens so far begin no script, or, before that is asked, with which
/// its declaration is higher than `GREATEST_HEIGHT`; the end is refused of tokens that only begin a script.
/// `Refused::Memory` comes where the tree could not grow, and says nothing of the tokens.
pub fn parse<'a, A: Allocator + Copy, B: Allocator>(
    alloc: A,
    list: &TokenList<'a, B>,
) -> Result<Raw<'a, A>, Refused>
    ensures tree { IfOk result (λ raw. IsScript (map placed_token list.now.tokens.items)
        (script_of raw)) }
    ensures low { IfOk result (λ _. HasNoneTooHigh (map placed_token list.now.tokens.items)) }
    ensures refusal { IfErr result (λ refused. IsRefusalOf (map placed_token list.now.tokens.items)
        (place_of list.now.end) refused) }
{
    let mut parser = parsers::Parser::new(alloc, list);
    match parser.script() {
        Ok(raw) => Ok(raw),
        Err(stopped) => Err(parser.refusal(stopped, list.end)),
    }
}

//! Values that stand where the process of an equation has to stand.

use crate::grammar_tables::texts::{CONSTANT, NAMED_SET};
use crate::places::{Surroundings, front_length};
use csp_lex::{Keyword, Place, Token, TokenKind, TokenList};
use csp_parse::{BinaryOperator, Declaration, Expression, Raw, UnaryOperator, parse};
use std::alloc::{AllocError, Allocator};

const TRUTH_VALUE: &str =
    "an equation is a process, and no value: behind a guard stands `&` with its process, as `x == 0 & P`";

/// A value that stands where the process of an equation has to stand.
#[derive(Clone, Copy)]
pub(crate) struct ValueBody {
    /// The place of its first token.
    pub(crate) place: Place,
    /// What may be meant.
    pub(crate) advice: &'static str,
}

/// The value that alone stands between the `=` of an equation and the place, where that is the end of the text or
/// another declaration begins there.
pub(crate) fn value_body<'t, A: Allocator + Copy>(
    alloc: A,
    list: &TokenList<'t, A>,
    around: &Surroundings<'t>,
    place: Place,
) -> Result<Option<ValueBody>, AllocError> {
    let Some(equals) = equals_of_equation(around) else {
        return Ok(None);
    };
    if !begins_declaration(around) {
        return Ok(None);
    }
    let first = front_length(&list.tokens, equals.place) + 1;
    let past = front_length(&list.tokens, place);
    match list.tokens.get(first..past) {
        Some(body) => value_of(alloc, equals, body),
        None => Ok(None),
    }
}

/// The last token before the place that begins something, if it is the `=` of an equation.
fn equals_of_equation<'t>(around: &Surroundings<'t>) -> Option<Token<'t>> {
    match around.opening {
        Some(token) if token.text == "=" && !is_declaring(around.declaring) => Some(token),
        _ => None,
    }
}

/// Whether this is the keyword of a datatype or nametype.
fn is_declaring(token: Option<Token<'_>>) -> bool {
    match token {
        Some(token) => token.text == "datatype" || token.text == "nametype",
        None => false,
    }
}

/// Whether the text ends at the place, or another declaration begins there.
fn begins_declaration(around: &Surroundings<'_>) -> bool {
    let Some(here) = around.here else {
        return true;
    };
    match here.kind {
        TokenKind::Keyword(
            Keyword::Datatype | Keyword::Nametype | Keyword::Channel | Keyword::Assert,
        ) => true,
        TokenKind::Name => here.text != "within" && is_head_sign(around.behind),
        _ => false,
    }
}

/// Whether this stands behind the name of an equation.
fn is_head_sign(token: Option<Token<'_>>) -> bool {
    match token {
        Some(token) => token.text == "=" || token.text == "(",
        None => false,
    }
}

/// The value that the tokens behind an `=` are, if they are one.
fn value_of<'t, A: Allocator + Copy>(
    alloc: A,
    equals: Token<'t>,
    body: &[Token<'t>],
) -> Result<Option<ValueBody>, AllocError> {
    let Some(first) = body.first() else {
        return Ok(None);
    };
    let list = as_nametype(alloc, equals, body)?;
    match parse(alloc, &list) {
        Ok(raw) => Ok(set_advice(&raw).map(|advice| ValueBody {
            place: first.place,
            advice,
        })),
        Err(csp_parse::Refused::Grammar { .. }) => Ok(None),
        Err(csp_parse::Refused::Memory) => Err(AllocError),
    }
}

/// The tokens of a nametype of which these are the set: they are so exactly if they are an expression.
fn as_nametype<'t, A: Allocator>(
    alloc: A,
    equals: Token<'t>,
    body: &[Token<'t>],
) -> Result<TokenList<'t, A>, AllocError> {
    let mut tokens = Vec::new(alloc);
    tokens.push(Token {
        kind: TokenKind::Keyword(Keyword::Nametype),
        ..equals
    })?;
    tokens.push(Token {
        kind: TokenKind::Name,
        ..equals
    })?;
    tokens.push(equals)?;
    tokens.extend_from_slice(body)?;
    Ok(TokenList {
        tokens,
        end: equals.place,
    })
}

/// What may be meant by the set of the one nametype.
fn set_advice<A: Allocator>(raw: &Raw<'_, A>) -> Option<&'static str> {
    match raw.declarations.first() {
        Some(Declaration::Nametype { domain, .. }) => Some(value_advice(&domain.set)),
        _ => None,
    }
}

/// What may be meant by a value that stands where a process has to stand.
fn value_advice<A: Allocator>(value: &Expression<'_, A>) -> &'static str {
    match value {
        Expression::Set(_) | Expression::Range(_, _) | Expression::Booleans => NAMED_SET,
        Expression::Truth(_) => TRUTH_VALUE,
        Expression::Apply(UnaryOperator::Not | UnaryOperator::IsNull, _) => TRUTH_VALUE,
        Expression::Combine(operator, _, _) => operator_advice(*operator),
        _ => CONSTANT,
    }
}

/// What may be meant by what an operator makes of two values.
fn operator_advice(operator: BinaryOperator) -> &'static str {
    match operator {
        BinaryOperator::Union | BinaryOperator::Intersection | BinaryOperator::Difference =>
            NAMED_SET,
        BinaryOperator::Add
        | BinaryOperator::Subtract
        | BinaryOperator::Multiply
        | BinaryOperator::Modulus
        | BinaryOperator::Concatenate => CONSTANT,
        _ => TRUTH_VALUE,
    }
}

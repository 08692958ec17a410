//! What is seen of the kinds of values at their outermost, without looking at how their names are used.

use csp_lex::{Keyword, Sign, Token, TokenKind};
use csp_parse::{BinaryOperator, Clause, Declaration, Expression, Raw, UnaryOperator};
use std::alloc::{AllocError, Allocator};

/// What is seen of a kind.
#[derive(Clone, Copy)]
pub(crate) enum SeenKind<'t> {
    /// Whole numbers.
    Number,
    /// Truth values.
    Truth,
    /// The values of the datatype of this name.
    Datatype(&'t str),
    /// Sequences of some kind.
    Sequence,
    /// Sets of some kind.
    Set,
}

impl<'t> SeenKind<'t> {
    /// Whether no kind is seen so and as the other.
    pub(crate) fn differs(self, other: SeenKind<'t>) -> bool {
        match (self, other) {
            (SeenKind::Number, SeenKind::Number)
            | (SeenKind::Truth, SeenKind::Truth)
            | (SeenKind::Sequence, SeenKind::Sequence)
            | (SeenKind::Set, SeenKind::Set) => false,
            (SeenKind::Datatype(name), SeenKind::Datatype(other)) => name != other,
            _ => true,
        }
    }

    /// A value of the kind, in words.
    pub(crate) fn words<A: Allocator>(self, alloc: A) -> Result<String<A>, AllocError> {
        match self {
            SeenKind::Number => String::from_str(alloc, "a whole number"),
            SeenKind::Truth => String::from_str(alloc, "a truth value"),
            SeenKind::Datatype(name) => format!(in alloc; "a value of `{name}`"),
            SeenKind::Sequence => String::from_str(alloc, "a sequence"),
            SeenKind::Set => String::from_str(alloc, "a set"),
        }
    }
}

/// The kind of the atom that begins with the token, as far as the token shows it.
pub(crate) fn kind_from<'t, A: Allocator>(
    raw: &Raw<'t, A>,
    token: Token<'t>,
) -> Option<SeenKind<'t>> {
    match token.kind {
        TokenKind::Number(_) => Some(SeenKind::Number),
        TokenKind::Keyword(keyword) => keyword_kind(keyword),
        TokenKind::Sign(Sign::Minus | Sign::Hash) => Some(SeenKind::Number),
        TokenKind::Sign(Sign::OpenBrace) => Some(SeenKind::Set),
        TokenKind::Sign(Sign::Less) => Some(SeenKind::Sequence),
        TokenKind::Sign(_) => None,
        TokenKind::Name => named_kind(raw, token.text),
    }
}

/// The kind of the atom that is the token alone, or ends with it, as far as the token shows it.
pub(crate) fn kind_to<'t, A: Allocator>(
    raw: &Raw<'t, A>,
    token: Token<'t>,
) -> Option<SeenKind<'t>> {
    match token.kind {
        TokenKind::Number(_) => Some(SeenKind::Number),
        TokenKind::Keyword(Keyword::True | Keyword::False) => Some(SeenKind::Truth),
        TokenKind::Keyword(Keyword::Bool) => Some(SeenKind::Set),
        TokenKind::Name => named_kind(raw, token.text),
        TokenKind::Keyword(_) | TokenKind::Sign(_) => None,
    }
}

/// The kind of the atom that begins with the keyword.
fn keyword_kind<'t>(keyword: Keyword) -> Option<SeenKind<'t>> {
    match keyword {
        Keyword::True | Keyword::False | Keyword::Null | Keyword::Elem | Keyword::Member => Some(
            SeenKind::Truth,
        ),
        Keyword::Card => Some(SeenKind::Number),
        Keyword::Tail => Some(SeenKind::Sequence),
        Keyword::Bool | Keyword::Union | Keyword::Inter | Keyword::Diff => Some(SeenKind::Set),
        _ => None,
    }
}

/// The kind of the value that a declared name stands for.
fn named_kind<'t, A: Allocator>(raw: &Raw<'t, A>, name: &str) -> Option<SeenKind<'t>> {
    for declaration in &raw.declarations {
        if let Some(kind) = kind_declared(declaration, name) {
            return Some(kind);
        }
    }
    None
}

/// The kind of the value that the name stands for, if this declares it.
fn kind_declared<'t, A: Allocator>(
    declaration: &Declaration<'t, A>,
    name: &str,
) -> Option<SeenKind<'t>> {
    match declaration {
        Declaration::Datatype { name: set, .. } | Declaration::Nametype { name: set, .. }
            if set.text == name => { Some(SeenKind::Set) }
        Declaration::Datatype { name: set, clauses } if has_clause(clauses, name) => Some(
            SeenKind::Datatype(set.text),
        ),
        _ => None,
    }
}

/// Whether one of the clauses is that of the constructor.
fn has_clause<A: Allocator>(clauses: &[Clause<'_, A>], constructor: &str) -> bool {
    clauses.iter().any(|clause| clause.name.text == constructor)
}

/// The kind of the members of a set.
pub(crate) fn member_kind<'t, A: Allocator>(
    raw: &Raw<'t, A>,
    set: &Expression<'t, A>,
) -> Option<SeenKind<'t>> {
    match set {
        Expression::Use(name) => named_member_kind(raw, name.text),
        _ => plain_member_kind(raw, set),
    }
}

/// The kind of the members of the datatype or nametype of this name.
fn named_member_kind<'t, A: Allocator>(raw: &Raw<'t, A>, name: &str) -> Option<SeenKind<'t>> {
    for declaration in &raw.declarations {
        match declaration {
            Declaration::Datatype { name: set, .. } if set.text == name => return Some(
                SeenKind::Datatype(set.text),
            ),
            Declaration::Nametype { name: set, domain } if set.text == name =>
                return plain_member_kind(raw, &domain.set),
            _ => {}
        }
    }
    None
}

/// The kind of the members of a set that is no name.
fn plain_member_kind<'t, A: Allocator>(
    raw: &Raw<'t, A>,
    set: &Expression<'t, A>,
) -> Option<SeenKind<'t>> {
    match set {
        Expression::Booleans => Some(SeenKind::Truth),
        Expression::Range(_, _) => Some(SeenKind::Number),
        Expression::Set(members) => value_kind(raw, members.first()?),
        _ => None,
    }
}

/// The kind of a value.
fn value_kind<'t, A: Allocator>(
    raw: &Raw<'t, A>,
    value: &Expression<'t, A>,
) -> Option<SeenKind<'t>> {
    match value {
        Expression::Number(_) => Some(SeenKind::Number),
        Expression::Truth(_) => Some(SeenKind::Truth),
        Expression::Booleans | Expression::Set(_) | Expression::Range(_, _) => Some(SeenKind::Set),
        Expression::Sequence(_) => Some(SeenKind::Sequence),
        Expression::Use(name) | Expression::Constructor(name, _) => named_kind(raw, name.text),
        Expression::Apply(operator, _) => applied_kind(*operator),
        Expression::Combine(operator, _, _) => Some(combined_kind(*operator)),
    }
}

/// The kind of what an operator makes of one value.
fn applied_kind<'t>(operator: UnaryOperator) -> Option<SeenKind<'t>> {
    match operator {
        UnaryOperator::Negate | UnaryOperator::Length | UnaryOperator::Card => Some(
            SeenKind::Number,
        ),
        UnaryOperator::Not | UnaryOperator::IsNull => Some(SeenKind::Truth),
        UnaryOperator::Tail => Some(SeenKind::Sequence),
        UnaryOperator::Head => None,
    }
}

/// The kind of what an operator makes of two values.
fn combined_kind<'t>(operator: BinaryOperator) -> SeenKind<'t> {
    match operator {
        BinaryOperator::Add
        | BinaryOperator::Subtract
        | BinaryOperator::Multiply
        | BinaryOperator::Modulus => SeenKind::Number,
        BinaryOperator::Concatenate => SeenKind::Sequence,
        BinaryOperator::Union | BinaryOperator::Intersection | BinaryOperator::Difference =>
            SeenKind::Set,
        _ => SeenKind::Truth,
    }
}

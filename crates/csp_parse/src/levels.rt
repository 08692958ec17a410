//! How strongly operators between expressions bind.

ghost use Rattle.std.specs.Prelude.{◌≡◌, Some};
ghost use Rattle.std.specs.Option.{option_map};
ghost use Rattle.theory_syntax.specs.Operators.{unary_of, binary_of};
ghost use Rattle.csp_lex.specs.Tokens.{keyword_of};
ghost use Rattle.theory_reader.specs.Forms as reader;
ghost use Rattle.theory_reader.specs.Reader.{operator_at, comparison_of, unary_word, binary_word};
ghost use Rattle.csp_parse.specs.Levels.{level_of, seen_kind};

use csp_lex::{Keyword, Sign, TokenKind};
use theory_syntax::{BinaryOperator, UnaryOperator};

/// How strongly an expression holds together, the weakest first.
#[derive(Clone, Copy)]
pub(crate) enum Level {
    /// A chain of `or`.
    Disjunction,
    /// A chain of `and`.
    Conjunction,
    /// `not`
    Negation,
    /// One comparison at most.
    Comparison,
    /// A chain of `+`, `-` and `^`.
    Sum,
    /// A chain of `*` and `%`.
    Product,
    Atom,
}

impl Level {
    /// The level of the operands of this one's operators.
    pub(crate) fn stronger(self) -> Level
        ensures { level_of result ≡ reader.stronger (level_of self) }
    {
        match self {
            Level::Disjunction => Level::Conjunction,
            Level::Conjunction => Level::Negation,
            Level::Negation => Level::Comparison,
            Level::Comparison => Level::Sum,
            Level::Sum => Level::Product,
            Level::Product | Level::Atom => Level::Atom,
        }
    }

    /// The operator of this level's chains that a token is, if it is one.
    pub(crate) fn operator(self, kind: TokenKind) -> Option<BinaryOperator>
        ensures { option_map binary_of result ≡ operator_at (level_of self)
            (Some (seen_kind kind)) }
    {
        match (self, kind) {
            (Level::Disjunction, TokenKind::Keyword(Keyword::Or)) => Some(BinaryOperator::Or),
            (Level::Conjunction, TokenKind::Keyword(Keyword::And)) => Some(BinaryOperator::And),
            (Level::Sum, TokenKind::Sign(Sign::Plus)) => Some(BinaryOperator::Add),
            (Level::Sum, TokenKind::Sign(Sign::Minus)) => Some(BinaryOperator::Subtract),
            (Level::Sum, TokenKind::Sign(Sign::Caret)) => Some(BinaryOperator::Concatenate),
            (Level::Product, TokenKind::Sign(Sign::Times)) => Some(BinaryOperator::Multiply),
            (Level::Product, TokenKind::Sign(Sign::Percent)) => Some(BinaryOperator::Modulus),
            _ => None,
        }
    }
}

/// The comparison that a token is, if it is one.
pub(crate) fn comparison(kind: TokenKind) -> Option<BinaryOperator>
    ensures { option_map binary_of result ≡ comparison_of (Some (seen_kind kind)) }
{
    match kind {
        TokenKind::Sign(Sign::Same) => Some(BinaryOperator::Equals),
        TokenKind::Sign(Sign::Differs) => Some(BinaryOperator::Differs),
        TokenKind::Sign(Sign::Less) => Some(BinaryOperator::LessThan),
        TokenKind::Sign(Sign::AtMost) => Some(BinaryOperator::AtMost),
        TokenKind::Sign(Sign::Greater) => Some(BinaryOperator::GreaterThan),
        TokenKind::Sign(Sign::AtLeast) => Some(BinaryOperator::AtLeast),
        _ => None,
    }
}

/// The function of one argument that a keyword is, if it is one.
pub(crate) fn unary_function(keyword: Keyword) -> Option<UnaryOperator>
    ensures { option_map unary_of result ≡ unary_word (keyword_of keyword) }
{
    match keyword {
        Keyword::Head => Some(UnaryOperator::Head),
        Keyword::Tail => Some(UnaryOperator::Tail),
        Keyword::Null => Some(UnaryOperator::IsNull),
        Keyword::Card => Some(UnaryOperator::Card),
        _ => None,
    }
}

/// The function of two arguments that a keyword is, if it is one.
pub(crate) fn binary_function(keyword: Keyword) -> Option<BinaryOperator>
    ensures { option_map binary_of result ≡ binary_word (keyword_of keyword) }
{
    match keyword {
        Keyword::Elem => Some(BinaryOperator::IsElement),
        Keyword::Member => Some(BinaryOperator::IsMember),
        Keyword::Union => Some(BinaryOperator::Union),
        Keyword::Inter => Some(BinaryOperator::Intersection),
        Keyword::Diff => Some(BinaryOperator::Difference),
        _ => None,
    }
}

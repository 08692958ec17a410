//! Signs.

ghost use Rattle.std.specs.Prelude.{◌≡◌};

use std::fmt;

/// A sign.
#[derive(Clone, Copy, PartialEq, Eq)]
pub enum Sign {
    /// `->`
    Arrow,
    /// `<-`
    BackArrow,
    /// `[]`
    Box,
    /// `|~|`
    Internal,
    /// `|||`
    TripleBar,
    /// `||`
    DoubleBar,
    /// `[|`
    OpenShared,
    /// `|]`
    CloseShared,
    /// `[[`
    OpenRenaming,
    /// `]]`
    CloseRenaming,
    /// `{|`
    OpenProductions,
    /// `|}`
    CloseProductions,
    /// `[T=`
    Traces,
    /// `[F=`
    Failures,
    /// `/\`
    Interrupt,
    /// `[>`
    Sliding,
    /// `\`
    Hiding,
    /// `;`
    Semicolon,
    /// `&`
    Guard,
    /// `@`
    At,
    /// `==`
    Same,
    /// `!=`
    Differs,
    /// `<=`
    AtMost,
    /// `>=`
    AtLeast,
    /// `<`
    Less,
    /// `>`
    Greater,
    /// `+`
    Plus,
    /// `-`
    Minus,
    /// `*`
    Times,
    /// `%`
    Percent,
    /// `^`
    Caret,
    /// `#`
    Hash,
    /// `!`
    Output,
    /// `?`
    Input,
    /// `..`
    Range,
    /// `.`
    Dot,
    /// `:`
    Colon,
    /// `,`
    Comma,
    /// `=`
    Equals,
    /// `|`
    Bar,
    /// `(`
    OpenRound,
    /// `)`
    CloseRound,
    /// `[`
    OpenSquare,
    /// `]`
    CloseSquare,
    /// `{`
    OpenBrace,
    /// `}`
    CloseBrace,
}

impl Sign {
    ghost use Rattle.theory_text.specs.Token.{sign_spelling};
    ghost use Rattle.csp_lex.specs.Tokens.{sign_of};

    /// How the sign is written.
    pub fn spelling(self) -> &'static str
        ensures { result.now ≡ sign_spelling (sign_of self) }
    {
        match self {
            Sign::Arrow => "->",
            Sign::BackArrow => "<-",
            Sign::Box => "[]",
            Sign::Internal => "|~|",
            Sign::TripleBar => "|||",
            Sign::DoubleBar => "||",
            Sign::OpenShared => "[|",
            Sign::CloseShared => "|]",
            Sign::OpenRenaming => "[[",
            Sign::CloseRenaming => "]]",
            Sign::OpenProductions => "{|",
            Sign::CloseProductions => "|}",
            Sign::Traces => "[T=",
            Sign::Failures => "[F=",
            Sign::Interrupt => "/\\",
            Sign::Sliding => "[>",
            Sign::Hiding => "\\",
            Sign::Semicolon => ";",
            Sign::Guard => "&",
            Sign::At => "@",
            Sign::Same => "==",
            Sign::Differs => "!=",
            Sign::AtMost => "<=",
            Sign::AtLeast => ">=",
            Sign::Less => "<",
            Sign::Greater => ">",
            Sign::Plus => "+",
            Sign::Minus => "-",
            Sign::Times => "*",
            Sign::Percent => "%",
            Sign::Caret => "^",
            Sign::Hash => "#",
            Sign::Output => "!",
            Sign::Input => "?",
            Sign::Range => "..",
            Sign::Dot => ".",
            Sign::Colon => ":",
            Sign::Comma => ",",
            Sign::Equals => "=",
            Sign::Bar => "|",
            Sign::OpenRound => "(",
            Sign::CloseRound => ")",
            Sign::OpenSquare => "[",
            Sign::CloseSquare => "]",
            Sign::OpenBrace => "{",
            Sign::CloseBrace => "}",
        }
    }
}

impl fmt::Display for Sign {
    ghost use Rattle.std.specs.Prelude.{Some};
    ghost use Rattle.theory_text.specs.Token.{sign_spelling};
    ghost use Rattle.csp_lex.specs.Tokens.{sign_of};

    ghost output = { λ sign. Some (sign_spelling (sign_of sign)) };

    fn fmt<W: fmt::Write>(&self, f: &mut fmt::Formatter<W>) -> fmt::Result {
        f.write_str(self.spelling())
    }
}

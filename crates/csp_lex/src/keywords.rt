//! Keywords.

ghost use Rattle.std.specs.Prelude.{◌≡◌, IfSome, IfNone, IsFalse};
ghost use Rattle.std.specs.Str.{chars};

use std::fmt;

/// A word that is no name.
#[derive(Clone, Copy, PartialEq, Eq)]
pub enum Keyword {
    Datatype,
    Nametype,
    Channel,
    Assert,
    If,
    Then,
    Else,
    And,
    Or,
    Not,
    True,
    False,
    Bool,
    Stop,
    Skip,
    Head,
    Tail,
    Null,
    Elem,
    Member,
    Union,
    Inter,
    Diff,
    Card,
}

impl Keyword {
    ghost use Rattle.theory_text.specs.Token.{keyword_spelling, is_keyword};
    ghost use Rattle.csp_lex.specs.Tokens.{keyword_of};

    /// All keywords.
    pub const ALL: [Keyword; 24] = [
        Keyword::Datatype,
        Keyword::Nametype,
        Keyword::Channel,
        Keyword::Assert,
        Keyword::If,
        Keyword::Then,
        Keyword::Else,
        Keyword::And,
        Keyword::Or,
        Keyword::Not,
        Keyword::True,
        Keyword::False,
        Keyword::Bool,
        Keyword::Stop,
        Keyword::Skip,
        Keyword::Head,
        Keyword::Tail,
        Keyword::Null,
        Keyword::Elem,
        Keyword::Member,
        Keyword::Union,
        Keyword::Inter,
        Keyword::Diff,
        Keyword::Card,
    ];

    /// How the keyword is written.
    pub fn spelling(self) -> &'static str
        ensures { result.now ≡ keyword_spelling (keyword_of self) }
    {
        match self {
            Keyword::Datatype => "datatype",
            Keyword::Nametype => "nametype",
            Keyword::Channel => "channel",
            Keyword::Assert => "assert",
            Keyword::If => "if",
            Keyword::Then => "then",
            Keyword::Else => "else",
            Keyword::And => "and",
            Keyword::Or => "or",
            Keyword::Not => "not",
            Keyword::True => "true",
            Keyword::False => "false",
            Keyword::Bool => "Bool",
            Keyword::Stop => "STOP",
            Keyword::Skip => "SKIP",
            Keyword::Head => "head",
            Keyword::Tail => "tail",
            Keyword::Null => "null",
            Keyword::Elem => "elem",
            Keyword::Member => "member",
            Keyword::Union => "union",
            Keyword::Inter => "inter",
            Keyword::Diff => "diff",
            Keyword::Card => "card",
        }
    }

    /// The keyword that is written so, if there is one.
    pub fn from_spelling(text: &str) -> Option<Keyword>
        ensures found { IfSome result (λ keyword. chars text.now
            ≡ keyword_spelling (keyword_of keyword)) }
        ensures none { IfNone result (IsFalse (is_keyword (chars text.now))) }
    {
        for keyword in Keyword::ALL {
            if keyword.spelling() == text {
                return Some(keyword);
            }
        }
        None
    }
}

impl fmt::Display for Keyword {
    ghost use Rattle.std.specs.Prelude.{Some};
    ghost use Rattle.theory_text.specs.Token.{keyword_spelling};
    ghost use Rattle.csp_lex.specs.Tokens.{keyword_of};

    ghost output = { λ keyword. Some (keyword_spelling (keyword_of keyword)) };

    fn fmt<W: fmt::Write>(&self, f: &mut fmt::Formatter<W>) -> fmt::Result {
        f.write_str(self.spelling())
    }
}

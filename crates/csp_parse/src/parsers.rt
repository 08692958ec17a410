//! A reader of tokens: the next one is looked at, and passed.

ghost use Rattle.std.specs.Prelude.{◌≡◌, ◌≤◌, ℕ, List};
ghost use Rattle.std.specs.Str.{chars};
ghost use Rattle.theory_text.specs.Height.{nest_height, greatest_height, token_fault};
ghost use Rattle.theory_text.specs.Token.{SignToken};
ghost use Rattle.csp_lex.specs.Places.{place_of};
ghost use Rattle.csp_lex.specs.Tokens.{sign_of, token_of};
ghost use Rattle.csp_parse.specs.Refusals.{fault_of, IsRefusalAt};
ghost use Rattle.csp_parse.specs.Nests.{nest_of};

use crate::names::Name;
use crate::nests::{GREATEST_HEIGHT, Nest, nesting_of};
use crate::refusals::{GrammarFault, Refused};
use crate::stops::Stopped;
use csp_lex::{Keyword, Place, Sign, Token, TokenKind, TokenList};
use std::alloc::Allocator;

/// A reader of tokens. The next token is never too high: that is looked at when the one before it is passed.
#[derive(Drop)]
pub(crate) struct Parser<'t, 'a, A: Allocator> {
    pub(crate) alloc: A,
    tokens: &'t [Token<'a>],
    /// The number of tokens that are passed.
    position: usize,
    /// Where the token behind the next one stands in the next one's declaration.
    nest: Nest<A>,
    ghost low: { nest_height (nest_of nest) ≤ greatest_height },
}

impl<'t, 'a, A: Allocator + Copy> Parser<'t, 'a, A> {
    ghost use Rattle.std.specs.Prelude.{◌<◌, None, IfOk, IfErr, length, map};
    ghost use Rattle.std.specs.Option.{option_map};
    ghost use Rattle.csp_lex.specs.Tokens.{keyword_of, placed_token};
    ghost use Rattle.theory_reader.specs.Forms.{OfSign, OfWord, OfName, NameBehind, OfSpelling};
    ghost use Rattle.theory_reader.specs.Programs.{first, start, count, passed};
    ghost use Rattle.theory_reader.specs.Reader.{is_sign, is_word, is_name, is_spelled};
    ghost use Rattle.csp_parse.specs.Levels.{seen_kind};
    ghost use Rattle.csp_parse.specs.Names.{name_of};
    ghost use Rattle.csp_parse.specs.Reading.{left_of, standing_of, next_of, Gives, Reads, Shortens};

    /// A reader at the first of the tokens.
    pub(crate) fn new<B: Allocator>(alloc: A, list: &'t TokenList<'a, B>) -> Parser<'t, 'a, A>
        ensures { left_of result ≡ map placed_token list.now.tokens.items }
    {
        Parser {
            alloc,
            tokens: &list.tokens,
            position: 0,
            nest: Nest::new(alloc),
        }
    }

    /// The next token.
    pub(crate) fn next(&self) -> Option<Token<'a>>
        ensures { option_map placed_token result ≡ first (left_of self.now) }
    {
        match self.tokens.get(self.position) {
            Some(token) => Some(*token),
            None => None,
        }
    }

    /// What the next token is.
    pub(crate) fn kind(&self) -> Option<TokenKind>
        ensures { option_map seen_kind result ≡ next_of self.now }
    {
        let token = self.next()?;
        Some(token.kind)
    }

    /// Whether the next token is this sign.
    pub(crate) fn is_at(&self, sign: Sign) -> bool
        ensures { result ≡ is_sign (sign_of sign) (next_of self.now) }
    {
        let Some(kind) = self.kind() else {
            return false;
        };
        let TokenKind::Sign(next) = kind else {
            return false;
        };
        next == sign
    }

    /// Whether the next token is this keyword.
    pub(crate) fn is_at_word(&self, keyword: Keyword) -> bool
        ensures { result ≡ is_word (keyword_of keyword) (next_of self.now) }
    {
        let Some(kind) = self.kind() else {
            return false;
        };
        let TokenKind::Keyword(next) = kind else {
            return false;
        };
        next == keyword
    }

    /// Whether the next token is a name.
    pub(crate) fn is_at_name(&self) -> bool
        ensures { result ≡ is_name (next_of self.now) }
    {
        let Some(kind) = self.kind() else {
            return false;
        };
        matches!(kind, TokenKind::Name)
    }

    /// Whether the next token is the name that is spelled so.
    pub(crate) fn is_at_spelling(&self, spelling: &str) -> bool
        ensures { result ≡ is_spelled (chars spelling.now) (first (left_of self.now)) }
    {
        let Some(token) = self.next() else {
            return false;
        };
        let TokenKind::Name = token.kind else {
            return false;
        };
        token.text.as_bytes() == spelling.as_bytes()
    }

    /// The refusal where a reader stopped, of a text with this place behind it.
    pub(crate) fn refusal(&self, stopped: Stopped, end: Place) -> Refused
        ensures { IsRefusalAt (place_of end) (left_of self.now) stopped result }
    {
        match (stopped, self.next()) {
            (Stopped::Memory, _) => Refused::Memory,
            (Stopped::Here, Some(token)) => Refused::Grammar {
                fault: fault_at(token.kind),
                place: token.place,
            },
            (Stopped::High, Some(token)) => Refused::Grammar {
                fault: GrammarFault::Nested,
                place: token.place,
            },
            (_, None) => Refused::Grammar {
                fault: GrammarFault::UnexpectedEnd,
                place: end,
            },
        }
    }

    /// Takes the next token as the first one of a declaration.
    pub(crate) fn begin_declaration(&mut self) -> Result<(), Stopped>
        ensures reads { Gives (count start (left_of self.old)) (λ _. tt) result self.new }
        ensures same { left_of self.new ≡ left_of self.old }
    {
        self.nest.begin();
        self.count_next()
    }

    /// Counts the next token in its declaration, and refuses it where it is too high.
    fn count_next(&mut self) -> Result<(), Stopped>
        ensures reads { Gives (count (nest_of self.old.nest) (left_of self.old)) (λ _. tt) result
            self.new }
        ensures same { left_of self.new ≡ left_of self.old }
    {
        let Some(token) = self.next() else {
            return Ok(());
        };
        self.nest.count(nesting_of(token.kind))?;
        if self.nest.height() > GREATEST_HEIGHT {
            self.nest.begin();
            return Err(Stopped::High);
        }
        Ok(())
    }

    /// Passes the next token, and refuses the end.
    pub(crate) fn pass(&mut self) -> Result<(), Stopped>
        ensures reads { Gives (passed (standing_of self.old)) (λ _. tt) result self.new }
        ensures shorter { Shortens self.old result self.new }
    {
        if self.position >= self.tokens.len() {
            return Err(Stopped::Here);
        }
        self.position += 1;
        self.count_next()
    }

    /// Passes this sign, which is to be next.
    pub(crate) fn sign(&mut self, sign: Sign) -> Result<(), Stopped>
        ensures reads { Reads (OfSign (sign_of sign)) (λ _. tt) self.old result self.new }
        ensures shorter { Shortens self.old result self.new }
    {
        if !self.is_at(sign) {
            return Err(Stopped::Here);
        }
        self.pass()
    }

    /// Passes this keyword, which is to be next.
    pub(crate) fn word(&mut self, keyword: Keyword) -> Result<(), Stopped>
        ensures reads { Reads (OfWord (keyword_of keyword)) (λ _. tt) self.old result self.new }
        ensures shorter { Shortens self.old result self.new }
    {
        if !self.is_at_word(keyword) {
            return Err(Stopped::Here);
        }
        self.pass()
    }

    /// Passes a name, which is to be next.
    pub(crate) fn name(&mut self) -> Result<Name<'a>, Stopped>
        ensures reads { Reads OfName name_of self.old result self.new }
        ensures shorter { Shortens self.old result self.new }
    {
        let Some(token) = self.next() else {
            return Err(Stopped::Here);
        };
        let TokenKind::Name = token.kind else {
            return Err(Stopped::Here);
        };
        self.pass()?;
        Ok(Name {
            text: token.text,
            place: token.place,
        })
    }

    /// Passes the name that is spelled so, which is to be next.
    pub(crate) fn spelling(&mut self, spelling: &str) -> Result<(), Stopped>
        ensures reads { Reads (OfSpelling (chars spelling.now)) (λ _. tt) self.old result self.new }
        ensures shorter { Shortens self.old result self.new }
    {
        if !self.is_at_spelling(spelling) {
            return Err(Stopped::Here);
        }
        self.pass()
    }

    /// This sign, and a name behind it.
    pub(crate) fn name_behind(&mut self, sign: Sign) -> Result<Name<'a>, Stopped>
        ensures reads { Reads (NameBehind (sign_of sign)) name_of self.old result self.new }
        ensures shorter { Shortens self.old result self.new }
    {
        self.sign(sign)?;
        self.name()
    }
}

/// The fault of an unexpected token.
fn fault_at(kind: TokenKind) -> GrammarFault
    ensures { (characters : List ℕ) → fault_of result ≡ token_fault (token_of kind characters) }
{
    match kind {
        TokenKind::Sign(sign) => fault_at_sign(sign),
        _ => GrammarFault::UnexpectedToken,
    }
}

/// The fault of an unexpected sign.
fn fault_at_sign(sign: Sign) -> GrammarFault
    ensures { fault_of result ≡ token_fault (SignToken (sign_of sign)) }
{
    match sign {
        Sign::Box
        | Sign::Internal
        | Sign::Semicolon
        | Sign::TripleBar
        | Sign::Interrupt
        | Sign::Sliding
        | Sign::OpenSquare
        | Sign::OpenShared
        | Sign::OpenRenaming
        | Sign::Hiding => GrammarFault::MixedOperators,
        _ => GrammarFault::UnexpectedToken,
    }
}

//! The heights of declarations, counted token by token.

ghost use Rattle.std.specs.Prelude.{◌≡◌, ◌≤◌, ◌<◌, ◌+◌, ℕ, List, IfOk, IfErr};
ghost use Rattle.theory_text.specs.Height.{nesting, nest_height, group_height, no_tokens_yet, after_token, closed, closed_double, greatest_height};
ghost use Rattle.theory_text.specs.Height as height;
ghost use Rattle.theory_text.specs.Token.{SignToken, KeywordToken};
ghost use Rattle.csp_lex.specs.Tokens.{keyword_of, sign_of, token_of};
ghost use Rattle.theory_reader.specs.Programs.{start};
ghost use Rattle.csp_parse.specs.Nests.{nesting_is, group_of, nest_of, opened};

use csp_lex::{Keyword, Sign, TokenKind};
use std::alloc::{AllocFailed, Allocator};

/// The greatest height that a declaration may have.
pub const GREATEST_HEIGHT: u32 = 100;

/// What a token does for the height of its declaration.
#[derive(Clone, Copy)]
pub(crate) enum Nesting {
    /// It opens a bracket group.
    Opens,
    /// It is `[`, which opens one.
    OpensSquare,
    /// It closes a bracket group.
    Closes,
    /// It is `]]`, which closes one, and where `[` opened that the one around it too.
    ClosesDouble,
    /// It counts one in its group.
    Counts,
    Plain,
}

fn nesting_of_sign(sign: Sign) -> Nesting
    ensures { nesting_is result ≡ nesting (SignToken (sign_of sign)) }
{
    match sign {
        Sign::OpenRound
        | Sign::OpenShared
        | Sign::OpenRenaming
        | Sign::OpenBrace
        | Sign::OpenProductions => Nesting::Opens,
        Sign::OpenSquare => Nesting::OpensSquare,
        Sign::CloseRound
        | Sign::CloseSquare
        | Sign::CloseShared
        | Sign::CloseBrace
        | Sign::CloseProductions => Nesting::Closes,
        Sign::CloseRenaming => Nesting::ClosesDouble,
        Sign::Arrow
        | Sign::Guard
        | Sign::At
        | Sign::Box
        | Sign::Internal
        | Sign::Semicolon
        | Sign::TripleBar
        | Sign::Interrupt
        | Sign::Sliding
        | Sign::Hiding
        | Sign::Same
        | Sign::Differs
        | Sign::Less
        | Sign::AtMost
        | Sign::Greater
        | Sign::AtLeast
        | Sign::Plus
        | Sign::Minus
        | Sign::Times
        | Sign::Percent
        | Sign::Caret
        | Sign::Hash => Nesting::Counts,
        _ => Nesting::Plain,
    }
}

fn nesting_of_keyword(keyword: Keyword) -> Nesting
    ensures { nesting_is result ≡ nesting (KeywordToken (keyword_of keyword)) }
{
    match keyword {
        Keyword::If | Keyword::Then | Keyword::Else | Keyword::And | Keyword::Or | Keyword::Not =>
            Nesting::Counts,
        _ => Nesting::Plain,
    }
}

pub(crate) fn nesting_of(kind: TokenKind) -> Nesting
    ensures { (characters : List ℕ) → nesting_is result ≡ nesting (token_of kind characters) }
{
    match kind {
        TokenKind::Sign(sign) => nesting_of_sign(sign),
        TokenKind::Keyword(keyword) => nesting_of_keyword(keyword),
        _ => Nesting::Plain,
    }
}

/// A bracket group so far.
#[derive(Clone, Copy)]
pub(crate) struct Group {
    /// Whether `[` opened it.
    square: bool,
    /// The tokens that count directly in it.
    direct: u32,
    /// The greatest height of a group in it.
    deepest: u32,
}

impl Group {
    fn empty(square: bool) -> Group
        ensures { group_of result ≡ no_tokens_yet square }
    {
        Group {
            square,
            direct: 0,
            deepest: 0,
        }
    }

    /// The height of the group, if a `u32` holds it.
    fn height(self) -> u32
        ensures { group_height (group_of self) < 4294967296
            → result ≡ group_height (group_of self) }
    {
        self.direct.saturating_add(self.deepest)
    }

    fn one_more(self) -> Group
        ensures { group_height (group_of self) ≤ greatest_height
            → group_of result ≡ height.one_more (group_of self) }
    {
        Group {
            square: self.square,
            direct: self.direct.saturating_add(1),
            deepest: self.deepest,
        }
    }

    /// This group with another in it.
    fn with_group(self, inner: Group) -> Group
        ensures { group_height (group_of inner) < 4294967296
            → group_of result ≡ height.with_group (group_of self) (group_of inner) }
    {
        Group {
            square: self.square,
            direct: self.direct,
            deepest: self.deepest.max(inner.height()),
        }
    }
}

/// Where the next token stands among the bracket groups of its declaration.
#[derive(Drop)]
pub(crate) struct Nest<A: Allocator> {
    current: Group,
    /// The groups around it, the outermost first.
    around: Vec<Group, A>,
}

impl<A: Allocator> Nest<A> {
    /// Before the first token of a declaration.
    pub(crate) fn new(alloc: A) -> Nest<A>
        ensures { nest_of result ≡ start }
    {
        Nest {
            current: Group::empty(false),
            around: Vec::new(alloc),
        }
    }

    /// Goes back to before the first token of a declaration.
    pub(crate) fn begin(&mut self)
        ensures { nest_of self.new ≡ start }
    {
        self.current = Group::empty(false);
        self.around.clear();
    }

    /// Counts one more token.
    pub(crate) fn count(&mut self, nesting: Nesting) -> Result<(), AllocFailed<Group>>
        ensures counts { IfOk result (λ _. nest_height (nest_of self.old) ≤ greatest_height
            → nest_of self.new ≡ after_token (nesting_is nesting) (nest_of self.old)) }
        ensures stays { IfErr result (λ _. nest_of self.new ≡ nest_of self.old) }
    {
        match nesting {
            Nesting::Opens => self.open(false)?,
            Nesting::OpensSquare => self.open(true)?,
            Nesting::Closes => self.close(),
            Nesting::ClosesDouble => self.close_double(),
            Nesting::Counts => self.current = self.current.one_more(),
            Nesting::Plain => {}
        }
        Ok(())
    }

    /// Opens a group, and counts its bracket in the one around it.
    fn open(&mut self, square: bool) -> Result<(), AllocFailed<Group>>
        ensures opens { IfOk result (λ _. nest_height (nest_of self.old) ≤ greatest_height
            → nest_of self.new ≡ opened square (nest_of self.old)) }
        ensures stays { IfErr result (λ _. nest_of self.new ≡ nest_of self.old) }
    {
        self.around.push(self.current.one_more())?;
        self.current = Group::empty(square);
        Ok(())
    }

    /// Closes the innermost group, where one is open.
    fn close(&mut self)
        ensures { nest_height (nest_of self.old) ≤ greatest_height
            → nest_of self.new ≡ closed (nest_of self.old).current (nest_of self.old).around }
    {
        if let Some(around) = self.around.pop() {
            self.current = around.with_group(self.current);
        }
    }

    /// Closes the innermost group, and where `[` opened it the one around it too.
    fn close_double(&mut self)
        ensures { nest_height (nest_of self.old) ≤ greatest_height
            → nest_of self.new ≡ closed_double (nest_of self.old) }
    {
        let square = self.current.square;
        self.close();
        if square {
            self.close();
        }
    }

    /// The height of the tokens so far.
    pub(crate) fn height(&self) -> u32
        ensures { nest_height (nest_of self.now) < 4294967296
            → result ≡ nest_height (nest_of self.now) }
    {
        let mut group = self.current;
        for around in self.around.iter().rev() {
            group = around.with_group(group);
        }
        group.height()
    }
}

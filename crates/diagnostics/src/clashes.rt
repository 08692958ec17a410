//! Parts of a declaration that are seen to be of another kind than their place asks for.

use crate::open_events::{OpenEvent, field_kind};
use crate::seen_kinds::{SeenKind, kind_from, kind_to};
use csp_lex::{Keyword, Place, Sign, Token, TokenKind};
use csp_parse::Raw;
use std::alloc::{AllocError, Allocator};

/// A value that is seen to be of another kind than its place asks for.
#[derive(Clone, Copy)]
pub(crate) struct Clash<'t> {
    /// What asks for a kind.
    pub(crate) asking: Asking<'t>,
    /// The kind that is asked for.
    pub(crate) wanted: SeenKind<'t>,
    /// The place of the value.
    pub(crate) place: Place,
    /// The kind of the value.
    pub(crate) given: SeenKind<'t>,
}

/// What asks for a kind.
#[derive(Clone, Copy)]
pub(crate) enum Asking<'t> {
    /// A field of a channel, by its number from 1.
    Field { channel: &'t str, number: usize },
    /// An operand of the operator that is written so.
    Operand(&'t str),
    /// The left side of the comparison that is written so.
    LeftSide(&'t str),
    /// The condition of an `if`, or a guard.
    Condition,
    /// The first member of a set.
    FirstMember,
}

/// The tokens around one of a declaration.
#[derive(Drop)]
struct Spot<'r, 't, A: Allocator> {
    raw: &'r Raw<'t, A>,
    event: Option<OpenEvent<'t>>,
    earlier: Option<Token<'t>>,
    before: Option<Token<'t>>,
    here: Token<'t>,
    behind: Option<Token<'t>>,
    further: Option<Token<'t>>,
}

/// The first clash of kinds that is seen in the tokens of a declaration.
pub(crate) fn first_clash<'t, A: Allocator>(
    raw: &Raw<'t, A>,
    declaration: &[Token<'t>],
) -> Option<Clash<'t>> {
    let mut event = None;
    for (index, here) in declaration.iter().enumerate() {
        event = OpenEvent::behind(raw, event, *here);
        let spot = Spot {
            raw,
            event,
            earlier: token_back(declaration, index, 2),
            before: token_back(declaration, index, 1),
            here: *here,
            behind: declaration.get(index + 1).copied(),
            further: declaration.get(index + 2).copied(),
        };
        if let Some(clash) = spot.first_seen() {
            return Some(clash);
        }
    }
    None
}

/// The token so many before the one at the index.
fn token_back<'t>(tokens: &[Token<'t>], index: usize, count: usize) -> Option<Token<'t>> {
    let at = index.checked_sub(count)?;
    tokens.get(at).copied()
}

impl<'r, 't, A: Allocator> Spot<'r, 't, A> {
    /// The clash at this token.
    fn first_seen(&self) -> Option<Clash<'t>> {
        match self.here.kind {
            TokenKind::Keyword(Keyword::If) => self.condition_clash(self.behind, self.further),
            TokenKind::Sign(Sign::Guard) => self.guard_clash(),
            TokenKind::Sign(Sign::Output | Sign::Dot) => self.field_clash(),
            TokenKind::Sign(Sign::Comma) => self.member_clash(),
            TokenKind::Sign(Sign::Same | Sign::Differs) => self.side_clash(),
            TokenKind::Sign(
                Sign::Plus
                | Sign::Minus
                | Sign::Times
                | Sign::Percent
                | Sign::AtMost
                | Sign::AtLeast,
            ) => self.operand_clash(SeenKind::Number),
            TokenKind::Sign(Sign::Caret | Sign::Hash) => self.operand_clash(SeenKind::Sequence),
            _ => None,
        }
    }

    /// A field of a channel that is given a value of another kind.
    fn field_clash(&self) -> Option<Clash<'t>> {
        let event = self.event?;
        if event.depth > 0 {
            return None;
        }
        let wanted = field_kind(self.raw, event.channel, event.number)?;
        let asking = Asking::Field {
            channel: event.channel,
            number: event.number,
        };
        let value = self.behind?;
        clash_of(asking, wanted, value, kind_from(self.raw, value))
    }

    /// An operand of an operator that takes values of one kind.
    fn operand_clash(&self, wanted: SeenKind<'t>) -> Option<Clash<'t>> {
        let asking = Asking::Operand(self.here.text);
        if let Some(left) = self.before
            && let Some(found) = clash_of(asking, wanted, left, kind_to(self.raw, left))
        {
            return Some(found);
        }
        let right = self.behind?;
        clash_of(asking, wanted, right, kind_from(self.raw, right))
    }

    /// The right side of a comparison of two values of other kinds.
    fn side_clash(&self) -> Option<Clash<'t>> {
        let wanted = kind_to(self.raw, self.before?)?;
        let right = self.behind?;
        let asking = Asking::LeftSide(self.here.text);
        clash_of(asking, wanted, right, kind_from(self.raw, right))
    }

    /// A guard of one token that is no truth value.
    fn guard_clash(&self) -> Option<Clash<'t>> {
        if !begins_operand(self.earlier?.kind) {
            return None;
        }
        let guard = self.before?;
        clash_of(
            Asking::Condition,
            SeenKind::Truth,
            guard,
            kind_to(self.raw, guard),
        )
    }

    /// The condition of an `if` that is one token and no truth value.
    fn condition_clash(
        &self,
        condition: Option<Token<'t>>,
        then: Option<Token<'t>>,
    ) -> Option<Clash<'t>> {
        if then?.kind != TokenKind::Keyword(Keyword::Then) {
            return None;
        }
        let value = condition?;
        clash_of(
            Asking::Condition,
            SeenKind::Truth,
            value,
            kind_to(self.raw, value),
        )
    }

    /// The second of the members of a set, where both are one token.
    fn member_clash(&self) -> Option<Clash<'t>> {
        if !ends_member(self.further?.kind)
            || self.earlier?.kind != TokenKind::Sign(Sign::OpenBrace)
        {
            return None;
        }
        let wanted = kind_to(self.raw, self.before?)?;
        let member = self.behind?;
        clash_of(
            Asking::FirstMember,
            wanted,
            member,
            kind_to(self.raw, member),
        )
    }
}

/// Whether an operand of a process begins behind this.
fn begins_operand(kind: TokenKind) -> bool {
    match kind {
        TokenKind::Keyword(Keyword::Then | Keyword::Else)
        | TokenKind::Sign(
            Sign::Equals
            | Sign::Arrow
            | Sign::At
            | Sign::Guard
            | Sign::Box
            | Sign::Internal
            | Sign::TripleBar
            | Sign::Semicolon
            | Sign::Interrupt
            | Sign::Sliding,
        ) => true,
        _ => false,
    }
}

/// Whether a member of a set ends before this.
fn ends_member(kind: TokenKind) -> bool {
    match kind {
        TokenKind::Sign(Sign::Comma | Sign::CloseBrace) => true,
        _ => false,
    }
}

/// The clash at a value of this kind, if it is seen to be another than is asked for.
fn clash_of<'t>(
    asking: Asking<'t>,
    wanted: SeenKind<'t>,
    value: Token<'t>,
    kind: Option<SeenKind<'t>>,
) -> Option<Clash<'t>> {
    match kind {
        Some(given) if wanted.differs(given) => Some(Clash {
            asking,
            wanted,
            place: value.place,
            given,
        }),
        _ => None,
    }
}

/// A line on the clash, if there is one.
pub(crate) fn clash_note<A: Allocator + Copy>(
    alloc: A,
    found: Clash<'_>,
) -> Result<String<A>, AllocError> {
    let asking = asking_words(alloc, found.asking)?;
    let wanted = found.wanted.words(alloc)?;
    let given = found.given.words(alloc)?;
    let place = found.place;
    format!(in alloc; "note: {asking} is {wanted}, and at {place} stands {given}\n")
}

fn asking_words<A: Allocator>(alloc: A, asking: Asking<'_>) -> Result<String<A>, AllocError> {
    match asking {
        Asking::Field { channel, number } => format!(in alloc;
            "field {number} of the channel `{channel}`"
        ),
        Asking::Operand(operator) => format!(in alloc; "an operand of `{operator}`"),
        Asking::LeftSide(operator) => format!(in alloc; "the left side of `{operator}`"),
        Asking::Condition => String::from_str(alloc, "a condition"),
        Asking::FirstMember => String::from_str(alloc, "the first member of the set"),
    }
}

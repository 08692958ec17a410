//! Events of which some fields stand before a token.

use crate::seen_kinds::{SeenKind, member_kind};
use csp_lex::{Sign, Token, TokenKind};
use csp_parse::{Declaration, Name, Raw};
use std::alloc::Allocator;

/// An event of which some fields stand before a token.
#[derive(Clone, Copy)]
pub(crate) struct OpenEvent<'t> {
    /// Its channel.
    pub(crate) channel: &'t str,
    /// How many of its fields have begun.
    pub(crate) number: usize,
    /// How many brackets within it are open.
    pub(crate) depth: usize,
}

impl<'t> OpenEvent<'t> {
    /// The event that is open behind one more token.
    pub(crate) fn behind<A: Allocator>(
        raw: &Raw<'t, A>,
        event: Option<OpenEvent<'t>>,
        token: Token<'t>,
    ) -> Option<OpenEvent<'t>> {
        match token.kind {
            TokenKind::Name if is_channel(raw, token.text) => Some(OpenEvent {
                channel: token.text,
                number: 0,
                depth: 0,
            }),
            TokenKind::Sign(sign) => event?.behind_sign(sign),
            _ => event,
        }
    }

    /// The event that is open behind one more sign.
    fn behind_sign(self, sign: Sign) -> Option<OpenEvent<'t>> {
        match sign {
            Sign::OpenRound | Sign::OpenBrace => Some(OpenEvent {
                depth: self.depth.saturating_add(1),
                ..self
            }),
            Sign::CloseRound | Sign::CloseBrace => Some(OpenEvent {
                depth: self.depth.checked_sub(1)?,
                ..self
            }),
            Sign::Dot | Sign::Output | Sign::Input if self.depth == 0 => Some(OpenEvent {
                number: self.number.saturating_add(1),
                ..self
            }),
            Sign::Arrow | Sign::BackArrow | Sign::CloseProductions | Sign::CloseRenaming => None,
            Sign::Comma if self.depth == 0 => None,
            _ => Some(self),
        }
    }
}

/// Whether a channel has this name.
fn is_channel<A: Allocator>(raw: &Raw<'_, A>, name: &str) -> bool {
    raw.declarations
        .iter()
        .any(|declaration| declares_channel(declaration, name))
}

/// Whether this declares a channel of this name.
fn declares_channel<A: Allocator>(declaration: &Declaration<'_, A>, name: &str) -> bool {
    match declaration {
        Declaration::Channels { names, .. } => has_name(names, name),
        _ => false,
    }
}

/// Whether one of the names is spelled so.
fn has_name(names: &[Name<'_>], spelling: &str) -> bool {
    names.iter().any(|name| name.text == spelling)
}

/// The kind of a field of the channel, by its number from 1, as far as its set shows it.
pub(crate) fn field_kind<'t, A: Allocator>(
    raw: &Raw<'t, A>,
    channel: &str,
    number: usize,
) -> Option<SeenKind<'t>> {
    let at = number.checked_sub(1)?;
    for declaration in &raw.declarations {
        if let Declaration::Channels { names, domains } = declaration
            && has_name(names, channel)
        {
            return member_kind(raw, &domains.get(at)?.set);
        }
    }
    None
}

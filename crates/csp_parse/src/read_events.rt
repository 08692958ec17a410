//! Reading events, sets of events and renamings.

ghost use Rattle.std.specs.Prelude.{◌≡◌, IfOk, IfErr};
ghost use Rattle.std.specs.Option.{option_map};
ghost use Rattle.csp_lex.specs.Tokens.{keyword_of};
ghost use Rattle.theory_reader.specs.Reader.{set_word};
ghost use Rattle.csp_parse.specs.declared.stops.Stopped.TheVariants.{Memory};
ghost use Rattle.csp_parse.specs.EventSets.{event_set_of, operator_of};

use crate::event_sets::EventSet;
use crate::events::{Event, Pair};
use crate::parsers::Parser;
use crate::stops::Stopped;
use csp_lex::{Keyword, Sign, TokenKind};
use std::alloc::Allocator;
use theory_syntax::EventSetOperator;

impl<'t, 'a, A: Allocator + Copy> Parser<'t, 'a, A> {
    ghost use Rattle.std.specs.Prelude.{map};
    ghost use Rattle.csp_lex.specs.Tokens.{sign_of};
    ghost use Rattle.theory_reader.specs.Forms as form;
    ghost use Rattle.csp_parse.specs.Events.{event_of, pair_of};
    ghost use Rattle.csp_parse.specs.Reading.{Reads, Shortens};

    fn event(&mut self) -> Result<Event<'a, A>, Stopped>
        ensures reads { Reads form.OfEvent event_of self.old result self.new }
        ensures shorter { Shortens self.old result self.new }
    {
        let channel = self.name()?;
        let fields = self.dotted()?;
        Ok(Event { channel, fields })
    }

    /// Events with a comma between.
    fn events(&mut self) -> Result<Vec<Event<'a, A>, A>, Stopped>
        ensures reads { Reads form.OfEvents (λ es. map event_of es.items) self.old result self.new }
        ensures shorter { Shortens self.old result self.new }
    {
        let mut events = Vec::new(self.alloc);
        let first = self.event()?;
        events.push(first)?;
        while self.is_at(Sign::Comma) {
            self.sign(Sign::Comma)?;
            let event = self.event()?;
            events.push(event)?;
        }
        Ok(events)
    }

    fn pair(&mut self) -> Result<Pair<'a, A>, Stopped>
        ensures reads { Reads form.OfPair pair_of self.old result self.new }
        ensures shorter { Shortens self.old result self.new }
    {
        let from = self.event()?;
        self.sign(Sign::BackArrow)?;
        let to = self.event()?;
        Ok(Pair { from, to })
    }

    /// The pairs of a renaming, with a comma between.
    pub(crate) fn pairs(&mut self) -> Result<Vec<Pair<'a, A>, A>, Stopped>
        ensures reads { Reads form.OfPairs (λ ps. map pair_of ps.items) self.old result self.new }
        ensures shorter { Shortens self.old result self.new }
    {
        let mut pairs = Vec::new(self.alloc);
        let first = self.pair()?;
        pairs.push(first)?;
        while self.is_at(Sign::Comma) {
            self.sign(Sign::Comma)?;
            let pair = self.pair()?;
            pairs.push(pair)?;
        }
        Ok(pairs)
    }

    /// A set of events.
    #[cycle(event_set)]
    pub(crate) fn event_set(&mut self) -> Result<EventSet<'a, A>, Stopped>
        ensures reads { Reads form.OfEventSet event_set_of self.old result self.new }
        ensures shorter { Shortens self.old result self.new }
    {
        if self.is_at(Sign::OpenProductions) {
            return self.productions();
        }
        if self.is_at(Sign::OpenBrace) {
            return self.enumeration();
        }
        let Some(kind) = self.kind() else {
            return Err(Stopped::Here);
        };
        let TokenKind::Keyword(keyword) = kind else {
            return Err(Stopped::Here);
        };
        self.combined_set(keyword)
    }

    /// This sign, and a set of events behind it.
    #[cycle(event_set)]
    pub(crate) fn event_set_behind(&mut self, sign: Sign) -> Result<EventSet<'a, A>, Stopped>
        ensures reads { Reads (form.EventSetBehind (sign_of sign)) event_set_of self.old result
            self.new }
        ensures shorter { Shortens self.old result self.new }
    {
        self.sign(sign)?;
        self.event_set()
    }

    /// `{|`, events and `|}`.
    fn productions(&mut self) -> Result<EventSet<'a, A>, Stopped>
        ensures reads { Reads form.Productions event_set_of self.old result self.new }
        ensures shorter { Shortens self.old result self.new }
    {
        self.sign(Sign::OpenProductions)?;
        let events = self.events()?;
        self.sign(Sign::CloseProductions)?;
        Ok(EventSet::Productions(events))
    }

    /// `{`, events and `}`.
    fn enumeration(&mut self) -> Result<EventSet<'a, A>, Stopped>
        ensures reads { Reads form.Enumeration event_set_of self.old result self.new }
        ensures shorter { Shortens self.old result self.new }
    {
        self.sign(Sign::OpenBrace)?;
        if self.is_at(Sign::CloseBrace) {
            self.sign(Sign::CloseBrace)?;
            return Ok(EventSet::Enumeration(Vec::new(self.alloc)));
        }
        let events = self.events()?;
        self.sign(Sign::CloseBrace)?;
        Ok(EventSet::Enumeration(events))
    }

    /// Two sets of events that this keyword joins.
    #[cycle(event_set)]
    fn combined_set(&mut self, keyword: Keyword) -> Result<EventSet<'a, A>, Stopped>
        ensures reads { Reads (form.CombinedSet (keyword_of keyword)) event_set_of self.old result
            self.new }
        ensures shorter { Shortens self.old result self.new }
    {
        let Some(operator) = set_operator(keyword) else {
            return Err(Stopped::Here);
        };
        self.word(keyword)?;
        let left = self.event_set_behind(Sign::OpenRound)?;
        let right = self.event_set_behind(Sign::Comma)?;
        self.sign(Sign::CloseRound)?;
        joined(self.alloc, operator, left, right)
    }
}

/// Two sets of events with an operator between.
fn joined<'a, A: Allocator + Copy>(
    alloc: A,
    operator: EventSetOperator,
    left: EventSet<'a, A>,
    right: EventSet<'a, A>,
) -> Result<EventSet<'a, A>, Stopped>
    ensures makes { IfOk result (λ s. event_set_of s
        ≡ operator_of operator (event_set_of left.entry) (event_set_of right.entry)) }
    ensures stops { IfErr result (λ stopped. stopped ≡ Memory) }
{
    let left = Box::new(alloc, left)?;
    let right = Box::new(alloc, right)?;
    Ok(EventSet::Combine(operator, left, right))
}

/// The operator on sets of events that a keyword is, if it is one.
fn set_operator(keyword: Keyword) -> Option<EventSetOperator>
    ensures { option_map operator_of result ≡ set_word (keyword_of keyword) }
{
    match keyword {
        Keyword::Union => Some(EventSetOperator::Union),
        Keyword::Inter => Some(EventSetOperator::Intersection),
        Keyword::Diff => Some(EventSetOperator::Difference),
        _ => None,
    }
}

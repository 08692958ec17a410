//! Which parts do an event.

ghost use Rattle.std.specs.Prelude.{◌≡◌, IfOk, map};
ghost use Rattle.theory_syntax.specs.Value as value;
ghost use Rattle.theory_origins.specs.Action as action;
ghost use Rattle.theory_origins.specs.Doers as pure;
ghost use Rattle.theory_origins.specs.Origin.{Below};
ghost use Rattle.csp_value.specs.Action.{event_of};
ghost use Rattle.csp_moves.specs.Origin.{origin_of};
ghost use Rattle.csp_moves.specs.Passage.{passage_of, side_of};
ghost use Rattle.theory_explanation.specs.Origins.{below_text, doer_text, doers_behind, doers_text};
ghost use Rattle.csp_print.specs.Names.{names_of};
ghost use Rattle.csp_print.specs.Writing.{Writes};
ghost use Rattle.counterexample.specs.Doers.{all_behind, doer_of, doers_listed, lent_event, seen_event};
ghost use Rattle.counterexample.specs.PartNames.{legend_of};

use crate::actions::push_event;
use crate::legend::{Legend, push_part};
use crate::marks::push_mark;
use crate::ways::longer;
use csp_moves::{Origin, Passage, Side};
use csp_print::Names;
use csp_term::{AllocHandle, Event};
use csp_value::laws::equal_events;
use std::alloc::AllocError;

/// A part that does an event.
#[derive(Drop)]
pub struct Doer<'o, A: AllocHandle> {
    /// The sides on the way down to it.
    pub way: Vec<Side, A>,
    /// The event that it is there.
    pub event: &'o Event<A>,
}

/// The parts that do the event in a step from the origin, behind the string.
pub(crate) fn push_doers<A: AllocHandle>(
    alloc: A,
    legend: &Legend<'_, '_, A>,
    seen: &Event<A>,
    origin: &Origin<A>,
    text: &mut String<A>,
) -> Result<(), AllocError>
    ensures { Writes result text.old text.new
        (doers_text (legend_of legend.now) (event_of seen.now)
        (pure.doers (origin_of origin.now))) }
{
    let all = doers_in(alloc, &[], origin)?;
    push_all(alloc, legend, seen, &all, text)
}

// The parts, with what each does.
fn push_all<A: AllocHandle>(
    alloc: A,
    legend: &Legend<'_, '_, A>,
    seen: &Event<A>,
    doers: &[Doer<'_, A>],
    text: &mut String<A>,
) -> Result<(), AllocError>
    ensures { Writes result text.old text.new
        (doers_text (legend_of legend.now) (event_of seen.now) (doers_listed doers.now)) }
{
    match doers.split_first() {
        Some((first, others)) => {
            push_doer(alloc, legend, seen, " by ", first, text)?;
            push_doers_behind(alloc, legend, seen, others, text)
        }
        None => Ok(()),
    }
}

fn push_doers_behind<A: AllocHandle>(
    alloc: A,
    legend: &Legend<'_, '_, A>,
    seen: &Event<A>,
    doers: &[Doer<'_, A>],
    text: &mut String<A>,
) -> Result<(), AllocError>
    ensures { Writes result text.old text.new
        (doers_behind (legend_of legend.now) (event_of seen.now) (doers_listed doers.now)) }
{
    for doer in doers {
        push_doer(alloc, legend, seen, ", ", doer, text)?;
    }
    Ok(())
}

// A part, behind the mark; one without a way is the process itself.
fn push_doer<A: AllocHandle>(
    alloc: A,
    legend: &Legend<'_, '_, A>,
    seen: &Event<A>,
    mark: &str,
    doer: &Doer<'_, A>,
    text: &mut String<A>,
) -> Result<(), AllocError>
    ensures { Writes result text.old text.new
        (doer_text (legend_of legend.now) (event_of seen.now) mark.now (doer_of doer.now)) }
{
    if doer.way.is_empty() {
        return push_below(legend.names, seen, doer.event, text);
    }
    push_mark(mark, text)?;
    push_part(alloc, legend, &doer.way, text)?;
    push_below(legend.names, seen, doer.event, text)
}

// The event of a part, where it is another one.
fn push_below<A: AllocHandle>(
    names: &Names<'_, A>,
    seen: &Event<A>,
    below: &Event<A>,
    text: &mut String<A>,
) -> Result<(), AllocError>
    ensures { Writes result text.old text.new
        (below_text (names_of names.now) (event_of seen.now) (event_of below.now)) }
{
    if equal_events(seen, below) {
        return Ok(());
    }
    push_mark(" as ", text)?;
    push_event(names, below, text)
}

/// The parts that do an event in a step from the origin, below the way.
#[cycle(doers)]
pub fn doers_in<'o, A: AllocHandle>(
    alloc: A,
    way: &[Side],
    origin: &'o Origin<A>,
) -> Result<Vec<Doer<'o, A>, A>, AllocError>
    ensures { IfOk result (λ ds. doers_listed ds.items
        ≡ all_behind (map side_of way.now) (pure.doers (origin_of origin.now))) }
{
    match origin {
        Origin::Does(event) => by_itself(alloc, way, Some(event)),
        Origin::Ends => by_itself(alloc, way, None),
        Origin::Unfolds(_) => by_itself(alloc, way, None),
        Origin::Chooses(_) => by_itself(alloc, way, None),
        Origin::Slides => by_itself(alloc, way, None),
        Origin::Below(passage, part) => doers_below(alloc, way, passage, part),
        Origin::Together(left, right) => {
            let mut all = doers_on(alloc, way, Side::Left, left)?;
            let mut others = doers_on(alloc, way, Side::Right, right)?;
            all.append(&mut others)?;
            Ok(all)
        }
    }
}

// The same of what a part does below the passage.
#[cycle(doers)]
fn doers_below<'o, A: AllocHandle>(
    alloc: A,
    way: &[Side],
    passage: &Passage<A>,
    part: &'o Origin<A>,
) -> Result<Vec<Doer<'o, A>, A>, AllocError>
    ensures { IfOk result (λ ds. doers_listed ds.items
        ≡ all_behind (map side_of way.now)
        (pure.doers (Below (passage_of passage.now) (origin_of part.now)))) }
{
    match passage {
        Passage::OnSide(side) => doers_on(alloc, way, *side, part),
        Passage::InBody => doers_in(alloc, way, part),
        Passage::OnBranch(_) => by_itself(alloc, way, event_in(part)),
        Passage::UnderGuard => by_itself(alloc, way, event_in(part)),
        Passage::InChain => by_itself(alloc, way, event_in(part)),
        Passage::SideEnds(_) => by_itself(alloc, way, None),
        Passage::Hides(_) => doers_in(alloc, way, part),
        Passage::Renames(_, _) => doers_in(alloc, way, part),
    }
}

// The same of what a part does on a side.
#[cycle(doers)]
fn doers_on<'o, A: AllocHandle>(
    alloc: A,
    way: &[Side],
    side: Side,
    part: &'o Origin<A>,
) -> Result<Vec<Doer<'o, A>, A>, AllocError>
    ensures { IfOk result (λ ds. doers_listed ds.items
        ≡ all_behind (map side_of way.now)
        (pure.all_further (side_of side) (pure.doers (origin_of part.now)))) }
{
    let further = longer(alloc, way, side)?;
    doers_in(alloc, &further, part)
}

// The process at the end of the way, if it does an event.
fn by_itself<'o, A: AllocHandle>(
    alloc: A,
    way: &[Side],
    found: Option<&'o Event<A>>,
) -> Result<Vec<Doer<'o, A>, A>, AllocError>
    ensures { IfOk result (λ ds. (x : value.Action) → seen_event x ≡ lent_event found.entry
        → doers_listed ds.items ≡ all_behind (map side_of way.now) (pure.by_itself x)) }
{
    let mut all = Vec::new(alloc);
    let Some(event) = found else {
        return Ok(all);
    };
    let way = Vec::from_slice(alloc, way)?;
    all.push(Doer { way, event })?;
    Ok(all)
}

// The event of a step from the origin, if it is one.
#[cycle(seen)]
fn event_in<A: AllocHandle>(origin: &Origin<A>) -> Option<&Event<A>>
    ensures { seen_event (action.action_of (origin_of origin.now)) ≡ lent_event result }
{
    match origin {
        Origin::Does(event) => Some(event),
        Origin::Ends => None,
        Origin::Unfolds(_) => None,
        Origin::Chooses(_) => None,
        Origin::Slides => None,
        Origin::Below(passage, part) => event_above(passage, part),
        Origin::Together(left, _) => event_in(left),
    }
}

// The same of what a part does below the passage.
#[cycle(seen)]
fn event_above<'o, A: AllocHandle>(
    passage: &'o Passage<A>,
    part: &'o Origin<A>,
) -> Option<&'o Event<A>>
    ensures { seen_event (action.action_of (Below (passage_of passage.now) (origin_of part.now)))
        ≡ lent_event result }
{
    match passage {
        Passage::OnSide(_) => event_in(part),
        Passage::InBody => event_in(part),
        Passage::OnBranch(_) => event_in(part),
        Passage::UnderGuard => event_in(part),
        Passage::InChain => event_in(part),
        Passage::SideEnds(_) => None,
        Passage::Hides(_) => None,
        Passage::Renames(_, event) => Some(event),
    }
}

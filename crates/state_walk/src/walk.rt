//! Walks.

ghost use Rattle.std.specs.Prelude.{◌≡◌, ◌<◌, IfOk, OnErr, OnOk, length};
ghost use Rattle.theory_semantics.specs.Kinds.Scripts.{IsTermOf};
ghost use Rattle.theory_walk.specs.Answers.{answer_by, going_back, named};
ghost use Rattle.theory_walk.specs.Moves.{moves_in};
ghost use Rattle.theory_walk.specs.Trails.{begun};
ghost use Rattle.theory_walk.specs.Walks.{answer_to, shown};
ghost use Rattle.csp_term.specs.Script.{script_of};
ghost use Rattle.csp_term.specs.Term.{process_of};
ghost use Rattle.csp_print.specs.Names.{names_of};
ghost use Rattle.csp_print.specs.Writing.{Writes};
ghost use Rattle.counterexample.specs.Widths.{width_of};
ghost use Rattle.state_walk.specs.Answers.{Follows};
ghost use Rattle.state_walk.specs.Walks.{GoesBy, IsKept, IsSameScript, menu_of, place_of, trail_of};

use crate::answer::Answer;
use crate::command::{Command, command_of};
use crate::menu::{Menu, Move, menu_at};
use crate::naming::{Meant, named};
use crate::trail::{behind, part_names};
use crate::view::push_menu;
use counterexample::{Width, push_mark, push_number, push_state};
use csp_print::Names;
use csp_term::{AllocHandle, Memory, Script, Term};
use std::alloc::AllocError;
use std::mem;

/// A walk through a process of a script.
#[derive(Drop)]
pub struct Walk<'s, A: AllocHandle> {
    /// The script.
    pub script: &'s Script<A>,
    /// Where the walk began.
    pub start: Term<A>,
    /// The moves that were taken from there, one behind the other.
    pub taken: Vec<Move<A>, A>,
    /// What the state offers that they lead to.
    pub menu: Menu<A>,
}

impl<'s, A: AllocHandle> Walk<'s, A> {
    /// A walk that begins at the term, which is one of the script. `Memory` says that there is no room for it.
    pub fn new(alloc: A, script: &'s Script<A>, start: &Term<A>) -> Result<Walk<'s, A>, Memory>
        requires closed { IsTermOf (script_of script.now) (process_of start.now) }
        ensures kept { IfOk result IsKept }
        ensures script { IfOk result (λ w. script_of w.script.now ≡ script_of script.now) }
        ensures begun { IfOk result (λ w. trail_of w ≡ begun (process_of start.now)) }
    {
        let menu = menu_at(alloc, script, start)?;
        let start = start.try_copy(alloc)?;
        let taken = Vec::new(alloc);
        Ok(Walk {
            script,
            start,
            taken,
            menu,
        })
    }

    /// Where the walk is, behind the string: the number of moves to there, the state, as wide as is told, and what it
    /// offers. Where memory is refused, a beginning of that may have been put there.
    pub fn push_view(
        &self,
        alloc: A,
        names: &Names<'_, A>,
        width: Width,
        text: &mut String<A>,
    ) -> Result<(), AllocError>
        ensures { Writes result text.old text.new
            (shown (names_of names.now) (width_of width) (place_of self.now)) }
    {
        let state = behind(&self.start, &self.taken);
        let parts = part_names(alloc, &self.taken)?;
        push_mark("state ", text)?;
        push_number(self.taken.len(), text)?;
        push_mark("\n", text)?;
        push_state(alloc, names, width, state, text)?;
        push_menu(alloc, names, &parts, state, &self.menu, text)
    }

    /// Does what the line asks for, and answers what is to be shown. Steps are taken by number, or by their texts by the
    /// names. `Memory` says that there was no room for that, and then the walk is where it was.
    pub fn answer(&mut self, alloc: A, names: &Names<'_, A>, line: &[u8]) -> Result<Answer, Memory>
        requires kept { IsKept self.old }
        ensures kept { IsKept self.new }
        ensures script { IsSameScript self.old self.new }
        ensures follows { IfOk result (λ answer.
            Follows (answer_to (names_of names.now) (place_of self.old) line.now)
            (place_of self.old) answer (place_of self.new)) }
        ensures unchanged { OnErr result (place_of self.new ≡ place_of self.old) }
    {
        match command_of(line) {
            Command::Back => self.back(alloc),
            Command::End => Ok(Answer::Ended),
            Command::Again => Ok(Answer::Shown),
            Command::Take(text) => self.take(alloc, names, text),
        }
    }

    // Goes back to where the last move was taken.
    fn back(&mut self, alloc: A) -> Result<Answer, Memory>
        requires kept { IsKept self.old }
        ensures kept { IsKept self.new }
        ensures script { IsSameScript self.old self.new }
        ensures follows { IfOk result (λ answer.
            Follows (going_back (trail_of self.old) (trail_of self.old).taken)
            (place_of self.old) answer (place_of self.new)) }
        ensures unchanged { OnErr result (place_of self.new ≡ place_of self.old) }
    {
        let Some((_, before)) = self.taken.split_last() else {
            return Ok(Answer::Said("this is the start\n"));
        };
        let menu = menu_at(alloc, self.script, behind(&self.start, before))?;
        self.taken.pop();
        self.menu = menu;
        Ok(Answer::Shown)
    }

    // Takes the move that the text names, if it is one alone.
    fn take(&mut self, alloc: A, names: &Names<'_, A>, text: &[u8]) -> Result<Answer, Memory>
        requires kept { IsKept self.old }
        ensures kept { IsKept self.new }
        ensures script { IsSameScript self.old self.new }
        ensures follows { IfOk result (λ answer.
            Follows (answer_by (trail_of self.old)
            (named (names_of names.now) (moves_in (menu_of self.old.menu)) text.now))
            (place_of self.old) answer (place_of self.new)) }
        ensures unchanged { OnErr result (place_of self.new ≡ place_of self.old) }
    {
        let found = named(alloc, names, self.menu.moves(), text)?;
        match found {
            Meant::Nothing => Ok(Answer::Said(
                "no such step: a number, the text of an event, u or q\n",
            )),
            Meant::Several => Ok(Answer::Said("several steps do that: take one by its number\n")),
            Meant::One(place) => {
                self.go(alloc, place)?;
                Ok(Answer::Shown)
            }
        }
    }

    // Takes the move at the place.
    fn go(&mut self, alloc: A, place: usize) -> Result<(), Memory>
        requires kept { IsKept self.old }
        requires inside { place < length (moves_in (menu_of self.old.menu)) }
        ensures kept { IsKept self.new }
        ensures script { IsSameScript self.old self.new }
        ensures gone { OnOk result (GoesBy place self.old self.new) }
        ensures unchanged { OnErr result (place_of self.new ≡ place_of self.old) }
    {
        let menu = menu_at(alloc, self.script, &self.menu.moves()[place].target)?;
        self.taken.reserve(1)?;
        let offered = mem::replace(&mut self.menu, menu);
        let chosen = offered.into_move(place);
        match self.taken.push(chosen) {
            Ok(()) => Ok(()),
            Err(_) => unreachable!(),
        }
    }
}

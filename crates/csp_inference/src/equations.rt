//! Equations between kinds, as terms ask for them, over what is known of kinds.

ghost use Rattle.std.specs.Prelude.{◌≡◌, ◌∷◌, [], suc, IfOk};
ghost use Rattle.theory_checking.specs.Inference.Equations.{never};
ghost use Rattle.theory_checking.specs.Inference.State.{IsResolved, nothing_known};
ghost use Rattle.csp_inference.specs.Chain.{demand_of};
ghost use Rattle.csp_inference.specs.Equations.{Adds, equations_of};
ghost use Rattle.csp_inference.specs.Question.{AddsQuestion};
ghost use Rattle.csp_inference.specs.Questions.Operators.{sequence_kind_question, set_kind_question};
ghost use Rattle.csp_inference.specs.State.{SaysTheSame, Solved, state_in};

use crate::chain::{Demand, End, KindNumber};
use crate::misfit::Misfit;
use crate::state::State;
use csp_value::Memory;
use std::alloc::Allocator;

/// Two kinds that are to be one.
#[derive(Clone, Copy)]
pub struct KindEquation {
    /// One of the two kinds.
    pub left: Demand,
    /// The other one.
    pub right: Demand,
}

/// Equations in the order in which they were met, what is known of kinds before they are solved, and the next number
/// for a kind of which nothing is known. Each number that was given out has its place in what is known.
#[derive(Drop)]
pub struct Equations<A: Allocator> {
    met: Vec<KindEquation, A>,
    state: State<A>,
    next: usize,
}

impl<A: Allocator + Copy> Equations<A> {
    /// No equations yet, and nothing is known of kinds. No number is in use.
    pub fn new(alloc: A) -> Equations<A>
        ensures met { equations_of result ≡ [] }
        ensures state { SaysTheSame nothing_known (state_in result.state) }
        ensures next { result.next ≡ 0 }
    {
        Equations {
            met: Vec::new(alloc),
            state: State::new(alloc),
            next: 0,
        }
    }

    /// Forgets the equations. What is known stays, and the next number does.
    pub fn forget(&mut self)
        ensures met { equations_of self.new ≡ [] }
        ensures state { self.new.state ≡ self.old.state }
        ensures next { self.new.next ≡ self.old.next }
    {
        self.met.clear();
    }

    /// Solves the equations in turn, over what is known. `NoKinds` where they have no solution, and `Memory` where
    /// there is no room; then what is known is of no more use.
    pub fn solve(&mut self, alloc: A) -> Result<(), Misfit>
        requires { IsResolved (state_in self.old.state) }
        ensures solved { Solved (state_in self.old.state) (equations_of self.old)
            (state_in self.new.state) result }
        ensures next { self.new.next ≡ self.old.next }
    {
        self.state.solve(alloc, self.met.as_slice())
    }

    /// One equation more, or `Memory` where there is no room for it.
    pub(crate) fn push(&mut self, left: Demand, right: Demand) -> Result<(), Memory>
        ensures { IfOk result (λ _. Adds self.old self.new ((demand_of left, demand_of right) ∷ [])
            self.old.next) }
    {
        self.met.push(KindEquation { left, right })?;
        Ok(())
    }

    /// An equation that no kinds solve, or `Memory` where there is no room for it.
    pub(crate) fn push_never(&mut self) -> Result<(), Memory>
        ensures { IfOk result (λ _. Adds self.old self.new never self.old.next) }
    {
        self.push(Demand::Plain(End::Int), Demand::Plain(End::Bool))
    }

    /// The number of the next kind.
    pub(crate) fn next_number(&self) -> KindNumber
        ensures { result.0 ≡ self.now.next }
    {
        KindNumber(self.next)
    }

    /// The number of one more kind, or `Memory` where there is no room for what will be known of it.
    pub fn fresh(&mut self) -> Result<KindNumber, Memory>
        ensures number { IfOk result (λ n. n.0 ≡ self.old.next) }
        ensures behind { IfOk result (λ _. Adds self.old self.new [] (suc self.old.next)) }
    {
        let number = KindNumber(self.next);
        self.state.make_room(number)?;
        self.next += 1;
        Ok(number)
    }

    /// The number of a new kind, of which the given one is the sequences.
    pub(crate) fn push_sequence(&mut self, kind: Demand) -> Result<KindNumber, Memory>
        ensures number { IfOk result (λ n. n.0 ≡ self.old.next) }
        ensures behind { IfOk result (λ _. AddsQuestion self.old self.new
            (sequence_kind_question kind)) }
    {
        let number = self.fresh()?;
        self.push(Demand::SequenceOf(End::Open(number)), kind)?;
        Ok(number)
    }

    /// The number of a new kind, of which the given one is the sets.
    pub(crate) fn push_set(&mut self, kind: Demand) -> Result<KindNumber, Memory>
        ensures number { IfOk result (λ n. n.0 ≡ self.old.next) }
        ensures behind { IfOk result (λ _. AddsQuestion self.old self.new
            (set_kind_question kind)) }
    {
        let number = self.fresh()?;
        self.push(Demand::SetOf(End::Open(number)), kind)?;
        Ok(number)
    }
}

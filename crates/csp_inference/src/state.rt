//! What is known of the kinds so far.

ghost use Rattle.std.specs.Prelude.{◌≡◌, ◌<◌, ◌^◌, ◌∷◌, [], suc, map, option_map, IfOk, length};
ghost use Rattle.theory_checking.specs.Inference.State.{IsResolved, bind_open, bound_to, nothing_known, state_of, unify_resolved};
ghost use Rattle.csp_inference.specs.Chain.{chain_of, chain_over, demand_of, going_on_at};
ghost use Rattle.csp_inference.specs.Equations.{equation_of};
ghost use Rattle.csp_inference.specs.State.{AreUnlike, SaysTheSame, Solved, Tells, chains_in, chains_of, found_at, lent_chain, open_alone, state_in, taken_off};

use crate::chain::{Chain, Demand, End, KindNumber, Layer};
use crate::equations::KindEquation;
use crate::misfit::Misfit;
use csp_value::Memory;
use std::alloc::Allocator;

/// For each number of a kind nothing, or the kind that it is bound to. No bound number stands at the end of a bound
/// kind.
#[derive(Drop)]
pub(crate) struct State<A: Allocator> {
    /// Numbers behind the end of the list are not bound.
    chains: Vec<Option<Chain<A>>, A>,
}

impl<A: Allocator + Copy> State<A> {
    /// Nothing is known.
    pub(crate) fn new(alloc: A) -> State<A>
        ensures { SaysTheSame nothing_known (state_in result) }
    {
        State {
            chains: Vec::new(alloc),
        }
    }

    /// Solves the equations in turn. `NoKinds` where they have no solution, and `Memory` where there is no room; then
    /// the state is of no more use.
    pub(crate) fn solve(&mut self, alloc: A, equations: &[KindEquation]) -> Result<(), Misfit>
        requires { IsResolved (state_in self.old) }
        ensures { Solved (state_in self.old) (map equation_of equations.now) (state_in self.new)
            result }
    {
        for equation in equations {
            self.unify(alloc, equation.left, equation.right)?;
        }
        Ok(())
    }

    /// The kind that the number is bound to.
    fn bound(&self, number: KindNumber) -> Option<&Chain<A>>
        ensures { lent_chain result ≡ state_of (chains_of self.now) number.0 }
    {
        match self.chains.get(number.0) {
            Some(slot) => slot.as_ref(),
            None => None,
        }
    }

    /// The kind that is asked for, as far as it is known.
    fn resolve(&self, alloc: A, demand: Demand) -> Result<Chain<A>, Memory>
        ensures { IfOk result (λ chain. chain_of chain
            ≡ found_at (chains_of self.now) (demand_of demand)) }
    {
        let chain = Chain::new(alloc, demand)?;
        if let End::Open(number) = chain.end {
            return self.look_up(number, chain);
        }
        Ok(chain)
    }

    /// The chain that ends in the number, which goes on as what the number is bound to.
    fn look_up(&self, number: KindNumber, mut chain: Chain<A>) -> Result<Chain<A>, Memory>
        requires { chain.end ≡ End.Open number }
        ensures { IfOk result (λ longer. chain_of longer
            ≡ found_at (chains_of self.now) (chain_of chain)) }
    {
        let Some(rest) = self.bound(number) else {
            return Ok(chain);
        };
        chain.go_on(&rest.layers, rest.end)?;
        Ok(chain)
    }

    /// Lengthens the list so far that it has a place for the number, which is then none of the greatest.
    pub(crate) fn make_room(&mut self, number: KindNumber) -> Result<(), Memory>
        ensures place { IfOk result (λ _. number.0 < length self.new.chains.items) }
        ensures further { IfOk result (λ _. suc number.0 < 2 ^ 64) }
        ensures known { SaysTheSame (state_in self.new) (state_in self.old) }
    {
        while self.chains.len() <= number.0 {
            self.chains.push(None)?;
        }
        Ok(())
    }

    /// Binds the number, of which nothing is known, to the layers and the end: they take its place at the end of all
    /// kinds. `Memory` where there is no room; then the state is of no more use.
    fn bind(
        &mut self,
        alloc: A,
        number: KindNumber,
        layers: &[Layer],
        end: End,
    ) -> Result<(), Memory>
        ensures { IfOk result (λ _. SaysTheSame
            (bound_to (state_in self.old) number.0 (chain_over layers.now end))
            (state_in self.new)) }
    {
        self.make_room(number)?;
        go_on_all(&mut self.chains, number, layers, end)?;
        let layers = Vec::from_slice(alloc, layers)?;
        self.chains[number.0] = Some(Chain { layers, end });
        Ok(())
    }

    /// Makes the kind of the number and the one of the layers and the end one, if they can be. Nothing is known of
    /// their ends.
    fn bind_open(
        &mut self,
        alloc: A,
        number: KindNumber,
        layers: &[Layer],
        end: End,
    ) -> Result<(), Misfit>
        ensures { Tells (bind_open (state_in self.old) number.0 (chain_over layers.now end))
            (state_in self.new) result }
    {
        if end != End::Open(number) {
            self.bind(alloc, number, layers, end)?;
            return Ok(());
        }
        if layers.is_empty() {
            Ok(())
        } else {
            Err(Misfit::NoKinds)
        }
    }

    /// Makes two kinds one that do not begin alike, if they can be. Nothing is known of their ends.
    fn unify_rest(
        &mut self,
        alloc: A,
        left: &[Layer],
        left_end: End,
        right: &[Layer],
        right_end: End,
    ) -> Result<(), Misfit>
        requires { AreUnlike left.now right.now }
        ensures { Tells (unify_resolved (state_in self.old) (chain_over left.now left_end)
            (chain_over right.now right_end)) (state_in self.new) result }
    {
        if let Some(number) = open_alone(left, left_end) {
            return self.bind_open(alloc, number, right, right_end);
        }
        if let Some(number) = open_alone(right, right_end) {
            return self.bind_open(alloc, number, left, left_end);
        }
        if left == right && left_end == right_end {
            Ok(())
        } else {
            Err(Misfit::NoKinds)
        }
    }

    /// Makes two kinds one. `NoKinds` where they cannot be, and `Memory` where there is no room; then the state is of
    /// no more use.
    fn unify(&mut self, alloc: A, left: Demand, right: Demand) -> Result<(), Misfit>
        requires { IsResolved (state_in self.old) }
        ensures { Solved (state_in self.old) ((demand_of left, demand_of right) ∷ [])
            (state_in self.new) result }
    {
        let left = self.resolve(alloc, left)?;
        let right = self.resolve(alloc, right)?;
        let (left_rest, right_rest) = without_like_beginning(&left.layers, &right.layers);
        self.unify_rest(alloc, left_rest, left.end, right_rest, right.end)
    }
}

/// The number of a kind of which nothing is known.
fn open_alone(layers: &[Layer], end: End) -> Option<KindNumber>
    ensures { result ≡ open_alone layers.now end }
{
    match end {
        End::Open(number) if layers.is_empty() => Some(number),
        _ => None,
    }
}

/// The chain goes on as the layers and the end do, if there is one and it ends in the number.
fn go_on_at<A: Allocator + Copy>(
    slot: &mut Option<Chain<A>>,
    number: KindNumber,
    layers: &[Layer],
    end: End,
) -> Result<(), Memory>
    ensures { IfOk result (λ _. option_map chain_of slot.new
        ≡ option_map (going_on_at number layers.now end) (option_map chain_of slot.old)) }
{
    match slot {
        Some(chain) => chain.put_in(number, layers, end),
        None => Ok(()),
    }
}

/// Each chain that ends in the number goes on as the layers and the end do.
fn go_on_all<A: Allocator + Copy>(
    slots: &mut [Option<Chain<A>>],
    number: KindNumber,
    layers: &[Layer],
    end: End,
) -> Result<(), Memory>
    ensures { IfOk result (λ _. chains_in slots.new
        ≡ map (option_map (going_on_at number layers.now end)) (chains_in slots.old)) }
{
    for slot in slots.iter_mut() {
        go_on_at(slot, number, layers, end)?;
    }
    Ok(())
}

/// What is left of the layers without those that they begin with alike.
fn without_like_beginning<'l>(left: &'l [Layer], right: &'l [Layer]) -> (&'l [Layer], &'l [Layer])
    ensures { (result.0.now, result.1.now) ≡ taken_off left.now right.now }
{
    let mut common = 0;
    while common < left.len() && common < right.len() && left[common] == right[common] {
        common += 1;
    }
    (&left[common..], &right[common..])
}

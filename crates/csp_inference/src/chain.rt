//! Kinds with open ends.

ghost use Rattle.std.specs.Prelude.{◌≡◌, IfOk};
ghost use Rattle.csp_inference.specs.Chain.{chain_of, chain_over, demand_of, end_of, going_on_at, over, over_all};

use csp_expression::DatatypeId;
use csp_value::Memory;
use std::alloc::Allocator;

/// A kind that is not known yet, by its number.
#[derive(Clone, Copy, PartialEq, Eq)]
pub struct KindNumber(pub usize);

/// What a kind ends in below all sequences and sets.
#[derive(Clone, Copy, PartialEq, Eq)]
pub enum End {
    /// Whole numbers.
    Int,
    /// Truth values.
    Bool,
    /// The values of a datatype.
    Datatype(DatatypeId),
    /// A kind that is not known yet.
    Open(KindNumber),
}

/// What a kind is of another kind.
#[derive(Clone, Copy, PartialEq, Eq)]
pub(crate) enum Layer {
    /// The sequences of it.
    Sequence,
    /// The sets of it.
    Set,
}

/// A kind as terms ask for it: an end, or sequences or sets of it.
#[derive(Clone, Copy, PartialEq, Eq)]
pub enum Demand {
    /// The end itself.
    Plain(End),
    /// Sequences of the end.
    SequenceOf(End),
    /// Sets of the end.
    SetOf(End),
}

/// A kind with its layers, the outer ones first, and its end.
#[derive(Drop)]
pub(crate) struct Chain<A: Allocator> {
    pub(crate) layers: Vec<Layer, A>,
    pub(crate) end: End,
}

impl<A: Allocator + Copy> Chain<A> {
    /// The kind that is asked for, or `Memory` where there is no room.
    pub(crate) fn new(alloc: A, demand: Demand) -> Result<Chain<A>, Memory>
        ensures { IfOk result (λ chain. chain_of chain ≡ demand_of demand) }
    {
        match demand {
            Demand::Plain(end) => Ok(Chain {
                layers: Vec::new(alloc),
                end,
            }),
            Demand::SequenceOf(end) => Chain::of_one_layer(alloc, Layer::Sequence, end),
            Demand::SetOf(end) => Chain::of_one_layer(alloc, Layer::Set, end),
        }
    }

    fn of_one_layer(alloc: A, layer: Layer, end: End) -> Result<Chain<A>, Memory>
        ensures { IfOk result (λ chain. chain_of chain ≡ over layer (end_of end)) }
    {
        let mut layers = Vec::new(alloc);
        layers.push(layer)?;
        Ok(Chain { layers, end })
    }

    /// Puts the layers and the end in the place of the chain's end, or does nothing and is `Memory` where there is no
    /// room.
    #[tactic(auto, using(crate::proofs::Layers::over_append))]
    pub(crate) fn go_on(&mut self, layers: &[Layer], end: End) -> Result<(), Memory>
        ensures { IfOk result (λ _. chain_of self.new
            ≡ over_all self.old.layers.items (chain_over layers.now end)) }
    {
        self.layers.extend_from_slice(layers)?;
        self.end = end;
        Ok(())
    }

    /// Puts the layers and the end in the place of the chain's end, if it is the number.
    pub(crate) fn put_in(
        &mut self,
        number: KindNumber,
        layers: &[Layer],
        end: End,
    ) -> Result<(), Memory>
        ensures { IfOk result (λ _. chain_of self.new
            ≡ going_on_at number layers.now end (chain_of self.old)) }
    {
        if self.end != End::Open(number) {
            return Ok(());
        }
        self.go_on(layers, end)?;
        Ok(())
    }
}

//! Shapes of terms that are kept.

ghost use Rattle.std.specs.Prelude.{◌≡◌, ◌<◌, IfOk, IfSome, Some, length};
ghost use Rattle.csp_packed.specs.Packed.{packed_process};
ghost use Rattle.kept_parts.specs.KnownSteps.{script_in};
ghost use Rattle.kept_parts.specs.Known.{AreKnownOf, IsEarlierRowOf, IsLastKept, IsRowOf, IsShapeKept, earlier_at, shape_in};
ghost use Rattle.kept_parts.specs.Rows.{IsRowAmong};

use crate::known_parts::KnownParts;
use crate::last_shape::LastShape;
use crate::tried::Tried;
use csp_packed::PackedTerm;
use csp_rows::{SplitRow, split};
use csp_term::{AllocHandle, Memory};
use std::mem::{replace, swap};

// The most shapes that are kept beside the last one.
const MOST_EARLIER: usize = 63;

/// A shape that was met before the last one.
#[derive(Drop)]
pub(crate) struct EarlierShape<A: AllocHandle> {
    /// The shape, `None` where none was met.
    pub(crate) shape: Option<LastShape<A>>,
    /// The parts that are tried in its holes.
    pub(crate) tried: Tried<A>,
}

/// A row of parts in one of the earlier shapes.
#[derive(Drop)]
pub(crate) struct EarlierRow<A: AllocHandle> {
    /// The place of the shape.
    pub(crate) place: usize,
    /// The row.
    pub(crate) row: SplitRow<A>,
}

impl<'s, A: AllocHandle> KnownParts<'s, A> {
    /// The row of a term in a shape, where it is spelled so by the parts that are tried there or, where some are told, by
    /// these alone.
    fn split_in(
        &self,
        alloc: A,
        term: &PackedTerm<A>,
        shape: &Option<LastShape<A>>,
        tried: &Tried<A>,
        only: &Tried<A>,
    ) -> Result<Option<SplitRow<A>>, Memory>
        requires known { AreKnownOf (script_in self.now.parts) self.now }
        requires shape { IsLastKept (script_in self.now.parts) shape.now }
        ensures { IfOk result (λ found. IfSome found
            (IsRowAmong self.now.parts (shape_in shape.now) (packed_process term.now))) }
    {
        match shape {
            Some(last) => {
                let tried = only.or_else(tried).in_holes();
                let row = split(alloc, term.bytes(), &last.pieces, tried, self.parts.all())?;
                Ok(row)
            }
            None => Ok(None),
        }
    }

    /// The row in the first of the earlier shapes that the term is spelled in, by the parts that are tried there or, where
    /// some are told, by these alone.
    fn find_earlier(
        &self,
        alloc: A,
        term: &PackedTerm<A>,
        only: &Tried<A>,
    ) -> Result<Option<EarlierRow<A>>, Memory>
        requires { AreKnownOf (script_in self.now.parts) self.now }
        ensures { IfOk result (λ found. IfSome found
            (IsEarlierRowOf self.now (packed_process term.now))) }
    {
        for (place, earlier) in self.earlier.iter().enumerate() {
            let row = self.split_in(alloc, term, &earlier.shape, &earlier.tried, only)?;
            if let Some(row) = row {
                return Ok(Some(EarlierRow { place, row }));
            }
        }
        Ok(None)
    }

    /// Makes the earlier shape of a place the last one, which takes its place.
    fn turn_to(&mut self, place: usize)
        requires known { AreKnownOf (script_in self.old.parts) self.old }
        requires place { place < length self.old.earlier.items }
        ensures known { AreKnownOf (script_in self.old.parts) self.new }
        ensures parts { self.new.parts ≡ self.old.parts }
        ensures last { self.new.last ≡ earlier_at self.old.earlier.items place }
    {
        let earlier = &mut self.earlier[place];
        swap(&mut self.last, &mut earlier.shape);
        swap(&mut self.tried, &mut earlier.tried);
    }

    /// The row of the term in one of the shapes that were met, which is then the last one, by the parts that are tried
    /// there or by these alone.
    pub(crate) fn look_up(
        &mut self,
        alloc: A,
        term: &PackedTerm<A>,
        only: &Tried<A>,
    ) -> Result<Option<SplitRow<A>>, Memory>
        requires { AreKnownOf (script_in self.old.parts) self.old }
        ensures known { AreKnownOf (script_in self.old.parts) self.new }
        ensures parts { self.new.parts ≡ self.old.parts }
        ensures row { IfOk result (λ found. IfSome found
            (IsRowOf self.new (packed_process term.now))) }
    {
        if let Some(row) = self.split_in(alloc, term, &self.last, &self.tried, only)? {
            return Ok(Some(row));
        }
        match self.find_earlier(alloc, term, only)? {
            Some(found) => {
                self.turn_to(found.place);
                Ok(Some(found.row))
            }
            None => Ok(None),
        }
    }

    /// Makes a shape the last one, with the parts that are tried in its holes. The one that was it is an earlier one, in the
    /// place of another where there are too many, or is let go where there is no room for it.
    pub(crate) fn turn_to_new(&mut self, shape: LastShape<A>, tried: Tried<A>) -> Result<(), Memory>
        requires known { AreKnownOf (script_in self.old.parts) self.old }
        requires shape { IsShapeKept (script_in self.old.parts) shape }
        ensures known { AreKnownOf (script_in self.old.parts) self.new }
        ensures parts { self.new.parts ≡ self.old.parts }
        ensures last { self.new.last ≡ Some shape }
    {
        let shape = replace(&mut self.last, Some(shape));
        let tried = replace(&mut self.tried, tried);
        let earlier = EarlierShape { shape, tried };
        if self.earlier.len() < MOST_EARLIER {
            self.earlier.push(earlier)?;
        } else {
            let place = self.parts.len() % MOST_EARLIER;
            self.earlier[place] = earlier;
        }
        Ok(())
    }
}

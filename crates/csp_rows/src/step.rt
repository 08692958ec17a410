//! Steps by numbers.

ghost use Rattle.std.specs.Prelude.{◌≡◌, Any, IsFalse, IsTrue, List, None};
ghost use Rattle.theory_shapes.specs.ShapeSteps.{all_changing};
ghost use Rattle.csp_rows.specs.declared.changes.Change.{Change};
ghost use Rattle.csp_rows.specs.Numbering.{Numbering};
ghost use Rattle.csp_rows.specs.Runs.{changing_of, steps_of};

use crate::changes::Run;
use crate::numbers::{ActionId, PartId};

/// A step of a part: what is done, and the part that it leads to.
#[derive(Clone, Copy)]
pub struct PartStep {
    /// What is done.
    pub action: ActionId,
    /// What the part becomes.
    pub target: PartId,
}

/// A step of a term: what is done, and the changes of its parts.
#[derive(Clone, Copy)]
pub struct Step {
    /// What is done.
    pub action: ActionId,
    /// Where its changes stand in the pool, `None` where it does not leave the shape as it is.
    pub changes: Option<Run>,
}

/// Whether all steps leave the shape as it is.
pub fn keep_shape(steps: &[Step]) -> bool
    ensures kept { IsTrue result → (z : Numbering) (pool : List Change)
        → steps_of z pool steps.now ≡ all_changing (changing_of z pool steps.now) }
    ensures left { IsFalse result → Any (λ s. s.changes ≡ None) steps.now }
{
    for step in steps {
        if step.changes.is_none() {
            return false;
        }
    }
    true
}

//! The order of parts.

ghost use Rattle.std.specs.Prelude.{◌≡◌};
ghost use Rattle.std.specs.Cmp.{IsTotalOrder};
ghost use Rattle.std.specs.declared.cmp.Ordering as ordering;
ghost use Rattle.csp_rows.specs.declared.numbers.PartId as part_id;
ghost use Rattle.csp_rows.specs.Ranks.{rank_at};

use crate::numbers::PartId;
use std::cmp::Ordering;

/// What tells the order of parts that are known by numbers. It is total, whatever the numbers.
pub trait PartOrder {
    ghost order: { Self → part_id.PartId → part_id.PartId → ordering.Ordering };

    /// The order of two parts.
    fn compare(&self, part: PartId, other: PartId) -> Ordering
        ensures { result ≡ order self.now part other };

    ghost total: { (parts : Self) → IsTotalOrder (order parts) };
}

/// The ranks of parts, by their numbers: a part of lesser rank comes first. One without a rank counts as of rank 0.
#[derive(Clone, Copy)]
pub struct Ranks<'r>(pub &'r [u64]);

impl<'r> PartOrder for Ranks<'r> {
    ghost use Rattle.std.proofs.lemmas.Cmp.{nat_cmp_total, on_total};
    ghost use Rattle.csp_rows.specs.Ranks.{rank_cmp};

    ghost order = { λ ranks. rank_cmp ranks.0.now };

    ghost total = { λ ranks. on_total (λ p. rank_at ranks.0.now p.0) nat_cmp_total };

    fn compare(&self, part: PartId, other: PartId) -> Ordering {
        rank_of(self.0, part).cmp(&rank_of(self.0, other))
    }
}

/// The rank of a part, 0 where it has none.
fn rank_of(ranks: &[u64], part: PartId) -> u64
    ensures { result ≡ rank_at ranks.now part.0 }
{
    ranks.get(part.0 as usize).copied().unwrap_or(0)
}

//! The order of parts by their processes.

use crate::parts::Parts;
use csp_rows::{PartId, PartOrder};
use csp_term::AllocHandle;
use std::cmp::Ordering;

/// The order of parts, which is that of the processes that their numbers stand for.
#[derive(Drop)]
pub(crate) struct ByProcess<'p, 's, A: AllocHandle>(pub(crate) &'p Parts<'s, A>);

impl<'p, 's, A: AllocHandle> PartOrder for ByProcess<'p, 's, A> {
    ghost use Rattle.kept_parts.specs.ByProcess.{by_process, by_process_total};

    ghost order = { λ parts. by_process parts.0.now };

    ghost total = { λ parts. by_process_total parts.0.now };

    fn compare(&self, part: PartId, other: PartId) -> Ordering {
        self.0.compare(part, other)
    }
}

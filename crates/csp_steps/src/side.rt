//! Processes as parts of a composition.

use crate::rule_step::{RuleStep, Target};
use csp_term::AllocHandle;

/// A process that a rule looks at: itself, if it is within the limits, and its steps.
#[derive(Drop)]
pub struct Side<A: AllocHandle> {
    /// The process, or that it is past the limits.
    pub process: Target<A>,
    /// All its steps by the rules, in no order. One may be there more than once.
    pub steps: Vec<RuleStep<A>, A>,
}

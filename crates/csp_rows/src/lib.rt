//! Steps of terms by numbers, put in order, and rows of parts fired by them.
//!
//! A term is a shape, of the operators that stay where a process inside them takes a step, with a part in each hole.
//! Events and parts have numbers here, a set of events is a bit for each number, and a step of a term is an action with
//! the parts that take the places of others: so its steps are put together of those of its parts (`shape_steps`), and
//! put in the order of the definitions, each target once (`put_in_order`), without the term being looked at. What a step
//! leads to is spelled by the bytes of the term with the spellings of the new parts in their places, and what these
//! measure tells whether it is within the limits.
//!
//! A row is a term that is lent by its shape, by the numbers of its parts and by its bytes. `fire_row` answers exactly
//! what firing its term gives, or that the term is large; `split` finds the parts of a row in its bytes. That this is so
//! is told by two files of laws: `order_laws`, of the order of steps by numbers, and `row_laws`, of what is known of a
//! row by its parts.
#![tactic(auto)]

mod actions;
mod alone;
mod bits;
mod changes;
mod composed;
mod firing;
mod framed;
mod hole;
mod limits;
mod numbers;
mod offers;
mod order;
pub mod order_laws;
mod part;
mod places;
mod row;
pub mod row_laws;
mod shape;
mod split_laws;
mod splitting;
mod stack;
mod step;
mod steps;
mod targets;
mod together;

pub use actions::actions_of;
pub use bits::Bits;
pub use changes::{Change, Run};
pub use composed::SideBits;
pub use firing::fire_row;
pub use framed::{Frame, Images};
pub use limits::fits;
pub use numbers::{ActionId, EventId, PartId};
pub use offers::offers_of;
pub use order::{PartOrder, Ranks};
pub use part::Part;
pub use places::{Place, target};
pub use row::{RowByNumbers, RowForm, RowStep};
pub use shape::{Shape, shape_steps};
pub use split_laws::split_rows_are_terms;
pub use splitting::{SplitRow, split};
pub use step::{PartStep, Step, keep_shape};
pub use steps::put_in_order;

//! What the parser is seen to do: the trees of accepted texts by kind of production, the refusals of others
//! with their places, which tokens may stand behind each beginning, heights at and over the limit, a longer
//! script cut behind each token, and refused memory.
//!
//! The tests stand in a crate above the parser, since a crate is proved anew for the tests that it has of its own.
#![tactic(auto)]

#[cfg(test)]
mod declaration_beginnings;
#[cfg(test)]
mod declarations;
#[cfg(test)]
mod expression_beginnings;
#[cfg(test)]
mod expressions;
#[cfg(test)]
mod follows;
#[cfg(test)]
mod heights;
#[cfg(test)]
mod memory;
#[cfg(test)]
mod mixed;
#[cfg(test)]
mod operand_beginnings;
#[cfg(test)]
mod out_of_place;
#[cfg(test)]
mod process_beginnings;
#[cfg(test)]
mod processes;
#[cfg(test)]
mod refusals;
#[cfg(test)]
mod refused_declarations;
#[cfg(test)]
mod rows;
#[cfg(test)]
mod show;
#[cfg(test)]
mod show_script;
#[cfg(test)]
mod texts;
#[cfg(test)]
mod worked;

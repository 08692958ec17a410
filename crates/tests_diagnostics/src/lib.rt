//! What messages on refused texts are seen to be made of, and command lines of both programs. The messages of whole texts are
//! cases of `cases`. What is expected is written by hand, from the definitions and from what a reader needs to be told.
#![tactic(auto)]

#[cfg(test)]
mod advice;
#[cfg(test)]
mod around;
#[cfg(test)]
mod characters;
#[cfg(test)]
mod command_lines;
#[cfg(test)]
mod command_lines_of_refcheck;
#[cfg(test)]
mod excerpts_shown;
#[cfg(test)]
mod memory;
#[cfg(test)]
mod messages;
#[cfg(test)]
mod nearest_names;
#[cfg(test)]
mod refusals;

//! What searches by several workers are seen to do: that each worker draws, and goes on while another is held, that a
//! worker keeps its firing from level to level, that the answer is the same in whichever order they put, what one worker
//! posts, and what refused memory leaves.
#![tactic(auto)]

#[cfg(test)]
mod boards;
#[cfg(test)]
mod boards_of_two;
#[cfg(test)]
mod counting;
#[cfg(test)]
mod early_end;
#[cfg(test)]
mod gates;
#[cfg(test)]
mod gathering;
mod held;
#[cfg(test)]
mod levels;
#[cfg(test)]
mod outcomes;
#[cfg(test)]
mod posts;
#[cfg(test)]
mod scripts;
#[cfg(test)]
mod seen;
#[cfg(test)]
mod seventy_rows;
#[cfg(test)]
mod worker;

//! What `act`, `multiply` and `sample` answer, by the program over a store and files in memory.
#![tactic(auto)]

#[cfg(test)]
mod refused;
#[cfg(test)]
mod runs;
#[cfg(test)]
mod samples;
#[cfg(test)]
mod sums;

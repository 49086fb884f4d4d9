//! What `trees` and `compute` answer for equations that people know and for files of examples/, and
//! for files that they refuse.
#![tactic(auto)]

#[cfg(test)]
mod examples;
#[cfg(test)]
mod files;
#[cfg(test)]
mod known;
#[cfg(test)]
mod refused;
#[cfg(test)]
mod reports;
#[cfg(test)]
mod runs;

//! Commands over a store, one after the other: what is kept, what is reused, and what is refused;
//! over a keeper in memory, and over a database.
#![tactic(auto)]

#[cfg(test)]
mod commands;
#[cfg(test)]
mod drawn;
#[cfg(test)]
mod faults;
#[cfg(test)]
mod files;
#[cfg(test)]
mod keepers;
#[cfg(test)]
mod model;
#[cfg(test)]
mod projects;
#[cfg(test)]
mod reused;
#[cfg(test)]
mod runs;
#[cfg(test)]
mod versions;

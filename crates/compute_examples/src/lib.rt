//! Reports of equations that people know, and files of which a quantity is too large.
#![tactic(auto)]

#[cfg(test)]
mod reports;

//! Examples of files: each fault, each limit at its number and one past it, what comes first, and equations that people know; and the lines of refusals.
#![tactic(auto)]

#[cfg(test)]
mod counts;
#[cfg(test)]
mod examples;
#[cfg(test)]
mod files;
#[cfg(test)]
mod order;
#[cfg(test)]
mod refusals;
#[cfg(test)]
mod tables;
#[cfg(test)]
mod values;

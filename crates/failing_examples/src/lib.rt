//! Hostile use of the workbench, over objects in memory: each call of the files, of the store, of
//! the two streams and of the door fails in turn, and words and rows are what nobody would write.
#![tactic(auto)]

#[cfg(test)]
mod commands;
#[cfg(test)]
mod each_call;
#[cfg(test)]
mod hostile;
#[cfg(test)]
mod kept;
#[cfg(test)]
mod runs;
#[cfg(test)]
mod single;
#[cfg(test)]
mod stores;

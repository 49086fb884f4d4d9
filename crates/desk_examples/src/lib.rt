//! The desk over a store in memory: what each request is answered, and what it leaves in the store.
#![tactic(auto)]

#[cfg(test)]
mod asked;
#[cfg(test)]
mod hostile;
#[cfg(test)]
mod routes;
#[cfg(test)]
mod served;

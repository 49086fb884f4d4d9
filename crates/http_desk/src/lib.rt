//! The desk over HTTP: one connection after the other, each with one request, which is read until
//! its response is decided, and answered by a clerk.
#![tactic(auto)]

mod clerk;
mod connection;
mod reading;
mod replies;
mod response;
mod serving;
#[cfg(test)]
mod tests;

pub use clerk::{Clerk, Reply};
pub use connection::{Served, attend};
pub use serving::{ServeFault, serve};

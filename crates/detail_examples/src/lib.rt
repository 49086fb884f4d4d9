//! Details of trees of the KPZ equation and of an equation with two noises, as whole texts, and what is refused.
#![tactic(auto)]

#[cfg(test)]
mod details;
#[cfg(test)]
mod refused;

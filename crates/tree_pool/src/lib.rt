//! Trees and forests by number, each once. Arena and hashed sets are this crate's own: what stands
//! above sees a list of canonical trees.
#![tactic(auto)]

mod degree;
mod error;
mod forest;
mod forest_order;
mod laws;
mod lists;
mod made;
mod measures;
mod node;
mod order;
mod plain;
mod pool;
mod sort;

pub use error::PoolError;
pub use forest::{ForestId, ForestPool};
pub use laws::{fit_laws, forest_laws, order_laws, product_laws};
pub use node::{EdgeTo, TreeId};
pub use pool::Pool;

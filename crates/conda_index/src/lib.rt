//! The index of channels: the pools of names, the names that a request can meet, and search.
#![tactic(auto)]

mod conditions;
mod error;
mod gather;
mod index;
mod laws;
mod names;
mod order;
mod pools;
mod search;
mod virtuals;

pub use conditions::{INDEX_LIMIT, can_index};
pub use error::IndexErr;
pub use index::Index;
pub use laws::{index_laws, order_laws};
pub use names::is_virtual_name;
pub use virtuals::Virtual;

//! Goods by their paths, and the union of the goods of several owners, or where two of them
//! conflict.
#![tactic(auto)]

mod claims;
mod conflict;
mod error;
mod goods;
mod held;
mod merge;
mod owned;
mod owner;

pub use error::GoodsErr;
pub use goods::Goods;
pub use merge::union;
pub use owned::Owned;
pub use owner::Owner;

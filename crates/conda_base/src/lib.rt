//! Texts, bytes and lists as contracts see them: by what they hold, not by how much room they have.
#![tactic(auto)]

mod ascending;
mod bytes;
mod copied;
mod cut;
mod number;
mod rows;
mod text;

pub use ascending::ascending_laws;
pub use bytes::Bytes;
pub use copied::{Copied, copied_all};
pub use cut::{cut_first, cut_last, cut_laws};
pub use number::{digits_u64, number_laws, read_digits, read_number, read_u64};
pub use rows::Rows;
pub use text::Text;

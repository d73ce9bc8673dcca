//! Replacing the placeholder of a package's files by the prefix that they are linked to, after
//! conda's `portability.py`.
#![tactic(auto)]

mod binary;
mod error;
mod text;

pub use binary::replace_binary;
pub use error::PrefixErr;
pub use text::replace_text;

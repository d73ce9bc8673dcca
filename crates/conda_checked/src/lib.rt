//! Reads whose files are counted where they are absent or differ: handles on channels and on the
//! cache that check the size and the digest of what they read.
#![tactic(auto)]

mod channel;
mod checked;
mod error;
mod lack;
mod store;

pub use checked::Checked;
pub use error::CheckErr;
pub use lack::{Lack, Lacks};

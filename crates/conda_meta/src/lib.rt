//! The meta files of an environment: what each revision changed and the record of each linked
//! package, read and written, and what the revisions leave together.
#![tactic(auto)]

mod agreement;
mod error;
mod folding;
mod good;
mod laws;
mod linked;
mod named;
mod prefix;
mod record_field;
mod requested;
mod revision;
mod writing;

pub use error::{MetaErr, MetaField};
pub use folding::{Folded, fold};
pub use laws::meta_laws;
pub use linked::Linked;
pub use prefix::{prefix_read, prefix_text};
pub use revision::Revision;

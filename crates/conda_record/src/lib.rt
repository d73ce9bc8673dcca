//! Records of packages: what a channel says of a package, and the object that stands for it in the
//! files of an environment.
#![tactic(auto)]

mod error;
mod fields;
mod laws;
mod noarch;
mod pkg_record;
mod pool;
mod reading;
mod spec_list;
mod writing;

pub use error::{RecordErr, RecordField};
pub use laws::record_laws;
pub use noarch::Noarch;
pub use pkg_record::PkgRecord;
pub use pool::NamePool;

//! Where the packages of a command come from: the channels that it names, and the virtual packages of
//! the machine.
#![tactic(auto)]

mod channel;
mod channels;
mod error;
mod laws;
mod sources;
mod virtuals;

pub use channel::{REPODATA_LIMIT, read_channel};
pub use channels::read_channels;
pub use error::SourceErr;
pub use laws::virtual_laws;
pub use sources::index_of;
pub use virtuals::virtual_list;

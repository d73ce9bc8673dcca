//! Changes of the files of one lane, and their exact undoing.
#![tactic(auto)]

mod change;
mod laws;
mod moving;
mod purging;
mod putting;
mod step;
mod supply;
mod undoing;

pub use change::Change;
pub use laws::{share_laws, undo_laws};
pub use moving::move_out;
pub use purging::purge;
pub use putting::put_in;
pub use supply::{Cause, Given, Stopped, Supply, SupplyErr};
pub use undoing::{undo, undo_moves, undo_puts};

//! Packages of Python code that fit every platform: their link files, where their files go in an
//! environment, and the scripts that start their programs.
#![tactic(auto)]

mod error;
mod info;
mod laws;
mod names;
mod placing;
mod script;

pub use error::LinkErr;
pub use info::{EntryPoint, LinkInfo};
pub use laws::{link_laws, place_laws};
pub use placing::{place, python_of};
pub use script::script_text;

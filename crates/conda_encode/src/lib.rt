//! Requests as clauses: which packages of the pools can be chosen together, written for a solver.
#![tactic(auto)]

mod asked;
mod clauses;
mod cut;
mod encoded;
mod encoding;
mod error;
mod known;
mod laws;
mod marks;
mod matching;
mod once;
mod pools;
mod reach;
mod request;
mod write;
mod written;

pub use asked::{AskKind, Asked};
pub use cut::set_of;
pub use encoded::{Encoded, Why};
pub use encoding::{clauses_of, encode};
pub use error::EncodeErr;
pub use known::{place_of, places_of, starts_of};
pub use laws::encode_laws;
pub use matching::{is_lowered, names_record};
pub use pools::flat;
pub use request::{is_request, need_plainly};

//! JSON as the readers above see it: what bytes mean, the fields of an object, and the compact
//! text of a value. The reading is RFC 8259's as `serde_json` takes it.
#![tactic(auto)]

mod error;
mod fields;
mod laws;
mod optional;
mod required;
mod text;

pub use error::JsonErr;
pub use fields::{list_of, number_of, object_of, text_of};
pub use laws::json_laws;
pub use optional::{
    Null, optional_list, optional_members, optional_number, optional_object, optional_text,
    optional_truth,
};
pub use required::{
    BadField, element_text, list_field, members_field, number_field, object_field, text_field,
    texts_field, truth_field,
};
pub use serde_json::{Map, Value};
pub use text::{compact, parse, parse_object};

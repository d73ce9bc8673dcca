//! Plans of failing calls, nodes, trees and answers as text, for the rows of devices and of whole
//! commands.
#![tactic(auto)]

mod answers;
mod handles;
mod nodes;
mod plan;

pub use answers::{cached, path_of, shown_abilities, shown_node, shown_paths, shown_seen, word};
pub use handles::{first_word, key_of, run_chan, run_store, shown_bytes, shown_look};
pub use nodes::{kind_word, named_nodes, node_of, shown_tree, tree_of};
pub use plan::{plan_of, stop_at};

ghost use Rattle.std.specs.Prelude.{IfOk, IfSome};
ghost use Rattle.conda_lane.specs.Changes.{AreApart};

use crate::checks::are_apart;
use crate::shelf::{Shelf, Stock, good_of};
use conda_lane::Change;
use conda_path::{Node, RelPath};
use rows_plan::{first_word, node_of};
use std::alloc::{AllocError, Global};

/// A change, and its new node, if there is one.
#[derive(Drop)]
struct Edit {
    change: Change,
    node: Option<Node>,
}

/// The change of a text.
fn edit_of(alloc: Global, text: &str) -> Result<Option<Edit>, AllocError> {
    let (path, rest) = first_word(text);
    let (kind, rest) = first_word(rest);
    let Ok(path) = RelPath::read(alloc, path) else {
        return Ok(None);
    };
    if kind == "removed" {
        let Ok(trash) = RelPath::read(alloc, rest) else {
            return Ok(None);
        };
        let change = Change {
            path,
            old: true,
            new: None,
            trash,
        };
        return Ok(Some(Edit { change, node: None }));
    }
    let Some((trash, node)) = node_of(alloc, rest)? else {
        return Ok(None);
    };
    let new = Some(good_of(path.clone()?, &node));
    let change = Change {
        path,
        old: kind == "replaced",
        new,
        trash,
    };
    Ok(Some(Edit {
        change,
        node: Some(node),
    }))
}

/// The changes of a text; None where one isn't of the form, or a path is named twice.
pub fn changes_of(alloc: Global, texts: &str) -> Result<Option<Vec<Change>>, AllocError>
    ensures { IfOk result (λ found. IfSome found (λ changes. AreApart changes.items)) }
{
    let mut changes = Vec::new(alloc);
    for text in texts.split(';') {
        match edit_of(alloc, text.trim())? {
            Some(edit) => changes.push(edit.change)?,
            None => return Ok(None),
        }
    }
    if !are_apart(changes.as_slice()) {
        return Ok(None);
    }
    Ok(Some(changes))
}

/// How a text says that the node of a path is given.
fn word_for<'a>(supply: &'a str, path: &RelPath) -> &'a str {
    for entry in supply.split(';') {
        let (named, word) = first_word(entry.trim());
        if named == path.as_str() {
            return word;
        }
    }
    ""
}

/// The supply of the new nodes of a text of changes, as a second text says.
pub fn shelf_of(alloc: Global, texts: &str, supply: &str) -> Result<Option<Shelf>, AllocError> {
    let mut stock = Stock::new(alloc);
    for text in texts.split(';') {
        let Some(edit) = edit_of(alloc, text.trim())? else {
            return Ok(None);
        };
        let Edit { change, node } = edit;
        if let (Some(good), Some(node)) = (change.new, node) {
            let word = word_for(supply, &good.path);
            stock.lay(alloc, good, node, word)?;
        }
    }
    Ok(Shelf::make(stock))
}

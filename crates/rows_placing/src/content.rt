ghost use Rattle.std.specs.Prelude.{IsTrue};
ghost use Rattle.conda_placing.specs.Content.{HasOrigin};
ghost use Rattle.conda_placing.specs.Placing.{IsReadPackage};

use crate::words::{kind_of, kind_word, refusal};
use conda_path::{Kind, Node, Prefix, RelPath};
use conda_paths::RowKind;
use conda_placing::{Origin, Package, Placing, content};
use std::alloc::{AllocError, Global};

/// Where a placing is from: a word, `row` or `entry`, and a number.
fn origin_of(text: &str) -> Option<Origin> {
    let (word, number) = text.split_once(' ')?;
    let Ok(at) = number.parse::<usize>() else {
        return None;
    };
    match word {
        "row" => Some(Origin::Row(at)),
        "entry" => Some(Origin::Entry(at)),
        _ => None,
    }
}

/// The kind of a placing and where it is from.
fn place_of(text: &str) -> Option<(Kind, Origin)> {
    let (kind, from) = text.split_once(' ')?;
    Some((kind_of(kind)?, origin_of(from)?))
}

fn has_origin(pkg: &Package, from: Origin) -> bool
    ensures { IsTrue result → HasOrigin pkg.now from }
{
    match from {
        Origin::Row(at) => match pkg.listing.rows.as_slice().get(at) {
            Some(row) => row.kind != RowKind::Folder,
            None => false,
        },
        Origin::Entry(at) => at < pkg.link.entries.len(),
    }
}

/// What stands at a place of a package in an environment with this prefix.
pub fn filled(
    alloc: Global,
    pkg: &Package,
    place: &str,
    prefix: &str,
    bytes: Vec<u8>,
) -> Result<Option<String>, AllocError>
    requires { IsReadPackage pkg.now }
{
    let Some((kind, from)) = place_of(place) else {
        return Ok(None);
    };
    let Ok(prefix) = Prefix::read(alloc, prefix) else {
        return Ok(None);
    };
    if has_origin(pkg, from) {
        Ok(Some(filled_at(alloc, pkg, kind, from, &prefix, bytes)?))
    } else {
        Ok(None)
    }
}

fn filled_at(
    alloc: Global,
    pkg: &Package,
    kind: Kind,
    from: Origin,
    prefix: &Prefix,
    bytes: Vec<u8>,
) -> Result<String, AllocError>
    requires package { IsReadPackage pkg.now }
    requires origin { HasOrigin pkg.now from }
{
    match RelPath::read(alloc, "placed") {
        Ok(path) => content_of(alloc, pkg, &Placing { path, kind, from }, prefix, bytes),
        Err(_) => Err(AllocError),
    }
}

fn content_of(
    alloc: Global,
    pkg: &Package,
    placing: &Placing,
    prefix: &Prefix,
    bytes: Vec<u8>,
) -> Result<String, AllocError>
    requires package { IsReadPackage pkg.now }
    requires origin { HasOrigin pkg.now placing.now.from }
{
    match content(alloc, pkg, placing, prefix, bytes) {
        Ok(node) => shown_node(alloc, &node),
        Err(error) => refusal(alloc, &error),
    }
}

/// The kind and the number of bytes, and where they are few the bytes, each NUL as `\0`.
fn shown_node(alloc: Global, node: &Node) -> Result<String, AllocError> {
    let bytes = node.bytes.as_slice();
    let mut text = format!(in alloc; "{} {} bytes", kind_word(node.kind), bytes.len())?;
    if bytes.len() > 2_000 {
        return Ok(text);
    }
    text.push_str(" \"")?;
    for byte in bytes {
        push_byte(&mut text, *byte)?;
    }
    text.push('"')?;
    Ok(text)
}

fn push_byte(text: &mut String, byte: u8) -> Result<(), AllocError> {
    match byte {
        0 => text.push_str("\\0"),
        b'\n' => text.push_str("\\n"),
        b'\\' => text.push_str("\\\\"),
        byte => text.push(char::from(byte)),
    }
}

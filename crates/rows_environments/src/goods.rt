ghost use Rattle.std.specs.Prelude.{◌≡◌, ◌≢◌, IfOk, IfSome};
ghost use Rattle.std.specs.List.{AllPairs, list_any};
ghost use Rattle.conda_base.specs.Texts.{is_text};
ghost use Rattle.conda_goods.specs.Claims.{same_owner};
ghost use Rattle.conda_goods.specs.Conflicts.{OwnersRepeatNoPath};

use conda_base::{Copied, Text};
use conda_goods::{Goods, GoodsErr, Owned, Owner, union};
use conda_path::{Digest, Dist, Good, Kind, RelPath};
use std::alloc::{AllocError, Global};

/// The rows of conda_goods. A part is its owner, `-` for the part of nobody, and its paths; the last
/// argument of `union` has the other paths.
pub fn answer(alloc: Global, call: &str, arguments: &[Text]) -> Result<Option<String>, AllocError> {
    match (call, arguments) {
        ("goods", [paths]) => goods(alloc, paths.as_str()),
        ("union", [parts @ .., others]) => joined(alloc, parts, others.as_str()),
        ("union.many", [count]) => many(alloc, count.as_str()),
        _ => Ok(None),
    }
}

/// Whether one of the goods has the path.
fn has_path(goods: &[Good], path: &RelPath) -> bool
    ensures { result ≡ list_any (λ good. is_text good.path path.now) goods.now }
{
    for good in goods {
        if good.path == *path {
            return true;
        }
    }
    false
}

/// Goods with these paths, parted by spaces, each with the number of those before it as its size;
/// None where one is no path, or stands twice.
fn read_goods(alloc: Global, paths: &str) -> Result<Option<Vec<Good>>, AllocError>
    ensures { IfOk result (λ found. IfSome found
        (λ goods. AllPairs (λ a b. a.path ≢ b.path) goods.items)) }
{
    let mut goods = Vec::new(alloc);
    for (size, text) in paths.split_whitespace().enumerate() {
        let Ok(path) = RelPath::read(alloc, text) else {
            return Ok(None);
        };
        if has_path(goods.as_slice(), &path) {
            return Ok(None);
        }
        goods.push(Good {
            path,
            kind: Kind::File,
            size: size as u64,
            digest: Digest { bytes: [7; 32] },
        })?;
    }
    Ok(Some(goods))
}

/// The paths of goods, each with its size.
fn shown(alloc: Global, goods: &Goods) -> Result<Option<String>, AllocError> {
    let mut made = String::from_str(alloc, "goods")?;
    for good in goods.list() {
        let size = good.size;
        let path = good.path.as_str();
        made.push_str(format!(in alloc; " {path} {size}")?.as_str())?;
    }
    Ok(Some(made))
}

fn goods(alloc: Global, paths: &str) -> Result<Option<String>, AllocError> {
    match read_goods(alloc, paths)? {
        Some(goods) => shown(alloc, &Goods::make(goods)?.copy()?),
        None => Ok(None),
    }
}

/// The owner that a word names.
fn read_owner(alloc: Global, word: &str) -> Option<Owner> {
    match word {
        "-" => Some(Owner::Other),
        text => match Dist::read(alloc, text) {
            Ok(dist) => Some(Owner::Dist(dist)),
            Err(_) => None,
        },
    }
}

/// The goods of an owner.
fn read_part(alloc: Global, text: &str) -> Result<Option<Owned>, AllocError> {
    let (word, paths) = match text.split_once(' ') {
        Some(cut) => cut,
        None => (text, ""),
    };
    let Some(owner) = read_owner(alloc, word) else {
        return Ok(None);
    };
    match read_goods(alloc, paths)? {
        Some(goods) => Ok(Some(Owned {
            owner,
            goods: Goods::make(goods)?,
        })),
        None => Ok(None),
    }
}

/// Whether one of the parts has the owner.
fn has_owner(parts: &[Owned], owner: &Owner) -> bool
    ensures { result ≡ list_any (λ part. same_owner part.owner owner.now) parts.now }
{
    for part in parts {
        if part.owner == *owner {
            return true;
        }
    }
    false
}

/// The parts, of which no two have one owner.
fn read_parts(alloc: Global, texts: &[Text]) -> Result<Option<Vec<Owned>>, AllocError>
    ensures { IfOk result (λ found. IfSome found (λ parts. OwnersRepeatNoPath parts.items)) }
{
    let mut parts = Vec::new(alloc);
    for text in texts {
        let Some(part) = read_part(alloc, text.as_str())? else {
            return Ok(None);
        };
        if has_owner(parts.as_slice(), &part.owner) {
            return Ok(None);
        }
        parts.push(part)?;
    }
    Ok(Some(parts))
}

/// The paths that are parted by spaces.
fn read_paths(alloc: Global, texts: &str) -> Result<Option<Vec<RelPath>>, AllocError> {
    let mut paths = Vec::new(alloc);
    for text in texts.split_whitespace() {
        match RelPath::read(alloc, text) {
            Ok(path) => paths.push(path)?,
            Err(_) => return Ok(None),
        }
    }
    Ok(Some(paths))
}

fn owner_text(owner: &Owner) -> &str {
    match owner {
        Owner::Dist(dist) => dist.text(),
        Owner::Other => "other",
    }
}

fn joined(alloc: Global, parts: &[Text], others: &str) -> Result<Option<String>, AllocError> {
    let (Some(parts), Some(others)) = (read_parts(alloc, parts)?, read_paths(alloc, others)?) else {
        return Ok(None);
    };
    match union(alloc, parts.as_slice(), others.as_slice()) {
        Ok(goods) => shown(alloc, &goods),
        Err(
            GoodsErr::Clobber {
                path,
                first,
                second,
            },
        ) => {
            let path = path.as_str();
            let first = owner_text(&first);
            let second = owner_text(&second);
            Ok(Some(format!(in alloc; "conflict {path} {first} {second}")?))
        }
        Err(GoodsErr::Memory) => Err(AllocError),
    }
}

/// An owner with so many paths in one folder.
fn crowd(alloc: Global, owner: &str, folder: &str, count: u16) -> Result<Text, AllocError> {
    let mut text = String::from_str(alloc, owner)?;
    for number in 0..count {
        text.push_str(format!(in alloc; " {folder}/{number}")?.as_str())?;
    }
    Ok(Text::from_string(text))
}

/// How many goods the union of two owners with so many paths each has.
fn many(alloc: Global, count: &str) -> Result<Option<String>, AllocError> {
    let Ok(count) = count.parse::<u16>() else {
        return Ok(None);
    };
    let mut texts = Vec::new(alloc);
    texts.push(crowd(alloc, "b-1-0", "lib", count)?)?;
    texts.push(crowd(alloc, "a-1-0", "bin", count)?)?;
    let Some(parts) = read_parts(alloc, texts.as_slice())? else {
        return Ok(None);
    };
    match union(alloc, parts.as_slice(), &[]) {
        Ok(goods) => {
            let count = goods.list().len();
            Ok(Some(format!(in alloc; "{count} goods")?))
        }
        Err(_) => Ok(None),
    }
}

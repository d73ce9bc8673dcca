ghost use Rattle.std.specs.Prelude.{◌≡◌, [], ◌∷◌, IfOk};
ghost use Rattle.conda_meta.specs.Shows as shows;
ghost use Rattle.conda_moves.specs.Coming as coming;

use conda_base::Copied;
use conda_goods::{Goods, Owned, Owner};
use conda_meta::{Linked, Revision, prefix_text};
use conda_path::{Dist, Good, Kind, RelPath};
use conda_paths::digest;
use std::alloc::{AllocError, Global};

/// The path that a text spells. The text is a path, so that it lacks memory alone.
fn path_of(alloc: Global, text: &str) -> Result<RelPath, AllocError>
    ensures { IfOk result (λ path. path ≡ text.now) }
{
    match RelPath::read(alloc, text) {
        Ok(path) => Ok(path),
        Err(_) => Err(AllocError),
    }
}

/// The path of a package's meta file.
pub fn prefix_path(alloc: Global, dist: &Dist) -> Result<RelPath, AllocError>
    ensures { IfOk result (λ path. path ≡ shows.prefix_path dist.now) }
{
    path_of(
        alloc,
        format!(in alloc; "conda-meta/{}.json", dist.text())?.as_str(),
    )
}

/// The path of a revision's meta file.
fn revision_path(alloc: Global, number: u32) -> Result<RelPath, AllocError>
    ensures { IfOk result (λ path. path ≡ shows.revision_path number) }
{
    path_of(
        alloc,
        format!(in alloc; "conda-meta/revisions/{number}.json")?.as_str(),
    )
}

/// What a file with this text has to show.
fn text_good(path: RelPath, text: &[u8]) -> Good
    ensures { result ≡ coming.text_good path text.now }
{
    Good {
        path,
        kind: Kind::File,
        size: text.len() as u64,
        digest: digest(text),
    }
}

/// The part that one good is.
fn part_of(alloc: Global, owner: Owner, good: Good) -> Result<Owned, AllocError>
    ensures { IfOk result (λ part. part ≡ record { owner = owner; goods = good ∷ [] }) }
{
    let mut goods = Vec::new(alloc);
    goods.push(good)?;
    Ok(Owned {
        owner,
        goods: Goods::make(goods)?,
    })
}

/// A package's meta file, as its part.
fn file_part(alloc: Global, one: &Linked) -> Result<Owned, AllocError>
    ensures { IfOk result (λ part. part ≡ coming.file_part one.now) }
{
    let path = prefix_path(alloc, &one.rec.dist)?;
    let text = match prefix_text(alloc, one) {
        Ok(text) => text,
        Err(_) => return Err(AllocError),
    };
    let owner = Owner::Dist(one.rec.dist.copy()?);
    part_of(alloc, owner, text_good(path, text.as_slice()))
}

/// The revision's meta file, as nobody's part.
fn revision_part(alloc: Global, number: u32, revision: &Revision) -> Result<Owned, AllocError>
    ensures { IfOk result (λ part. part ≡ coming.revision_part number revision.now) }
{
    let path = revision_path(alloc, number)?;
    let text = match revision.text(alloc) {
        Ok(text) => text,
        Err(_) => return Err(AllocError),
    };
    part_of(alloc, Owner::Other, text_good(path, text.as_slice()))
}

/// The new meta files: of each package that the revision links, and of the revision.
pub fn new_files(alloc: Global, number: u32, revision: &Revision) -> Result<Vec<Owned>, AllocError>
    ensures { IfOk result (λ parts. parts.items ≡ coming.new_files number revision.now) }
{
    let mut parts = Vec::new(alloc);
    for one in revision.linked.as_slice() {
        parts.push(file_part(alloc, one)?)?;
    }
    parts.push(revision_part(alloc, number, revision)?)?;
    Ok(parts)
}

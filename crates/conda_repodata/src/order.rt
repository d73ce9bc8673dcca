ghost use Rattle.std.specs.Prelude.{◌≡◌, IfOk, OnOk, map};
ghost use Rattle.std.specs.Cmp.Lexicographic.{slice_cmp};
ghost use Rattle.std.specs.Ordering.{nat_cmp};
ghost use Rattle.conda_repodata.specs.Ascending.{ascending};
ghost use Rattle.conda_repodata.specs.Entries.{aside_of, dist_of, place_cmp, place_of};

use crate::aside::{Aside, Unread};
use conda_base::Rows;
use conda_record::PkgRecord;
use std::alloc::{AllocError, Global};
use std::cmp::Ordering;

/// Puts records in the order of their dists; of several of one dist the first stays.
pub fn put_by_dist(records: &mut Vec<PkgRecord>) -> Result<(), AllocError>
    ensures { OnOk result (records.new.items
        ≡ ascending (slice_cmp nat_cmp) dist_of records.old.items) }
{
    records.sort_by(
        |first: &PkgRecord, second: &PkgRecord| -> Ordering
            ensures { result ≡ slice_cmp nat_cmp first.now.dist second.now.dist }
        { first.dist.cmp(&second.dist) },
    )?;
    records.dedup_by(|next: &mut PkgRecord, kept: &mut PkgRecord| next.dist == kept.dist);
    Ok(())
}

/// By the name of the file, then by the object.
fn compare(first: &Unread, second: &Unread) -> Ordering
    ensures { result ≡ place_cmp (place_of first.now) (place_of second.now) }
{
    first
        .file
        .cmp(&second.file)
        .then(first.section.cmp(&second.section))
}

/// Puts entries that are set aside in the order of their files.
pub fn put_by_file(unread: &mut Vec<Unread>) -> Result<(), AllocError>
    ensures { OnOk result (unread.new.items
        ≡ ascending place_cmp place_of unread.old.items) }
{
    unread.sort_by(
        |first: &Unread, second: &Unread| -> Ordering
            ensures { result ≡ place_cmp (place_of first.now) (place_of second.now) }
        { compare(first, second) },
    )?;
    unread.dedup_by(|next: &mut Unread, kept: &mut Unread| compare(next, kept).is_eq());
    Ok(())
}

/// What is said of entries that are set aside.
pub fn asides(alloc: Global, unread: Vec<Unread>) -> Result<Rows<Aside>, AllocError>
    ensures { IfOk result (λ rows. rows ≡ map aside_of unread.items) }
{
    let mut rows = Rows::new(alloc);
    for entry in unread {
        let Unread { file, field, .. } = entry;
        rows.push(Aside { file, field })?;
    }
    Ok(rows)
}

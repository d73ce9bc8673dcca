ghost use Rattle.std.specs.Prelude.{◌≡◌, ℕ, List, ◌∷◌, ◌++◌, [], All, IfOk, OnOk, Some, cond, nat_eq, true};
ghost use Rattle.std.specs.Prelude.{unwrap_or};
ghost use Rattle.std.specs.Cmp.Lexicographic.{pointwise};
ghost use Rattle.indexmap.specs.IndexMap.{get};
ghost use Rattle.conda_base.specs.Texts.{is_text};
ghost use Rattle.conda_path.specs.Dists.{is_dist};
ghost use Rattle.conda_record.specs.declared.pkg_record.PkgRecord.{PkgRecord};
ghost use Rattle.conda_index.specs.Pools.{given, virtual_dist};
ghost use Rattle.conda_index.specs.Gather as gather;
ghost use Rattle.conda_index.specs.Gather.{IsGathered, shown, virtual_records};
ghost use Rattle.conda_index.specs.Names.{name_of};

use crate::names::{is_virtual_name, lowered};
use crate::virtuals::{Virtual, record_of};
use conda_base::{Copied, Text};
use conda_record::PkgRecord;
use conda_repodata::Repodata;
use indexmap::IndexMap;
use std::alloc::{AllocError, Global};

/// The records that were met and aren't hidden, and the first channel of each name that was met,
/// in lower case.
#[derive(Drop)]
struct Gathered {
    firsts: IndexMap<Text, Text>,
    records: Vec<PkgRecord>,
}

/// Whether a channel is the first that has records of a name, which it is from now on if the name
/// is new.
fn is_first(
    firsts: &mut IndexMap<Text, Text>,
    name: Text,
    channel: &Text,
) -> Result<bool, AllocError>
    ensures first { IfOk result (λ first. first
        ≡ is_text channel.now (unwrap_or (get (pointwise nat_eq) firsts.old name) channel.now)) }
    ensures known { OnOk result ((other : List ℕ) → get (pointwise nat_eq) firsts.new other
        ≡ cond (pointwise nat_eq name other)
        (Some (unwrap_or (get (pointwise nat_eq) firsts.old name) channel.now))
        (get (pointwise nat_eq) firsts.old other)) }
{
    match firsts.get(&name) {
        Some(first) => Ok(channel == first),
        None => {
            firsts.insert(name, channel.copy()?)?;
            Ok(true)
        }
    }
}

/// Whether a record is kept: it is of its name's first channel, and its name isn't one of virtual
/// packages.
fn is_kept(
    alloc: Global,
    firsts: &mut IndexMap<Text, Text>,
    pkg: &PkgRecord,
) -> Result<bool, AllocError>
    ensures kept { IfOk result (λ kept. kept
        ≡ gather.is_kept (get (pointwise nat_eq) firsts.old (name_of pkg.now)) pkg.now) }
    ensures known { OnOk result ((other : List ℕ) → get (pointwise nat_eq) firsts.new other
        ≡ cond (pointwise nat_eq (name_of pkg.now) other)
        (Some (unwrap_or (get (pointwise nat_eq) firsts.old (name_of pkg.now)) pkg.now.channel))
        (get (pointwise nat_eq) firsts.old other)) }
{
    let name = lowered(alloc, pkg.name.as_str())?;
    let first = is_first(firsts, name, &pkg.channel)?;
    Ok(!is_virtual_name(pkg.name.as_str()) && first)
}

impl Gathered {
    /// Takes a record, if it is kept.
    fn take(&mut self, alloc: Global, pkg: PkgRecord) -> Result<(), AllocError>
        ensures { OnOk result ((before : List PkgRecord) → IsGathered before self.old →
            IsGathered (before ++ pkg ∷ []) self.new) }
    {
        if is_kept(alloc, &mut self.firsts, &pkg)? {
            self.records.push(pkg)?;
        }
        Ok(())
    }

    /// Takes the records of a part.
    fn take_part(&mut self, alloc: Global, part: Repodata) -> Result<(), AllocError>
        ensures { OnOk result ((before : List PkgRecord) → IsGathered before self.old →
            IsGathered (before ++ part.recs) self.new) }
    {
        let Repodata { recs, .. } = part;
        for pkg in recs.into_vec() {
            self.take(alloc, pkg)?;
        }
        Ok(())
    }
}

/// The records of the parts that aren't hidden, without those that have the names of virtual
/// packages.
pub fn shown_records(alloc: Global, parts: Vec<Repodata>) -> Result<Vec<PkgRecord>, AllocError>
    ensures { IfOk result (λ records. records.items ≡ shown (given parts.items)) }
{
    let mut gathered = Gathered {
        firsts: IndexMap::new(alloc),
        records: Vec::new(alloc),
    };
    for part in parts {
        gathered.take_part(alloc, part)?;
    }
    let Gathered { records, .. } = gathered;
    Ok(records)
}

/// Takes the records of the virtual packages that have the names of such.
pub fn take_virtuals(
    alloc: Global,
    virtuals: Vec<Virtual>,
    records: &mut Vec<PkgRecord>,
) -> Result<(), AllocError>
    requires { All (λ v. is_dist (virtual_dist v) ≡ true) virtuals.items }
    ensures { OnOk result (records.new.items ≡ records.old.items ++ virtual_records virtuals.items) }
{
    for virtual_package in virtuals {
        if is_virtual_name(virtual_package.name.as_str()) {
            records.push(record_of(alloc, virtual_package)?)?;
        }
    }
    Ok(())
}

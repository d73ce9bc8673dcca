ghost use Rattle.std.specs.Prelude.{◌≡◌, List, ℕ, IfOk, flat_map};
ghost use Rattle.std.specs.Option.{unwrap_or, option_map};
ghost use Rattle.std.specs.Result.{result_map_both};
ghost use Rattle.serde_json.specs.Data.{no_members};
ghost use Rattle.serde_json.specs.View.{members_view, view};
ghost use Rattle.conda_base.specs.Reads.{Gives};
ghost use Rattle.conda_repodata.specs.Parts.{record_in, unread_in};
ghost use Rattle.conda_repodata.specs.Reading.{all_records, all_unread, repodata_fault_of};
ghost use Rattle.conda_repodata.specs.Reading.{repodata_of, repodata_read, section_read};

use crate::aside::{Aside, Section};
use crate::error::{RepodataErr, RepodataField};
use crate::order::{asides, put_by_dist, put_by_file};
use crate::parts::read_all;
use crate::walk::{Entry, Found, add_entries};
use conda_base::{Copied, Rows};
use conda_json::{JsonErr, Map, Null, Value, optional_members, parse_object};
use conda_record::PkgRecord;
use std::alloc::{AllocError, Global};
use std::thread::Threads;

/// The packages of one subdir of a channel.
#[derive(Clone, Debug, Drop)]
pub struct Repodata {
    /// The records, ascending by their dists, none of which stands twice.
    pub recs: Rows<PkgRecord>,
    /// The entries that are no records, ascending by the names of their files. A name may stand
    /// twice, once of each object.
    pub aside: Rows<Aside>,
}

impl Copied for Repodata {
    fn copy(&self) -> Result<Repodata, AllocError> {
        self.clone()
    }
}

/// The members of one of the two objects, if it is there.
fn members(value: &Value, object: Section) -> Result<Option<&Map<String, Value>>, RepodataErr>
    ensures { Gives repodata_fault_of (result_map_both (λ found.
        unwrap_or (option_map (λ map. members_view map.now.entries) found) no_members) (λ e. e) result)
        (section_read (view value.now) object) }
{
    let (name, field) = match object {
        Section::Packages => ("packages", RepodataField::Packages),
        Section::PackagesConda => ("packages.conda", RepodataField::PackagesConda),
    };
    match optional_members(value, name, Null::Bad) {
        Ok(found) => Ok(found),
        Err(_) => Err(RepodataErr::BadRepodata { field }),
    }
}

/// The entries of both objects, those of `packages.conda` first.
fn entries_of<'a>(
    alloc: Global,
    packages: Option<&'a Map<String, Value>>,
    conda: Option<&'a Map<String, Value>>,
) -> Result<Vec<Entry<'a>>, AllocError>
    ensures records { (channel subdir : List ℕ) → IfOk result (λ made.
        flat_map (record_in channel subdir) made.items
        ≡ all_records channel subdir
        (unwrap_or (option_map (λ map. members_view map.now.entries) packages.entry) no_members)
        (unwrap_or (option_map (λ map. members_view map.now.entries) conda.entry) no_members)) }
    ensures unread { (channel subdir : List ℕ) → IfOk result (λ made.
        flat_map (unread_in channel subdir) made.items
        ≡ all_unread channel subdir
        (unwrap_or (option_map (λ map. members_view map.now.entries) packages.entry) no_members)
        (unwrap_or (option_map (λ map. members_view map.now.entries) conda.entry) no_members)) }
{
    let mut entries = Vec::new(alloc);
    if let Some(members) = conda {
        add_entries(&mut entries, Section::PackagesConda, members)?;
    }
    if let Some(members) = packages {
        add_entries(&mut entries, Section::Packages, members)?;
    }
    Ok(entries)
}

/// What an object means for the subdir of a channel.
fn read_object<R: Threads + Sync>(
    rt: &R,
    alloc: Global,
    value: &Value,
    channel: &str,
    subdir: &str,
) -> Result<Repodata, RepodataErr>
    ensures { Gives repodata_fault_of result
        (repodata_of (view value.now) channel.now subdir.now) }
{
    let packages = members(value, Section::Packages)?;
    let conda = members(value, Section::PackagesConda)?;
    let entries = entries_of(alloc, packages, conda)?;
    let Found {
        mut records,
        mut unread,
    } = read_all(rt, alloc, entries.as_slice(), channel, subdir)?;
    put_by_dist(&mut records)?;
    put_by_file(&mut unread)?;
    Ok(Repodata {
        recs: Rows::from_vec(records),
        aside: asides(alloc, unread)?,
    })
}

impl Repodata {
    /// Reads the text `repodata.json` of a subdir of a channel: an object in which `packages` and
    /// `packages.conda`, where they are there, are objects from the names of package files to
    /// records. Other fields are passed over.
    ///
    /// An entry whose file name isn't a dist followed by `.tar.bz2` or `.conda` is set aside with
    /// the field `fn`, and each other that `PkgRecord::read` refuses with the field that it names.
    /// Of several records of one dist one in `packages.conda` is taken before one in `packages`,
    /// and in one object the one whose file name ends with `.conda`; the rest are passed over. A
    /// timestamp of at most 253402300799 is in seconds, and is made one in milliseconds.
    ///
    /// `BadRepodata` has `json` where the bytes are no JSON object, and else the first of the two
    /// objects that is there and is none.
    ///
    /// Many entries are read in threads of `rt`.
    pub fn read<R: Threads + Sync>(
        rt: &R,
        alloc: Global,
        bytes: &[u8],
        channel: &str,
        subdir: &str,
    ) -> Result<Repodata, RepodataErr>
        ensures { Gives repodata_fault_of result
            (repodata_read bytes.now channel.now subdir.now) }
    {
        let value = match parse_object(alloc, bytes) {
            Ok(value) => value,
            Err(JsonErr::Memory) => return Err(RepodataErr::Memory),
            Err(_) => {
                return Err(RepodataErr::BadRepodata {
                    field: RepodataField::Json,
                });
            }
        };
        read_object(rt, alloc, &value, channel, subdir)
    }
}

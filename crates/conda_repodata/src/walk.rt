ghost use Rattle.std.specs.Prelude.{◌≡◌, ◌++◌, List, ℕ, [], IfOk, OnOk, flat_map};
ghost use Rattle.serde_json.specs.View.{members_view};
ghost use Rattle.conda_repodata.specs.Parts.{AreRead, record_in, unread_in};
ghost use Rattle.conda_repodata.specs.Reading.{records_of, unread_of};

use crate::aside::{Section, Unread};
use crate::entry::read_entry;
use conda_base::Text;
use conda_json::{Map, Value};
use conda_record::{PkgRecord, RecordErr};
use conda_spec::SpecTable;
use std::alloc::{AllocError, Global};

/// An entry: its object, the name of its file, and its value.
pub type Entry<'a> = (Section, &'a str, &'a Value);

/// What is found in entries.
#[derive(Debug, Drop)]
pub struct Found {
    pub records: Vec<PkgRecord>,
    pub unread: Vec<Unread>,
}

impl Found {
    fn new(alloc: Global) -> Found
        ensures records { result.records.items ≡ [] }
        ensures unread { result.unread.items ≡ [] }
    {
        Found {
            records: Vec::new(alloc),
            unread: Vec::new(alloc),
        }
    }

    /// Reads one more entry.
    fn add(
        &mut self,
        alloc: Global,
        table: &mut SpecTable,
        entry: &Entry,
        channel: &str,
        subdir: &str,
    ) -> Result<(), AllocError>
        ensures records { OnOk result (self.new.records.items
            ≡ self.old.records.items ++ record_in channel.now subdir.now entry.now) }
        ensures unread { OnOk result (self.new.unread.items
            ≡ self.old.unread.items ++ unread_in channel.now subdir.now entry.now) }
    {
        match read_entry(alloc, table, entry.1, entry.2, channel, subdir) {
            Ok(pkg) => self.records.push(pkg)?,
            Err(RecordErr::BadRecord { field }) => {
                let file = Text::from_str(alloc, entry.1)?;
                self.unread.push(Unread {
                    file,
                    section: entry.0,
                    field,
                })?;
            }
            Err(RecordErr::Memory) => return Err(AllocError),
        }
        Ok(())
    }
}

/// Puts the entries of an object behind others.
pub fn add_entries<'a>(
    entries: &mut Vec<Entry<'a>>,
    section: Section,
    members: &'a Map<String, Value>,
) -> Result<(), AllocError>
    ensures records { (channel subdir : List ℕ) → OnOk result
        (flat_map (record_in channel subdir) entries.new.items
        ≡ flat_map (record_in channel subdir) entries.old.items
        ++ records_of channel subdir (members_view members.now.entries)) }
    ensures unread { (channel subdir : List ℕ) → OnOk result
        (flat_map (unread_in channel subdir) entries.new.items
        ≡ flat_map (unread_in channel subdir) entries.old.items
        ++ unread_of section channel subdir (members_view members.now.entries)) }
{
    for (file, value) in members {
        entries.push((section, file.as_str(), value))?;
    }
    Ok(())
}

/// Reads entries in their order.
pub fn read_entries(
    alloc: Global,
    entries: &[Entry],
    channel: &str,
    subdir: &str,
) -> Result<Found, AllocError>
    ensures { IfOk result (AreRead channel.now subdir.now entries.now) }
{
    let mut table = SpecTable::new(alloc);
    let mut found = Found::new(alloc);
    for entry in entries {
        found.add(alloc, &mut table, entry, channel, subdir)?;
    }
    Ok(found)
}

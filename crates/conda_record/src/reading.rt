ghost use Rattle.serde_json.specs.View.{view};
ghost use Rattle.conda_base.specs.Reads.{Gives};
ghost use Rattle.conda_record.specs.Records.{record_fault_of, record_read};

use crate::error::{RecordErr, RecordField};
use crate::fields::{
    build_field, build_number_field, constrains_field, depends_field, dist_of, is_of_parts,
    name_field, subdir_field, timestamp_of, version_field,
};
use crate::noarch::noarch_of;
use crate::pkg_record::PkgRecord;
use conda_base::Text;
use conda_spec::SpecTable;
use serde_json::Value;
use std::alloc::Global;

impl PkgRecord {
    /// Reads the record of a package file in the subdir of a channel. The file's name is a dist,
    /// with the ending of a package file (`.tar.bz2` or `.conda`) or without it.
    ///
    /// The record is an object with `name`, `version`, `build`, `build_number` and `depends`, and
    /// optionally `constrains`, `subdir`, `noarch` and `timestamp`; other fields are passed over.
    /// Its name, version and build are those of the dist. Of a value that is no object each field
    /// is absent.
    ///
    /// `BadRecord` has `fn` where the file's name is no dist, then the first field in this order
    /// that is absent or of another form, then `fn` where the dist is another one's. The timestamp
    /// stays as it is given.
    pub fn read(
        alloc: Global,
        value: &Value,
        file: &str,
        channel: &str,
        subdir: &str,
    ) -> Result<PkgRecord, RecordErr>
        ensures { Gives record_fault_of result
            (record_read (view value.now) file.now channel.now subdir.now) }
    {
        let mut table = SpecTable::new(alloc);
        PkgRecord::read_by(alloc, &mut table, value, file, channel, subdir)
    }

    #[tactic(auto, unfolding(crate::specs::Records::record_read))]
    /// The same; equal texts of specifications are read once, and kept in the table.
    pub fn read_by(
        alloc: Global,
        table: &mut SpecTable,
        value: &Value,
        file: &str,
        channel: &str,
        subdir: &str,
    ) -> Result<PkgRecord, RecordErr>
        ensures { Gives record_fault_of result
            (record_read (view value.now) file.now channel.now subdir.now) }
    {
        let dist = dist_of(alloc, file)?;
        let name = name_field(value)?;
        let version = version_field(alloc, value)?;
        let build = build_field(value)?;
        let build_number = build_number_field(value)?;
        let depends = depends_field(alloc, table, value)?;
        let constrains = constrains_field(alloc, table, value)?;
        let subdir = subdir_field(alloc, value, subdir)?;
        if !is_of_parts(&dist, name, version.text(), build) {
            return Err(RecordErr::BadRecord {
                field: RecordField::Fn,
            });
        }
        Ok(PkgRecord {
            name: Text::from_str(alloc, name)?,
            version,
            build: Text::from_str(alloc, build)?,
            build_number,
            channel: Text::from_str(alloc, channel)?,
            subdir,
            dist,
            depends,
            constrains,
            noarch: noarch_of(value),
            timestamp: timestamp_of(value),
        })
    }
}

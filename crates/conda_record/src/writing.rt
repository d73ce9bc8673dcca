ghost use Rattle.std.specs.Prelude.{◌≡◌, IfOk, Err, OnErr, OnOk, Ok};
ghost use Rattle.std.specs.List.{AllByRecursion};
ghost use Rattle.serde_json.specs.Data.{array, number, put as with_member, string, unsigned};
ghost use Rattle.serde_json.specs.View.{items_view, members_view, view};
ghost use Rattle.conda_record.specs.Records as records;
ghost use Rattle.conda_record.specs.Records.{key_of, record_data, record_members, record_read};
ghost use Rattle.conda_record.specs.Records.{specs_data};
ghost use Rattle.conda_record.specs.Rules.{IsWellFormed, ReadsBack};
ghost use Rattle.conda_record.specs.declared.error.RecordErr.{RecordErr};

use crate::error::RecordErr;
use crate::laws::record_laws;
use crate::noarch::Noarch;
use crate::pkg_record::PkgRecord;
use conda_base::{Copied, Text};
use conda_path::SlotKey;
use conda_spec::Spec;
use serde_json::{Map, Value, put};
use std::alloc::{AllocError, Global};

/// The normal form of a specification.
fn spec_value(alloc: Global, spec: &Spec) -> Result<Value, AllocError>
    ensures value { IfOk result (λ value. view value ≡ records.spec_data spec.now) }
    ensures again { OnOk result (ReadsBack spec.now) }
{
    match spec.text(alloc) {
        Ok(text) => Ok(Value::String(text)),
        Err(_) => Err(AllocError),
    }
}

/// The normal forms of specifications, in their order.
fn specs_value(alloc: Global, specs: &[Spec]) -> Result<Vec<Value>, AllocError>
    ensures list { IfOk result (λ list. items_view list.items ≡ specs_data specs.now) }
    ensures again { OnOk result (AllByRecursion ReadsBack specs.now) }
{
    let mut list = Vec::with_capacity(alloc, specs.len())?;
    for spec in specs {
        list.push(spec_value(alloc, spec)?)?;
    }
    Ok(list)
}

type Members = Map<String, Value>;

/// Puts a member that is a text.
fn put_text(alloc: Global, members: &mut Members, name: &str, text: &str) -> Result<(), AllocError>
    ensures { OnOk result (members_view members.new.entries
        ≡ with_member name.now (string text.now) (members_view members.old.entries)) }
{
    let value = Value::try_from_str(alloc, text)?;
    put(members, alloc, name, value)
}

/// Puts a member that is a whole number.
fn put_number(alloc: Global, members: &mut Members, name: &str, n: u64) -> Result<(), AllocError>
    ensures { OnOk result (members_view members.new.entries
        ≡ with_member name.now (number (unsigned n)) (members_view members.old.entries)) }
{
    put(members, alloc, name, Value::from(n))
}

/// Puts a member that is a list of specifications.
fn put_specs(
    alloc: Global,
    members: &mut Members,
    name: &str,
    specs: &[Spec],
) -> Result<(), AllocError>
    ensures member { OnOk result (members_view members.new.entries
        ≡ with_member name.now (array (specs_data specs.now)) (members_view members.old.entries)) }
    ensures again { OnOk result (AllByRecursion ReadsBack specs.now) }
{
    let list = specs_value(alloc, specs)?;
    put(members, alloc, name, Value::Array(list))
}

impl PkgRecord {
    /// The members of the record's object but for `noarch`.
    fn plain_members(&self, alloc: Global) -> Result<Members, AllocError>
        ensures members { IfOk result (λ made. members_view made.entries
            ≡ record_members Noarch.No self.now) }
        ensures depends { OnOk result (AllByRecursion ReadsBack self.now.depends) }
        ensures constrains { OnOk result (AllByRecursion ReadsBack self.now.constrains) }
    {
        let mut made = Map::new(alloc);
        put_text(alloc, &mut made, "build", self.build.as_str())?;
        put_number(alloc, &mut made, "build_number", self.build_number)?;
        put_text(alloc, &mut made, "channel", self.channel.as_str())?;
        put_specs(alloc, &mut made, "constrains", self.constrains.as_slice())?;
        put_specs(alloc, &mut made, "depends", self.depends.as_slice())?;
        put_text(alloc, &mut made, "dist", self.dist.text())?;
        put_text(alloc, &mut made, "name", self.name.as_str())?;
        put_text(alloc, &mut made, "subdir", self.subdir.as_str())?;
        put_number(alloc, &mut made, "timestamp", self.timestamp)?;
        put_text(alloc, &mut made, "version", self.version.text())?;
        Ok(made)
    }

    #[tactic(auto, unfolding(crate::specs::Records::record_data))]
    fn object(&self, alloc: Global) -> Result<Value, AllocError>
        ensures value { IfOk result (λ value. view value ≡ record_data self.now) }
        ensures depends { OnOk result (AllByRecursion ReadsBack self.now.depends) }
        ensures constrains { OnOk result (AllByRecursion ReadsBack self.now.constrains) }
    {
        let mut made = self.plain_members(alloc)?;
        match self.noarch {
            Noarch::No => Ok(Value::Object(made)),
            Noarch::Generic => {
                put_text(alloc, &mut made, "noarch", "generic")?;
                Ok(Value::Object(made))
            }
            Noarch::Python => {
                put_text(alloc, &mut made, "noarch", "python")?;
                Ok(Value::Object(made))
            }
        }
    }

    /// The object that stands for the record in the files of an environment: its fields by their
    /// names, in the order of these, with the specifications in normal form and `noarch` only where
    /// it is `generic` or `python`. Its only error is `Memory`.
    pub fn value(&self, alloc: Global) -> Result<Value, RecordErr>
        ensures value { IfOk result (λ value. view value ≡ record_data self.now) }

        // A well-formed record, as each is that was read, is read again from it, with its dist as
        // the file's name.
        ensures reads_back { IsWellFormed self.now → IfOk result (λ value.
            record_read (view value) self.now.dist self.now.channel self.now.subdir
            ≡ Ok self.now) }
        ensures err { OnErr result (result ≡ Err RecordErr.Memory) }
    {
        record_laws();
        Ok(self.object(alloc)?)
    }

    /// The package's key in the cache. Its only error is `Memory`.
    pub fn key(&self, alloc: Global) -> Result<SlotKey, RecordErr>
        ensures key { IfOk result (λ key. key ≡ key_of self.now) }
        ensures err { OnErr result (result ≡ Err RecordErr.Memory) }
    {
        Ok(SlotKey {
            channel: Text::from_str(alloc, self.channel.as_str())?,
            subdir: Text::from_str(alloc, self.subdir.as_str())?,
            dist: self.dist.copy()?,
        })
    }
}

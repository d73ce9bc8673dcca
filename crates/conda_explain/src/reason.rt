ghost use Rattle.std.specs.Prelude.{◌≡◌, ◌-◌, ◌++◌, OnOk, flat_map, map, option_copied, slice_get, string_bytes};
ghost use Rattle.conda_spec.specs.Text.{spec_text};
ghost use Rattle.conda_explain.specs.Report.{constrains_text, entry_text, item_text, needs_text, why_line, why_text};

use conda_encode::{Asked, Why};
use conda_record::PkgRecord;
use conda_spec::Spec;
use std::alloc::{AllocError, Global};

/// Writes the specification.
fn write_spec(alloc: Global, text: &mut String, spec: &Spec) -> Result<(), AllocError>
    ensures { OnOk result (string_bytes text.new ≡ string_bytes text.old ++ spec_text spec.now) }
{
    match spec.text(alloc) {
        Ok(word) => text.push_str(word.as_str()),
        Err(_) => Err(AllocError),
    }
}

/// Writes the specification of the item at this place.
fn write_item(
    alloc: Global,
    text: &mut String,
    asked: &[Asked],
    place: usize,
) -> Result<(), AllocError>
    ensures { OnOk result (string_bytes text.new ≡ string_bytes text.old ++ item_text asked.now place) }
{
    match asked.get(place) {
        Some(item) => write_spec(alloc, text, &item.spec),
        None => Ok(()),
    }
}

/// Writes the entry at this place.
fn write_entry(
    alloc: Global,
    text: &mut String,
    entries: &[Spec],
    place: usize,
) -> Result<(), AllocError>
    ensures { OnOk result (string_bytes text.new ≡ string_bytes text.old ++ entry_text entries.now place) }
{
    match entries.get(place) {
        Some(spec) => write_spec(alloc, text, spec),
        None => Ok(()),
    }
}

/// The record with this variable.
fn record_of<'a>(recs: &[&'a PkgRecord], variable: u32) -> Option<&'a PkgRecord>
    ensures { option_copied result ≡ slice_get (map (λ r. r.now) recs.now) (variable - 1) }
{
    recs.get((variable as usize).saturating_sub(1)).copied()
}

/// Writes `DIST needs SPEC`.
fn write_needs(
    alloc: Global,
    text: &mut String,
    pkg: &PkgRecord,
    entry: usize,
) -> Result<(), AllocError>
    ensures { OnOk result (string_bytes text.new ≡ string_bytes text.old ++ needs_text entry pkg.now) }
{
    text.push_str(pkg.dist.text())?;
    text.push_str(" needs ")?;
    write_entry(alloc, text, pkg.depends.as_slice(), entry)
}

/// Writes `DIST constrains SPEC`.
fn write_constrains(
    alloc: Global,
    text: &mut String,
    pkg: &PkgRecord,
    entry: usize,
) -> Result<(), AllocError>
    ensures { OnOk result (string_bytes text.new ≡ string_bytes text.old ++ constrains_text entry pkg.now) }
{
    text.push_str(pkg.dist.text())?;
    text.push_str(" constrains ")?;
    write_entry(alloc, text, pkg.constrains.as_slice(), entry)
}

/// Writes why a clause is there.
fn write_why(
    alloc: Global,
    text: &mut String,
    recs: &[&PkgRecord],
    asked: &[Asked],
    why: &Why,
) -> Result<(), AllocError>
    ensures { OnOk result (string_bytes text.new ≡ string_bytes text.old
        ++ why_text (map (λ r. r.now) recs.now) asked.now why.now) }
{
    match why {
        Why::Asked(place) => {
            text.push_str("asked ")?;
            write_item(alloc, text, asked, *place)
        }
        Why::Needs { rec, entry } => match record_of(recs, *rec) {
            Some(pkg) => write_needs(alloc, text, pkg, *entry),
            None => Ok(()),
        },
        Why::Constrains { rec, entry } => match record_of(recs, *rec) {
            Some(pkg) => write_constrains(alloc, text, pkg, *entry),
            None => Ok(()),
        },
        Why::One { name } => {
            text.push_str("one ")?;
            text.push_str(name.as_str())
        }
        Why::Pinned(place) => {
            text.push_str("pinned ")?;
            write_item(alloc, text, asked, *place)
        }
    }
}

/// Writes a line for each reason.
pub fn write_whys(
    alloc: Global,
    text: &mut String,
    recs: &[&PkgRecord],
    asked: &[Asked],
    whys: &[&Why],
) -> Result<(), AllocError>
    ensures { OnOk result (string_bytes text.new ≡ string_bytes text.old
        ++ flat_map (why_line (map (λ r. r.now) recs.now) asked.now) (map (λ w. w.now) whys.now)) }
{
    for why in whys {
        write_why(alloc, text, recs, asked, why)?;
        text.push_str("\n")?;
    }
    Ok(())
}

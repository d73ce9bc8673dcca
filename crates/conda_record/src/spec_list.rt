ghost use Rattle.std.specs.Prelude.{◌≡◌};
ghost use Rattle.serde_json.specs.View.{items_view, view};
ghost use Rattle.conda_base.specs.Reads.{Gives};
ghost use Rattle.conda_record.specs.Records as records;
ghost use Rattle.conda_record.specs.Records.{record_fault_of};

use crate::error::{RecordErr, RecordField};
use conda_base::Rows;
use conda_spec::{Spec, SpecErr, SpecTable};
use serde_json::Value;
use std::alloc::Global;

/// The specification that an element of the field's list is, without a star in its name.
fn plain_spec(
    alloc: Global,
    table: &mut SpecTable,
    field: RecordField,
    element: &Value,
) -> Result<Spec, RecordErr>
    ensures { Gives record_fault_of result (records.plain_spec field (view element.now)) }
{
    let text = match element.as_str() {
        Some(text) => text,
        None => return Err(RecordErr::BadRecord { field }),
    };
    let spec = match table.read(alloc, text) {
        Ok(spec) => spec,
        Err(SpecErr::BadSpec { at: _, why: _ }) => return Err(RecordErr::BadRecord { field }),
        Err(SpecErr::Memory) => return Err(RecordErr::Memory),
    };
    if spec.has_glob() {
        return Err(RecordErr::BadRecord { field });
    }
    Ok(spec)
}

#[tactic(auto, using(crate::proofs::LoopLemmas::one_more, crate::proofs::LoopLemmas::ended))]
/// The specifications of the field's list, in its order.
pub fn read_specs(
    alloc: Global,
    table: &mut SpecTable,
    field: RecordField,
    elements: &[Value],
) -> Result<Rows<Spec>, RecordErr>
    ensures { Gives record_fault_of result (records.specs_read field (items_view elements.now)) }
{
    let mut specs = Rows::from_vec(Vec::with_capacity(alloc, elements.len())?);
    for element in elements {
        let spec = plain_spec(alloc, table, field, element)?;
        specs.push(spec)?;
    }
    Ok(specs)
}

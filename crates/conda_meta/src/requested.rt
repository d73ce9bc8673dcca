ghost use Rattle.std.specs.Prelude.{◌≡◌, IfOk, option_copied};
ghost use Rattle.serde_json.specs.View.{items_view, view};
ghost use Rattle.conda_base.specs.Reads.{Gives};
ghost use Rattle.conda_json.specs.Fields.{each_from};
ghost use Rattle.conda_meta.specs.Reading as reading;
ghost use Rattle.conda_meta.specs.Reading.{field_fault_of};

use crate::error::{FieldErr, MetaField};
use conda_base::Rows;
use conda_json::{Value, list_of};
use conda_spec::{Spec, SpecErr};
use std::alloc::{AllocError, Global};

/// What is wrong with the requested specifications.
const BAD: FieldErr = FieldErr::Bad {
    field: MetaField::Requested,
};

/// Whether the text is the normal form of a specification whose name has no star.
fn is_plain_form(alloc: Global, text: &str, spec: &Spec) -> Result<bool, AllocError>
    ensures { IfOk result (λ plain. plain ≡ reading.is_plain_form text.now spec.now) }
{
    if spec.has_glob() {
        return Ok(false);
    }
    match spec.text(alloc) {
        Ok(form) => Ok(form.as_str() == text),
        Err(_) => Err(AllocError),
    }
}

/// The specification that an element of `requested` is.
fn requested_spec(alloc: Global, element: &Value) -> Result<Spec, FieldErr>
    ensures { Gives field_fault_of result (reading.requested_spec (view element.now)) }
{
    let Some(text) = element.as_str() else {
        return Err(BAD);
    };
    let spec = match Spec::read(alloc, text) {
        Ok(spec) => spec,
        Err(SpecErr::BadSpec { at: _, why: _ }) => return Err(BAD),
        Err(SpecErr::Memory) => return Err(FieldErr::Memory),
    };
    if is_plain_form(alloc, text, &spec)? {
        Ok(spec)
    } else {
        Err(BAD)
    }
}

/// The specifications that elements are, in their order.
fn read_all(alloc: Global, elements: &[Value]) -> Result<Rows<Spec>, FieldErr>
    ensures { Gives field_fault_of result
        (each_from 0 (λ at. reading.requested_spec) (items_view elements.now)) }
{
    let mut specs = Rows::from_vec(Vec::with_capacity(alloc, elements.len())?);
    for element in elements {
        let spec = requested_spec(alloc, element)?;
        specs.push(spec)?;
    }
    Ok(specs)
}

/// Whether a specification comes not behind another one.
fn is_not_behind(alloc: Global, one: &Spec, other: &Spec) -> Result<bool, AllocError>
    ensures { IfOk result (λ so. so ≡ reading.is_not_behind one.now other.now) }
{
    match (one.text(alloc), other.text(alloc)) {
        (Ok(first), Ok(second)) => {
            let names = one.name().cmp(other.name());
            let texts = first.as_str().cmp(second.as_str());
            Ok(names.then(texts).is_le())
        }
        _ => Err(AllocError),
    }
}

/// Whether a specification doesn't come before another one, if there is one.
fn may_follow(alloc: Global, last: Option<&Spec>, spec: &Spec) -> Result<bool, AllocError>
    ensures { IfOk result (λ so. so
        ≡ reading.may_follow (option_copied last.entry) spec.now) }
{
    match last {
        Some(last) => is_not_behind(alloc, last, spec),
        None => Ok(true),
    }
}

#[tactic(auto, using(crate::proofs::LoopLemmas::order_one, crate::proofs::LoopLemmas::order_end))]
/// Whether specifications are in order, by name and text.
fn are_in_order(alloc: Global, specs: &[Spec]) -> Result<bool, AllocError>
    ensures { IfOk result (λ so. so ≡ reading.in_order specs.now) }
{
    let mut last: Option<&Spec> = None;
    for spec in specs {
        if !may_follow(alloc, last, spec)? {
            return Ok(false);
        }
        last = Some(spec);
    }
    Ok(true)
}

/// The requested specifications.
pub fn requested_field(alloc: Global, value: &Value) -> Result<Rows<Spec>, FieldErr>
    ensures { Gives field_fault_of result (reading.requested_list (view value.now)) }
{
    let Ok(elements) = list_of(value, "requested") else {
        return Err(BAD);
    };
    let specs = read_all(alloc, elements)?;
    if are_in_order(alloc, specs.as_slice())? {
        Ok(specs)
    } else {
        Err(BAD)
    }
}

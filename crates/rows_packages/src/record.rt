use conda_base::{Copied, Text};
use conda_json::{compact, parse};
use conda_record::{Noarch, PkgRecord, RecordErr};
use conda_spec::Spec;
use std::alloc::{AllocError, Global};

/// The rows of conda_record.
pub fn answer(alloc: Global, call: &str, arguments: &[Text]) -> Result<Option<String>, AllocError> {
    let [file, channel, subdir, text] = arguments else {
        return Ok(None);
    };
    let Ok(value) = parse(alloc, text.as_str().as_bytes()) else {
        return Ok(None);
    };
    let read = PkgRecord::read(
        alloc,
        &value,
        file.as_str(),
        channel.as_str(),
        subdir.as_str(),
    );
    match read {
        Ok(package) => answer_of(alloc, call, &package),
        Err(RecordErr::Memory) => Err(AllocError),
        Err(error) => Ok(Some(format!(in alloc; "{error}")?)),
    }
}

/// What a row shows of a record that was read.
fn answer_of(alloc: Global, call: &str, package: &PkgRecord) -> Result<Option<String>, AllocError> {
    match call {
        "record" => Ok(Some(shown(alloc, package)?)),
        "object" => Ok(Some(object(alloc, package)?)),
        "key" => Ok(Some(key(alloc, package)?)),
        _ => Ok(None),
    }
}

/// What stands in a record.
fn shown(alloc: Global, package: &PkgRecord) -> Result<String, AllocError> {
    let PkgRecord {
        name,
        version,
        build,
        build_number,
        channel,
        subdir,
        dist,
        timestamp,
        ..
    } = package;
    let noarch = match package.noarch {
        Noarch::No => "no",
        Noarch::Generic => "generic",
        Noarch::Python => "python",
    };
    let mut text = format!(in alloc;
        "<{}> <{}> <{}> {build_number} <{}> <{}> <{}> {noarch} {timestamp}",
        name.as_str(),
        version.text(),
        build.as_str(),
        channel.as_str(),
        subdir.as_str(),
        dist.text()
    )?;
    push_specs(alloc, &mut text, "; depends", package.depends.as_slice())?;
    push_specs(
        alloc,
        &mut text,
        "; constrains",
        package.constrains.as_slice(),
    )?;
    Ok(text)
}

fn push_specs(
    alloc: Global,
    text: &mut String,
    title: &str,
    specs: &[Spec],
) -> Result<(), AllocError> {
    if specs.is_empty() {
        return Ok(());
    }
    text.push_str(title)?;
    for spec in specs {
        let Ok(normal) = spec.text(alloc) else {
            return Err(AllocError);
        };
        text.push_str(" <")?;
        text.push_str(normal.as_str())?;
        text.push_str(">")?;
    }
    Ok(())
}

/// The text of the record's object, which has to be read again as the same record.
fn object(alloc: Global, package: &PkgRecord) -> Result<String, AllocError> {
    let before = shown(alloc, package)?;
    let after = shown_again(alloc, package)?;
    if before.as_str() != after.as_str() {
        return format!(in alloc; "read again as {}", after.as_str());
    }
    object_text(alloc, package)
}

/// What stands in the record that is read of a record's object.
fn shown_again(alloc: Global, package: &PkgRecord) -> Result<String, AllocError> {
    let Ok(value) = package.value(alloc) else {
        return Err(AllocError);
    };
    let file = package.dist.text();
    let channel = package.channel.as_str();
    let subdir = package.subdir.as_str();
    match PkgRecord::read(alloc, &value, file, channel, subdir) {
        Ok(again) => shown(alloc, &again),
        Err(error) => format!(in alloc; "{error}"),
    }
}

/// The compact text of the object of a copy.
fn object_text(alloc: Global, package: &PkgRecord) -> Result<String, AllocError> {
    let Ok(value) = package.copy()?.value(alloc) else {
        return Err(AllocError);
    };
    let Ok(bytes) = compact(alloc, &value) else {
        return Err(AllocError);
    };
    match String::from_utf8(bytes) {
        Ok(text) => Ok(text),
        Err(_) => Err(AllocError),
    }
}

fn key(alloc: Global, package: &PkgRecord) -> Result<String, AllocError> {
    let Ok(key) = package.key(alloc) else {
        return Err(AllocError);
    };
    format!(in alloc;
        "{}/{}/{}",
        key.channel.as_str(),
        key.subdir.as_str(),
        key.dist.text()
    )
}

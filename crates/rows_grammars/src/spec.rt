use conda_base::{Text, digits_u64};
use conda_spec::{Spec, SpecErr};
use conda_version::Version;
use std::alloc::{AllocError, Global};

/// The rows of conda_spec.
pub fn answer(alloc: Global, call: &str, arguments: &[Text]) -> Result<Option<String>, AllocError> {
    match (call, arguments) {
        ("spec", [text]) => form(alloc, text.as_str()),
        ("spec.glob", [text]) => glob(alloc, text.as_str()),
        ("spec.names", [text, name, version, build, number, channel, subdir]) => {
            let looks = Looks {
                name,
                build,
                number,
                channel,
                subdir,
            };
            names(alloc, text.as_str(), version.as_str(), &looks)
        }
        _ => Ok(None),
    }
}

/// What a package is looked at by, beside its version.
#[derive(Drop)]
struct Looks<'a> {
    name: &'a Text,
    build: &'a Text,
    number: &'a Text,
    channel: &'a Text,
    subdir: &'a Text,
}

fn yes_or_no(alloc: Global, yes: bool) -> Result<Option<String>, AllocError> {
    let word = if yes { "yes" } else { "no" };
    Ok(Some(String::from_str(alloc, word)?))
}

/// The first fault and its place.
fn fault(alloc: Global, err: SpecErr) -> Result<Option<String>, AllocError> {
    match err {
        SpecErr::BadSpec { at, why } => Ok(Some(format!(in alloc; "{why} at {at}")?)),
        SpecErr::Memory => Err(AllocError),
    }
}

/// The normal form, as a copy of the specification writes it.
fn form(alloc: Global, text: &str) -> Result<Option<String>, AllocError> {
    match Spec::read(alloc, text) {
        Ok(spec) => match spec.clone()?.text(alloc) {
            Ok(form) => Ok(Some(form)),
            Err(err) => fault(alloc, err),
        },
        Err(err) => fault(alloc, err),
    }
}

fn glob(alloc: Global, text: &str) -> Result<Option<String>, AllocError> {
    match Spec::read(alloc, text) {
        Ok(spec) => yes_or_no(alloc, spec.has_glob()),
        Err(err) => fault(alloc, err),
    }
}

fn names(
    alloc: Global,
    text: &str,
    version: &str,
    looks: &Looks<'_>,
) -> Result<Option<String>, AllocError> {
    let (Ok(spec), Ok(version), Some(number)) = (
        Spec::read(alloc, text),
        Version::read(alloc, version),
        digits_u64(looks.number.as_str().as_bytes()),
    ) else {
        return Ok(None);
    };
    let named = spec.matches(
        looks.name.as_str(),
        &version,
        looks.build.as_str(),
        number,
        looks.channel.as_str(),
        looks.subdir.as_str(),
    );
    yes_or_no(alloc, named)
}

ghost use Rattle.std.specs.Prelude.{◌≡◌, IfOk, None, Some, MatchOption, MatchResult, Ok, Err};
ghost use Rattle.serde_json.specs.View.{items_view, view};
ghost use Rattle.conda_base.specs.Reads.{Gives};
ghost use Rattle.conda_link.specs.Links as links;
ghost use Rattle.conda_link.specs.Links.{link_fault_of, link_read};

use crate::error::LinkErr;
use crate::names::{is_command, is_name};
use conda_base::{Copied, Rows, Text, cut_last};
use conda_json::{JsonErr, Null, Value, object_field, optional_list, parse_object};
use conda_version::trimmed;
use std::alloc::{AllocError, Global};

/// A program that a package starts: the command calls a function of a module.
#[derive(Clone, Debug, PartialEq, Eq, Drop)]
pub struct EntryPoint {
    /// One part of a path.
    pub command: Text,
    /// Letters, digits, `_` and `.`, not empty.
    pub module: Text,
    /// The same; behind each `.` stands an attribute of what is before it.
    pub func: Text,
}

/// What a link file says.
#[derive(Clone, Debug, PartialEq, Eq, Drop)]
pub struct LinkInfo {
    pub entries: Rows<EntryPoint>,
}

impl Copied for EntryPoint {
    fn copy(&self) -> Result<EntryPoint, AllocError> {
        self.clone()
    }
}

impl Copied for LinkInfo {
    fn copy(&self) -> Result<LinkInfo, AllocError> {
        self.clone()
    }
}

/// The entry point of three texts, where they are a command, a module and a function.
fn made_entry(
    alloc: Global,
    command: &str,
    module_name: &str,
    func: &str,
) -> Result<Option<EntryPoint>, AllocError>
    ensures { IfOk result (λ made. made ≡ links.made_entry command.now module_name.now func.now) }
{
    if !is_command(alloc, command)? || !is_name(module_name) || !is_name(func) {
        return Ok(None);
    }
    Ok(Some(EntryPoint {
        command: Text::from_str(alloc, command)?,
        module: Text::from_str(alloc, module_name)?,
        func: Text::from_str(alloc, func)?,
    }))
}

/// The three texts of `command = module:func`, without the spaces at their ends.
fn parts_of(text: &str) -> Option<(&str, &str, &str)>
    ensures { MatchOption result (links.parts_of text.now ≡ None)
        (λ x. links.parts_of text.now ≡ Some (x.0.now, x.1.now, x.2.now)) }
{
    let (front, func) = cut_last(text, b':')?;
    let (command, module_name) = cut_last(front, b'=')?;
    Some((trimmed(command), trimmed(module_name), trimmed(func)))
}

/// The entry point that a text spells.
fn entry_of(alloc: Global, text: &str) -> Result<Option<EntryPoint>, AllocError>
    ensures { IfOk result (λ made. made ≡ links.entry_of text.now) }
{
    match parts_of(text) {
        Some((command, module_name, func)) => made_entry(alloc, command, module_name, func),
        None => Ok(None),
    }
}

/// The entry point that an element spells.
fn element_entry(alloc: Global, element: &Value) -> Result<Option<EntryPoint>, AllocError>
    ensures { IfOk result (λ made. made ≡ links.element_entry (view element.now)) }
{
    match element.as_str() {
        Some(text) => entry_of(alloc, text),
        None => Ok(None),
    }
}

#[tactic(auto, using(crate::proofs::LinkLemmas::one_entry))]
/// The entry points of a list.
fn read_entries(alloc: Global, elements: &[Value]) -> Result<Rows<EntryPoint>, LinkErr>
    ensures { Gives link_fault_of result (links.entries_read (items_view elements.now)) }
{
    let mut entries = Rows::new(alloc);
    for (at, element) in elements.iter().enumerate() {
        match element_entry(alloc, element)? {
            Some(entry) => entries.push(entry)?,
            None => return Err(LinkErr::BadLink { entry: at as u64 }),
        }
    }
    Ok(entries)
}

/// The entry points of the file's object.
fn read_noarch(alloc: Global, value: &Value) -> Result<Rows<EntryPoint>, LinkErr>
    ensures { Gives link_fault_of result (links.noarch_read (view value.now)) }
{
    let noarch = match object_field(value, "noarch") {
        Ok(noarch) => noarch,
        Err(_) => return Err(LinkErr::BadLink { entry: 0 }),
    };
    match optional_list(noarch, "entry_points", Null::Bad) {
        Ok(Some(elements)) => read_entries(alloc, elements),
        Ok(None) => Ok(Rows::new(alloc)),
        Err(_) => Err(LinkErr::BadLink { entry: 0 }),
    }
}

impl LinkInfo {
    /// Reads a package's `info/link.json`: the object has the object `noarch`, with the optional
    /// list `entry_points` of texts `command = module:func`. Other fields are passed over.
    ///
    /// Fails with the first bad entry point, and with 0 where the file has another form.
    pub fn read(alloc: Global, bytes: &[u8]) -> Result<LinkInfo, LinkErr>
        ensures { Gives link_fault_of result (link_read bytes.now) }
    {
        let value = match parse_object(alloc, bytes) {
            Ok(value) => value,
            Err(JsonErr::Memory) => return Err(LinkErr::Memory),
            Err(_) => return Err(LinkErr::BadLink { entry: 0 }),
        };
        let entries = read_noarch(alloc, &value)?;
        Ok(LinkInfo { entries })
    }
}

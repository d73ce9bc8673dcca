ghost use Rattle.std.specs.Prelude.{◌≡◌, ◌≤◌, ℕ, List, IfOk, IfSome, length, option_map};
ghost use Rattle.std.specs.FinMap as map;
ghost use Rattle.conda_base.specs.Texts.{Ascending};
ghost use Rattle.conda_device.specs.Channels.{ListsFolders, bytes_of, first_bytes, shown_of};
ghost use Rattle.conda_mem.specs.Given.{files_at, given_files};

use crate::nodes::{Nodes, nodes_of};
use conda_base::{Copied, Rows, Text};
use conda_device::Shown;
use conda_path::{Kind, Node};
use std::alloc::{AllocError, Global};
use std::collections::BTreeMap;
use std::marker::Model;
use std::sync::Arc;

/// The files of a channel, which its handles share.
#[derive(Drop)]
pub struct Files {
    nodes: Arc<Nodes, Global>,
}

impl Model for Files {
    ghost use Rattle.std.specs.Arc.{arc_value};
    ghost use Rattle.conda_device.specs.Channels as channels;
    ghost use Rattle.conda_device.specs.Tree as tree;

    ghost Value = { channels.Files };

    ghost coded = { tree.coded_tree };

    ghost view = { λ files. arc_value files.nodes };
}

impl Files {
    /// These files.
    pub fn make(alloc: Global, nodes: Nodes) -> Result<Files, AllocError>
        ensures { IfOk result (λ files. files ≡ nodes) }
    {
        let nodes = Arc::new(alloc, nodes)?;
        Ok(Files { nodes })
    }

    /// The same files once more.
    pub fn share(&self) -> Result<Files, AllocError>
        ensures { IfOk result (λ files. files ≡ self.now) }
    {
        let nodes = Arc::try_clone(&self.nodes)?;
        Ok(Files { nodes })
    }

    /// What a channel shows at a path.
    pub fn look(&self, path: &Text) -> Result<Option<Shown>, AllocError>
        ensures { IfOk result (λ shown. shown ≡ option_map shown_of (map.get self.now path.now)) }
    {
        match self.nodes.get(path) {
            Some(node) => Ok(Some(shown(node)?)),
            None => Ok(None),
        }
    }

    /// At most the first bytes of the file at a path.
    pub fn read(&self, alloc: Global, path: &Text, max: u64) -> Result<Option<Vec<u8>>, AllocError>
        ensures bound { IfOk result (λ read. IfSome read (λ bytes. length bytes.items ≤ max)) }
        ensures bytes { IfOk result (λ read.
            option_map (λ bytes. bytes.items) read ≡ first_bytes max self.now path.now) }
    {
        match self.nodes.get(path) {
            Some(node) => cut(alloc, node, max),
            None => Ok(None),
        }
    }

    /// The names of the folders in a subdir that have an index file, ascending by bytes.
    pub fn folders(&self, alloc: Global, subdir: &str) -> Result<Vec<Text>, AllocError>
        ensures names { IfOk result (λ names. ListsFolders self.now subdir.now names.items) }
        ensures ascending { IfOk result (λ names. Ascending names.items) }
    {
        let mut names = self.nodes.names_in(alloc, subdir)?;
        names.sort()?;
        names.dedup();
        Ok(names)
    }
}

/// What a channel shows of a node.
fn shown(node: &Node) -> Result<Shown, AllocError>
    ensures { IfOk result (λ shown. shown ≡ shown_of node.now) }
{
    match node.kind {
        Kind::File => Ok(Shown::File { exec: false }),
        Kind::Exec => Ok(Shown::File { exec: true }),
        Kind::Soft => Ok(Shown::Soft {
            target: node.bytes.copy()?,
        }),
    }
}

/// At most the first bytes of a node that is a file.
pub fn cut(alloc: Global, node: &Node, max: u64) -> Result<Option<Vec<u8>>, AllocError>
    ensures bound { IfOk result (λ read. IfSome read (λ bytes. length bytes.items ≤ max)) }
    ensures bytes { IfOk result (λ read.
        option_map (λ bytes. bytes.items) read ≡ bytes_of max node.now) }
{
    if node.kind == Kind::Soft {
        return Ok(None);
    }
    let bytes = node.bytes.as_slice();
    let count = (bytes.len() as u64).min(max) as usize;
    let read = Vec::from_slice(alloc, &bytes[..count])?;
    Ok(Some(read))
}

/// The channels of a list, with their files. Of two entries for one channel the last counts.
pub fn channels_of(
    alloc: Global,
    channels: Vec<(Text, Rows<(Text, Node)>)>,
) -> Result<BTreeMap<Text, Files>, AllocError>
    ensures { IfOk result (λ made. (name : List ℕ)
        → files_at made.entries name ≡ given_files channels.items map.empty name) }
{
    let mut made = BTreeMap::new(alloc);
    for (name, files) in channels {
        let nodes = nodes_of(alloc, files)?;
        let _ = made.insert(name, Files::make(alloc, nodes)?)?;
    }
    Ok(made)
}

/// The files of a channel; one that isn't there has none.
pub fn files_named(
    alloc: Global,
    channels: &BTreeMap<Text, Files>,
    name: &str,
) -> Result<Files, AllocError>
    ensures { IfOk result (λ files. files ≡ files_at channels.now.entries name.now) }
{
    match channels.get(&Text::from_str(alloc, name)?) {
        Some(files) => files.share(),
        None => Files::make(alloc, Nodes::new(alloc)),
    }
}

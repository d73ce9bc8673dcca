ghost use Rattle.std.specs.Prelude.{◌≤◌, IfOk, IfSome, length};

use crate::files::cut;
use conda_base::{Bytes, Copied, Rows, Text};
use conda_path::{Kind, Node, RelPath, SlotKey};
use std::alloc::{AllocError, Global};
use std::collections::BTreeMap;

/// The folder of a package in the cache.
#[derive(Drop)]
struct Folder {
    is_marked: bool,
    files: BTreeMap<RelPath, Node>,
}

/// The cache folder: the folders of packages, by their keys.
#[derive(Drop)]
pub struct Cache {
    folders: BTreeMap<SlotKey, Folder>,
}

impl Folder {
    /// A folder without files. It takes no memory.
    fn new(alloc: Global) -> Folder {
        Folder {
            is_marked: false,
            files: BTreeMap::new(alloc),
        }
    }
}

/// The text of a key.
fn key_text(alloc: Global, key: &SlotKey) -> Result<Text, AllocError> {
    let channel = key.channel.as_str();
    let subdir = key.subdir.as_str();
    let dist = key.dist.text();
    Ok(Text::from_string(format!(in alloc; "{channel}/{subdir}/{dist}")?))
}

/// The file that is to be written.
fn file_of(alloc: Global, bytes: &[u8], exec: bool) -> Result<Node, AllocError> {
    Ok(Node {
        kind: if exec { Kind::Exec } else { Kind::File },
        bytes: Bytes::from_slice(alloc, bytes)?,
    })
}

impl Cache {
    /// These folders, all of them marked. Of two for one key, or of two nodes for one path, the last
    /// counts.
    pub fn make(
        alloc: Global,
        cached: Vec<(SlotKey, Rows<(RelPath, Node)>)>,
    ) -> Result<Cache, AllocError> {
        let mut folders = BTreeMap::new(alloc);
        for (key, files) in cached {
            let mut folder = Folder::new(alloc);
            folder.is_marked = true;
            for (path, node) in files.into_vec() {
                let _ = folder.files.insert(path, node)?;
            }
            let _ = folders.insert(key, folder)?;
        }
        Ok(Cache { folders })
    }

    /// The texts of the keys whose folder is marked.
    pub fn list(&self, alloc: Global) -> Result<Vec<Text>, AllocError> {
        let mut made = Vec::new(alloc);
        for (key, folder) in self.folders.iter() {
            if folder.is_marked {
                made.push(key_text(alloc, key)?)?;
            }
        }
        Ok(made)
    }

    /// At most the first bytes of a file.
    pub fn read(
        &self,
        alloc: Global,
        key: &SlotKey,
        path: &RelPath,
        max: u64,
    ) -> Result<Option<Vec<u8>>, AllocError>
        ensures { IfOk result (λ read. IfSome read (λ bytes. length bytes.items ≤ max)) }
    {
        let Some(folder) = self.folders.get(key) else {
            return Ok(None);
        };
        match folder.files.get(path) {
            Some(node) => cut(alloc, node, max),
            None => Ok(None),
        }
    }

    /// Makes a package's folder, where there is none yet.
    fn open(&mut self, alloc: Global, key: &SlotKey) -> Result<(), AllocError> {
        if !self.folders.contains_key(key) {
            let _ = self.folders.insert(key.copy()?, Folder::new(alloc))?;
        }
        Ok(())
    }

    /// Puts a file, or replaces it.
    pub fn write(
        &mut self,
        alloc: Global,
        key: &SlotKey,
        path: &RelPath,
        bytes: &[u8],
        exec: bool,
    ) -> Result<(), AllocError> {
        self.open(alloc, key)?;
        if let Some(folder) = self.folders.get_mut(key) {
            let _ = folder
                .files
                .insert(path.copy()?, file_of(alloc, bytes, exec)?)?;
        }
        Ok(())
    }

    /// Marks a folder.
    pub fn mark(&mut self, alloc: Global, key: &SlotKey) -> Result<(), AllocError> {
        self.open(alloc, key)?;
        if let Some(folder) = self.folders.get_mut(key) {
            folder.is_marked = true;
        }
        Ok(())
    }

    /// Takes a folder away. It takes no memory.
    pub fn erase(&mut self, key: &SlotKey) {
        let _ = self.folders.remove(key);
    }
}

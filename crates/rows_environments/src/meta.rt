ghost use Rattle.std.specs.Prelude.{IfOk, IfSome};
ghost use Rattle.conda_base.specs.Texts.{Ascending};

use conda_base::{Copied, Text};
use conda_history::{Block, History};
use conda_meta::{Linked, MetaErr, Revision, fold, prefix_read, prefix_text};
use conda_path::{Dist, Good, Kind};
use conda_spec::Spec;
use std::alloc::{AllocError, Global};
use std::collections::BTreeSet;

/// A revision that links the package `a`, as its file has it.
const REVISION: &str =
    r#"{"linked":[{"goods":[{"kind":"file","path":"share/a.txt","sha256":"ba7816bf8f01cfea414140de5dae2223b00361a396177a9cb410ff61f20015ad","size":3}],"record":{"build":"0","build_number":0,"channel":"main","constrains":[],"depends":[],"dist":"a-1.0-0","name":"a","noarch":"generic","subdir":"noarch","timestamp":0,"version":"1.0"}}],"requested":["a"],"unlinked":[]}"#;

/// The same package's record in a prefix.
const PREFIX: &str =
    r#"{"build":"0","build_number":0,"channel":"main","constrains":[],"depends":[],"files":["share/a.txt"],"fn":"a-1.0-0","name":"a","noarch":"generic","paths_data":{"paths":[{"_path":"share/a.txt","path_type":"hardlink","sha256_in_prefix":"ba7816bf8f01cfea414140de5dae2223b00361a396177a9cb410ff61f20015ad","size_in_bytes":3}],"paths_version":1},"subdir":"noarch","timestamp":0,"version":"1.0"}"#;

/// The rows of conda_meta. A row on a file gives the edits of the file above, each an old text and
/// the new one in its place.
pub fn answer(alloc: Global, call: &str, arguments: &[Text]) -> Result<Option<String>, AllocError> {
    match call {
        "revision" => revision(alloc, arguments),
        "prefix" => prefix(alloc, arguments),
        "fold" => folded(alloc, arguments),
        "agrees" => match arguments {
            [set, block, words] => agreed(alloc, set.as_str(), block.as_str(), words.as_str()),
            _ => Ok(None),
        },
        _ => Ok(None),
    }
}

/// The text with the edits.
fn edited(alloc: Global, text: &str, edits: &[Text]) -> Result<Option<String>, AllocError> {
    let mut made = String::from_str(alloc, text)?;
    let mut left = edits;
    while let [old, new, rest @ ..] = left {
        let Some((front, behind)) = made.as_str().split_once(old.as_str()) else {
            return Ok(None);
        };
        let new = new.as_str();
        made = format!(in alloc; "{front}{new}{behind}")?;
        left = rest;
    }
    if left.is_empty() {
        Ok(Some(made))
    } else {
        Ok(None)
    }
}

fn kind_name(kind: Kind) -> &'static str {
    match kind {
        Kind::File => "file",
        Kind::Exec => "exec",
        Kind::Soft => "soft",
    }
}

/// Appends goods, each with its kind and size.
fn push_goods(alloc: Global, made: &mut String, goods: &[Good]) -> Result<(), AllocError> {
    for good in goods {
        let path = good.path.as_str();
        let kind = kind_name(good.kind);
        let size = good.size;
        made.push_str(format!(in alloc; " {path} {kind} {size}")?.as_str())?;
    }
    Ok(())
}

/// Appends packages and their goods.
fn push_linked(alloc: Global, made: &mut String, linked: &[Linked]) -> Result<(), AllocError> {
    for one in linked {
        let dist = one.rec.dist.text();
        made.push_str(format!(in alloc; " {dist}")?.as_str())?;
        push_goods(alloc, made, one.goods.list())?;
    }
    Ok(())
}

/// Appends the names of requested specifications.
fn push_requested(alloc: Global, made: &mut String, specs: &[Spec]) -> Result<(), AllocError> {
    made.push_str(", requested")?;
    for spec in specs {
        let name = spec.name();
        made.push_str(format!(in alloc; " {name}")?.as_str())?;
    }
    Ok(())
}

/// What is wrong with a file.
fn refusal(alloc: Global, e: MetaErr) -> Result<Option<String>, AllocError> {
    match e {
        MetaErr::Memory => Err(AllocError),
        e => Ok(Some(format!(in alloc; "{e}")?)),
    }
}

/// Whether bytes are written again as they are.
fn same_word(text: Result<Vec<u8>, MetaErr>, bytes: &[u8]) -> Result<&'static str, AllocError> {
    match text {
        Ok(text) if text.as_slice() == bytes => Ok("same text"),
        Ok(_) => Ok("other text"),
        Err(_) => Err(AllocError),
    }
}

fn revision(alloc: Global, edits: &[Text]) -> Result<Option<String>, AllocError> {
    let Some(text) = edited(alloc, REVISION, edits)? else {
        return Ok(None);
    };
    match Revision::read(alloc, text.as_str().as_bytes()) {
        Ok(revision) => Ok(Some(shown_revision(alloc, &revision, text.as_str())?)),
        Err(e) => refusal(alloc, e),
    }
}

/// What a revision has, and whether its text is the one that was read.
fn shown_revision(alloc: Global, revision: &Revision, text: &str) -> Result<String, AllocError> {
    let mut made = String::from_str(alloc, "linked")?;
    push_linked(alloc, &mut made, revision.linked.as_slice())?;
    push_requested(alloc, &mut made, revision.requested.as_slice())?;
    made.push_str(", unlinked")?;
    for dist in revision.unlinked.as_slice() {
        let dist = dist.text();
        made.push_str(format!(in alloc; " {dist}")?.as_str())?;
    }
    let word = same_word(revision.text(alloc), text.as_bytes())?;
    made.push_str(format!(in alloc; ", {word}")?.as_str())?;
    Ok(made)
}

fn prefix(alloc: Global, edits: &[Text]) -> Result<Option<String>, AllocError> {
    let Some(text) = edited(alloc, PREFIX, edits)? else {
        return Ok(None);
    };
    match prefix_read(alloc, text.as_str().as_bytes()) {
        Ok(linked) => Ok(Some(shown_package(alloc, &linked, text.as_str())?)),
        Err(e) => refusal(alloc, e),
    }
}

/// What a package has, and whether its text is the one that was read.
fn shown_package(alloc: Global, linked: &Linked, text: &str) -> Result<String, AllocError> {
    let mut made = String::from_str(alloc, linked.rec.dist.text())?;
    push_goods(alloc, &mut made, linked.goods.list())?;
    let word = same_word(prefix_text(alloc, linked), text.as_bytes())?;
    made.push_str(format!(in alloc; ", {word}")?.as_str())?;
    Ok(made)
}

/// A revision as words: `+NAME` links a package of this name, `-NAME` unlinks it, another word is
/// requested.
fn worded(alloc: Global, words: &str) -> Result<Option<Revision>, AllocError> {
    let mut linked = String::new(alloc);
    let mut unlinked = String::new(alloc);
    let mut requested = String::new(alloc);
    for word in words.split_whitespace() {
        if let Some(name) = word.strip_prefix("+") {
            let (name, size) = match name.split_once('/') {
                Some(cut) => cut,
                None => (name, "0"),
            };
            push_item(
                alloc,
                &mut linked,
                format!(in alloc;
                    "{{\"goods\":[{{\"kind\":\"file\",\"path\":\"{name}\",\"sha256\":\"ba7816bf8f01cfea414140de5dae2223b00361a396177a9cb410ff61f20015ad\",\"size\":{size}}}],\"record\":{{\"build\":\"0\",\"build_number\":0,\"channel\":\"main\",\"depends\":[],\"dist\":\"{name}-1-0\",\"name\":\"{name}\",\"subdir\":\"noarch\",\"version\":\"1\"}}}}"
                )?.as_str(),
            )?;
        } else if let Some(name) = word.strip_prefix("-") {
            push_item(
                alloc,
                &mut unlinked,
                format!(in alloc; "\"{name}-1-0\"")?.as_str(),
            )?;
        } else {
            push_item(
                alloc,
                &mut requested,
                format!(in alloc; "\"{word}\"")?.as_str(),
            )?;
        }
    }
    let linked = linked.as_str();
    let unlinked = unlinked.as_str();
    let requested = requested.as_str();
    let text = format!(in alloc;
        "{{\"linked\":[{linked}],\"requested\":[{requested}],\"unlinked\":[{unlinked}]}}"
    )?;
    match Revision::read(alloc, text.as_str().as_bytes()) {
        Ok(revision) => Ok(Some(revision)),
        Err(MetaErr::Memory) => Err(AllocError),
        Err(_) => Ok(None),
    }
}

/// Appends an item behind others.
fn push_item(alloc: Global, items: &mut String, item: &str) -> Result<(), AllocError> {
    let _ = alloc;
    if !items.as_str().is_empty() {
        items.push_str(",")?;
    }
    items.push_str(item)
}

fn folded(alloc: Global, texts: &[Text]) -> Result<Option<String>, AllocError> {
    let mut revisions = Vec::new(alloc);
    for text in texts {
        if text.as_str().is_empty() {
            continue;
        }
        let Some(revision) = worded(alloc, text.as_str())? else {
            return Ok(None);
        };
        revisions.push(revision)?;
    }
    let folded = match fold(alloc, revisions.as_slice()) {
        Ok(folded) => folded,
        Err(_) => return Err(AllocError),
    };
    let mut made = String::from_str(alloc, "linked")?;
    push_linked(alloc, &mut made, folded.linked.as_slice())?;
    push_requested(alloc, &mut made, folded.requested.as_slice())?;
    Ok(Some(made))
}

/// The dists of these names.
fn dists_of(alloc: Global, names: &str) -> Result<Option<BTreeSet<Dist>>, AllocError> {
    let mut dists = BTreeSet::new(alloc);
    for name in names.split_whitespace() {
        let text = format!(in alloc; "{name}-1-0")?;
        let Ok(dist) = Dist::read(alloc, text.as_str()) else {
            return Ok(None);
        };
        let _ = dists.insert(dist)?;
    }
    Ok(Some(dists))
}

/// The block of the history whose lines are these words, each a name behind its sign.
fn block_of(alloc: Global, words: &str) -> Result<Option<Block>, AllocError>
    ensures { IfOk result (λ made. IfSome made (λ block. Ascending block.removed)) }
{
    let mut text = String::from_str(alloc, "==> 2026-01-01 00:00:00 <==\n")?;
    for word in words.split_whitespace() {
        text.push_str(format!(in alloc; "{word}-1-0\n")?.as_str())?;
    }
    let Ok(history) = History::read(alloc, text.as_str().as_bytes()) else {
        return Ok(None);
    };
    match history.blocks.as_slice() {
        [block, ..] => Ok(Some(block.copy()?)),
        [] => Ok(None),
    }
}

/// Whether a revision agrees with a block behind a set.
fn agreed(
    alloc: Global,
    set: &str,
    block: &str,
    words: &str,
) -> Result<Option<String>, AllocError> {
    let Some(set) = dists_of(alloc, set)? else {
        return Ok(None);
    };
    let Some(block) = block_of(alloc, block)? else {
        return Ok(None);
    };
    let Some(revision) = worded(alloc, words)? else {
        return Ok(None);
    };
    let answer = if revision.agrees(&set, &block) {
        "yes"
    } else {
        "no"
    };
    Ok(Some(String::from_str(alloc, answer)?))
}

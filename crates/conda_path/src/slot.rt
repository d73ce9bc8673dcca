ghost use Rattle.std.specs.Prelude.{◌≡◌, fold};
ghost use Rattle.std.specs.Hash as fed;
ghost use Rattle.std.specs.List.{flat_map};
ghost use Rattle.conda_path.specs.Slots.{slot_text, HasNoSlash};
ghost use Rattle.std.specs.Ordering.{nat_cmp};
ghost use Rattle.std.specs.Cmp.Lexicographic.{slice_cmp};
ghost use Rattle.conda_path.specs.declared.slot.SlotKey.{SlotKey};

use crate::dist::Dist;
use crate::rel_path::RelPath;
use conda_base::{Copied, Text, cut_laws};
use std::alloc::AllocError;
use std::cmp::Ordering;
use std::hash::{Hash, Hasher};

/// A package in a channel, its folder in the cache and its slot: `<channel>/<subdir>/<dist>`.
///
/// Keys are compared and hashed by the bytes of that text. A channel's name holds no `/`, and of
/// such keys no two have one text.
#[derive(Clone, Debug, Drop)]
pub struct SlotKey {
    pub channel: Text,
    pub subdir: Text,
    pub dist: Dist,
}

/// A path in a package's folder in the cache.
#[derive(Clone, Debug, PartialEq, Eq, PartialOrd, Ord, Hash, Drop)]
pub struct StorePath {
    pub key: SlotKey,
    pub path: RelPath,
}

impl Copied for SlotKey {
    fn copy(&self) -> Result<SlotKey, AllocError> {
        self.clone()
    }
}

impl Copied for StorePath {
    fn copy(&self) -> Result<StorePath, AllocError> {
        self.clone()
    }
}

/// The order of two keys by the bytes of their texts. It takes no memory.
fn slot_cmp(a: &SlotKey, b: &SlotKey) -> Ordering
    ensures { result ≡ slice_cmp nat_cmp (slot_text a.now) (slot_text b.now) }
{
    let ours = a
        .channel
        .as_str()
        .as_bytes()
        .iter()
        .chain(b"/")
        .chain(a.subdir.as_str().as_bytes())
        .chain(b"/")
        .chain(a.dist.text().as_bytes());
    let theirs = b
        .channel
        .as_str()
        .as_bytes()
        .iter()
        .chain(b"/")
        .chain(b.subdir.as_str().as_bytes())
        .chain(b"/")
        .chain(b.dist.text().as_bytes());
    ours.cmp(theirs)
}

/// Keys whose channels and dists hold no `/` are told apart by their texts.
pub fn one_key()
    ensures { (a b : SlotKey) → HasNoSlash a → HasNoSlash b → slot_text a ≡ slot_text b → a ≡ b }
{
    cut_laws();
}

impl PartialEq for SlotKey {
    ghost use Rattle.std.specs.Prelude.{nat_eq};
    ghost use Rattle.std.specs.Ordering.{on};
    ghost use Rattle.std.specs.Cmp.{partial_equiv_from_equiv};
    ghost use Rattle.std.specs.Cmp.Lexicographic.{on_texts_equal, pointwise};
    ghost use Rattle.conda_path.specs.Slots.{slot_text};

    ghost eq = { on slot_text (pointwise nat_eq) };

    ghost laws = { partial_equiv_from_equiv (on_texts_equal slot_text) };

    fn eq(&self, other: &SlotKey) -> bool {
        slot_cmp(self, other).is_eq()
    }
}

impl Eq for SlotKey {
    ghost use Rattle.std.specs.Cmp.Lexicographic.{on_texts_equal};
    ghost use Rattle.conda_path.specs.Slots.{slot_text};

    ghost laws = { on_texts_equal slot_text };
}

/// Feeds bytes to a hasher, one by one.
fn feed<H: Hasher>(state: &mut H, bytes: &[u8])
    ensures { state.new ≡ fold H.write state.old (flat_map fed.u8 bytes.now) }
{
    for byte in bytes {
        state.write_u8(*byte);
    }
}

impl Hash for SlotKey {
    ghost use Rattle.std.specs.Hash as fed;
    ghost use Rattle.std.specs.Hash.{on_Alike, same_Alike};
    ghost use Rattle.std.specs.Cmp.Lexicographic.{bytes_decides};
    ghost use Rattle.std.specs.List.{flat_map};
    ghost use Rattle.conda_path.specs.Slots.{slot_text};

    ghost hash_input = { λ key. flat_map fed.u8 (slot_text key) };

    ghost respects_eq = { (on_Alike slot_text (same_Alike (flat_map fed.u8) bytes_decides)).fed };

    fn hash<H: Hasher>(&self, state: &mut H) {
        feed(state, self.channel.as_str().as_bytes());
        state.write_u8(b'/');
        feed(state, self.subdir.as_str().as_bytes());
        state.write_u8(b'/');
        feed(state, self.dist.text().as_bytes());
    }
}

impl PartialOrd for SlotKey {
    ghost use Rattle.std.specs.Prelude.{Some};
    ghost use Rattle.std.specs.Ordering.{nat_cmp, on};
    ghost use Rattle.std.specs.Cmp.{on_po};
    ghost use Rattle.std.specs.Cmp.Lexicographic.{slice_cmp, texts_po};
    ghost use Rattle.conda_path.specs.Slots.{slot_text};

    ghost partial_cmp = { λ a b. Some (slice_cmp nat_cmp (slot_text a) (slot_text b)) };

    ghost laws = { on_po slot_text texts_po };

    fn partial_cmp(&self, other: &SlotKey) -> Option<Ordering> {
        Some(slot_cmp(self, other))
    }
}

impl Ord for SlotKey {
    ghost use Rattle.std.specs.Prelude.{refl};
    ghost use Rattle.std.specs.Ordering.{nat_cmp, on};
    ghost use Rattle.std.specs.Cmp.Lexicographic.{on_texts, slice_cmp, texts_ties};
    ghost use Rattle.conda_path.specs.Slots.{slot_text};

    ghost cmp = { on slot_text (slice_cmp nat_cmp) };

    ghost total = { on_texts slot_text };

    ghost matches_partial_cmp = { λ a b. refl };

    ghost matches_eq = { λ a b. texts_ties (slot_text a) (slot_text b) };

    fn cmp(&self, other: &SlotKey) -> Ordering {
        slot_cmp(self, other)
    }
}

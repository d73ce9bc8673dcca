ghost use Rattle.std.specs.Prelude.{◌≡◌, ◌++◌, IfErr, IfOk, IsUtf8, Ok, OnOk};
ghost use Rattle.std.specs.List.{AllByRecursion, flat_map};
ghost use Rattle.conda_history.specs.Blocks.{IsBlock};
ghost use Rattle.conda_history.specs.Reading.{history_read};
ghost use Rattle.conda_history.specs.Stamps.{header_text};
ghost use Rattle.conda_history.specs.Texts as texts;
ghost use Rattle.conda_history.specs.Texts.{block_text, history_text};

use crate::laws::text_laws;
use crate::revision::{Block, History, HistoryErr};
use crate::stamp::{Stamp, moment};
use conda_base::Bytes;
use conda_path::Dist;
use std::alloc::{AllocError, Global};

/// Appends the header line of a stamp.
fn push_header(text: &mut Vec<u8>, stamp: Stamp) -> Result<(), AllocError>
    ensures { OnOk result (text.new.items ≡ text.old.items ++ texts.ended (header_text stamp)) }
{
    let moment = moment(stamp);
    text.extend_from_slice(b"==> ")?;
    text.extend_from_slice(moment.as_slice())?;
    text.extend_from_slice(b" <==\n")
}

/// Appends a line of a dist behind a sign, if there is one.
fn push_dist(text: &mut Vec<u8>, sign: &[u8], dist: &Dist) -> Result<(), AllocError>
    ensures text { OnOk result (text.new.items
        ≡ text.old.items ++ (sign.now ++ texts.ended dist.now)) }
    ensures utf8 { OnOk result (IsUtf8 dist.now) }
{
    text.extend_from_slice(sign)?;
    text.extend_from_slice(dist.text().as_bytes())?;
    text.push(b'\n')?;
    Ok(())
}

/// Appends a line for each of the dists.
fn push_dists(text: &mut Vec<u8>, sign: &[u8], dists: &[Dist]) -> Result<(), AllocError>
    ensures text { OnOk result (text.new.items
        ≡ text.old.items ++ flat_map (λ dist. sign.now ++ texts.ended dist) dists.now) }
    ensures utf8 { OnOk result (AllByRecursion IsUtf8 dists.now) }
{
    for dist in dists {
        push_dist(text, sign, dist)?;
    }
    Ok(())
}

/// Appends the text of a block.
fn push_block(text: &mut Vec<u8>, block: &Block) -> Result<(), AllocError>
    ensures text { OnOk result (text.new.items ≡ text.old.items ++ block_text block.now) }
    ensures utf8 { OnOk result (AllByRecursion IsUtf8 (texts.shown block.now)) }
{
    push_header(text, block.stamp)?;
    if block.whole {
        push_dists(text, b"", block.added.as_slice())?;
        return Ok(());
    }
    push_dists(text, b"-", block.removed.as_slice())?;
    push_dists(text, b"+", block.added.as_slice())?;
    Ok(())
}

/// The text of blocks.
fn text_of(alloc: Global, blocks: &[Block]) -> Result<Vec<u8>, AllocError>
    ensures text { IfOk result (λ text. text.items ≡ history_text blocks.now) }
    ensures utf8 { OnOk result (texts.AreTexts blocks.now) }
{
    let mut text = Vec::new(alloc);
    for block in blocks {
        push_block(&mut text, block)?;
    }
    Ok(text)
}

impl History {
    /// The text of the history: for each block its header line, a line `-dist` for each removed dist
    /// and a line `+dist` for each added one; the dists of a whole block have no sign. Each line ends
    /// with a newline.
    ///
    /// What is read of a text is read again of this one. Of a stamp that doesn't exist the header
    /// line may hold other characters than digits.
    pub fn text(&self, alloc: Global) -> Result<Bytes, HistoryErr>
        ensures exact { IfOk result (λ text. text ≡ history_text self.now.blocks) }
        ensures again { IfOk result (λ text. AllByRecursion IsBlock self.now.blocks
            → history_read text ≡ Ok self.now) }
        ensures memory { IfErr result (λ e. e ≡ HistoryErr.Memory) }
    {
        text_laws();
        match text_of(alloc, self.blocks.as_slice()) {
            Ok(text) => Ok(Bytes::from_vec(text)),
            Err(_) => Err(HistoryErr::Memory),
        }
    }
}

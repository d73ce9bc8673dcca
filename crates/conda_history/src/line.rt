ghost use Rattle.std.specs.Prelude.{◌≡◌, IfOk, false, option_map};
ghost use Rattle.conda_history.specs.Lines as lines;
ghost use Rattle.conda_history.specs.declared.line.Line.TheVariants as says;

use crate::pieces::{behind, dist_part, middle_of, says_nothing, text_of, without_ends};
use crate::stamp::{Stamp, read_moment};
use conda_path::{Dist, DistErr, dist_laws};
use std::alloc::{AllocError, Global};

/// What a line says.
#[derive(Debug, Drop)]
pub enum Line {
    /// An empty line or a comment.
    Nothing,
    Header(Stamp),
    Removed(Dist),
    Added(Dist),
    /// A dist without a sign.
    Plain(Dist),
}

/// The dist that a text behind its sign names.
fn read_dist(alloc: Global, text: &str) -> Result<Option<Dist>, AllocError>
    ensures { IfOk result (λ dist. dist ≡ lines.dist_of text.now) }
{
    dist_laws();
    match Dist::read(alloc, dist_part(text)) {
        Ok(dist) => Ok(Some(dist)),
        Err(DistErr::BadDist) => Ok(None),
        Err(DistErr::Memory) => Err(AllocError),
    }
}

/// What a text behind a `-` says.
fn read_removed(alloc: Global, text: &str) -> Result<Option<Line>, AllocError>
    ensures { IfOk result (λ line. line ≡ option_map says.Removed (lines.dist_of text.now)) }
{
    Ok(read_dist(alloc, text)?.map(Line::Removed))
}

/// What a text behind a `+` says.
fn read_added(alloc: Global, text: &str) -> Result<Option<Line>, AllocError>
    ensures { IfOk result (λ line. line ≡ option_map says.Added (lines.dist_of text.now)) }
{
    Ok(read_dist(alloc, text)?.map(Line::Added))
}

/// What a line says that is neither empty, nor a comment, nor a header line.
fn read_entry(alloc: Global, text: &str) -> Result<Option<Line>, AllocError>
    requires { lines.says_nothing text.now ≡ false }
    ensures { IfOk result (λ line. line ≡ lines.entry_of text.now) }
{
    if let Some(rest) = behind(text, '-') {
        return read_removed(alloc, rest);
    }
    if let Some(rest) = behind(text, '+') {
        return read_added(alloc, rest);
    }
    Ok(read_dist(alloc, text)?.map(Line::Plain))
}

/// What a line says that is no header line.
fn read_named(alloc: Global, text: &str) -> Result<Option<Line>, AllocError>
    ensures { IfOk result (λ line. line ≡ lines.named_of text.now) }
{
    if says_nothing(text.as_bytes()) {
        return Ok(Some(Line::Nothing));
    }
    read_entry(alloc, text)
}

/// What a header line says, by what stands between its marks.
fn read_header(middle: &str) -> Option<Line>
    ensures { result ≡ lines.header_of middle.now }
{
    let moment = without_ends(middle, ' ');
    read_moment(moment.as_bytes()).map(Line::Header)
}

/// What a line between its blanks says.
fn read_said(alloc: Global, text: &str) -> Result<Option<Line>, AllocError>
    ensures { IfOk result (λ line. line ≡ lines.said_of text.now) }
{
    match middle_of(text) {
        Some(middle) => Ok(read_header(middle)),
        None => read_named(alloc, text),
    }
}

/// What a line says, which is given without its newline; None where it is none of a history.
pub fn read_line(alloc: Global, raw: &[u8]) -> Result<Option<Line>, AllocError>
    ensures { IfOk result (λ line. line ≡ lines.line_of raw.now) }
{
    match text_of(raw) {
        Some(text) => read_said(alloc, without_ends(text, '\r')),
        None => Ok(None),
    }
}

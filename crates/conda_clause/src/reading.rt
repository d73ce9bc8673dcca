ghost use Rattle.std.specs.Prelude.{◌≡◌, [], ◌++◌, IfOk, None, OnOk};
ghost use Rattle.std.specs.List.{cons_option};
ghost use Rattle.conda_clause.specs.Clause.{clause_fault, closers, fault_from, lesser, step, unclosed};
ghost use Rattle.conda_clause.specs.Pieces.{pieces, token_of, tokens};

use crate::error::SpecWhy;
use crate::token::{Token, piece_len, read_piece};
use std::alloc::{AllocError, Global};

/// What may come next in a clause.
#[derive(Clone, Copy, Debug)]
pub enum Wanted {
    /// A test or a `(`.
    Atom,
    /// A `,`, a `|`, a `)` or the end.
    Joint,
}

fn step(wanted: Wanted, depth: usize, token: &Option<Token>) -> Result<(Wanted, usize), SpecWhy>
    ensures { result ≡ step wanted depth token.now }
{
    match wanted {
        Wanted::Atom => match token {
            Some(Token::Open) => {
                if depth < 32 {
                    Ok((Wanted::Atom, depth + 1))
                } else {
                    Err(SpecWhy::Paren)
                }
            }
            Some(Token::Test(_)) => Ok((Wanted::Joint, depth)),
            Some(Token::Close) => {
                if 0 < depth {
                    Err(SpecWhy::Version)
                } else {
                    Err(SpecWhy::Paren)
                }
            }
            Some(Token::And | Token::Or) | None => Err(SpecWhy::Version),
        },
        Wanted::Joint => match token {
            Some(Token::And | Token::Or) => Ok((Wanted::Atom, depth)),
            Some(Token::Close) => {
                if 0 < depth {
                    Ok((Wanted::Joint, depth - 1))
                } else {
                    Err(SpecWhy::Paren)
                }
            }
            Some(Token::Open) => Err(SpecWhy::Paren),
            Some(Token::Test(_)) | None => Err(SpecWhy::Version),
        },
    }
}

// Reads a piece: the step that it makes, and its token, which is added.
fn read_next(
    alloc: Global,
    piece: &[u8],
    wanted: Wanted,
    depth: usize,
    made: &mut Vec<Token>,
) -> Result<Result<(Wanted, usize), SpecWhy>, AllocError>
    ensures step { IfOk result (λ s. s ≡ step wanted depth (token_of piece.now)) }
    ensures made { OnOk result
        (made.new.items ≡ made.old.items ++ cons_option (token_of piece.now) []) }
{
    let token = read_piece(alloc, piece)?;
    let next = step(wanted, depth, &token);
    add_token(token, made)?;
    Ok(next)
}

fn add_token(token: Option<Token>, made: &mut Vec<Token>) -> Result<(), AllocError>
    ensures { OnOk result (made.new.items ≡ made.old.items ++ cons_option token []) }
{
    if let Some(token) = token {
        made.push(token)?;
    }
    Ok(())
}

// The first fault from the left. Where there is none, the tokens of the text are added.
fn left_fault(
    alloc: Global,
    text: &[u8],
    made: &mut Vec<Token>,
) -> Result<Option<(usize, SpecWhy)>, AllocError>
    ensures fault { IfOk result (λ f. f ≡ fault_from Wanted.Atom 0 0 (pieces text.now)) }
    ensures tokens { IfOk result
        (λ f. f ≡ None → made.new.items ≡ made.old.items ++ tokens text.now) }
{
    let mut wanted = Wanted::Atom;
    let mut depth = 0;
    let mut at = 0;
    let mut left = text;
    while !left.is_empty() {
        let (piece, rest) = left.split_at(piece_len(left));
        match read_next(alloc, piece, wanted, depth, made)? {
            Ok((next, deep)) => {
                wanted = next;
                depth = deep;
            }
            Err(why) => return Ok(Some((at, why))),
        }
        at += piece.len();
        left = rest;
    }
    match wanted {
        Wanted::Atom => Ok(Some((at, SpecWhy::Version))),
        Wanted::Joint => Ok(None),
    }
}

// The place of the first `(` that no `)` closes.
fn unclosed(text: &[u8]) -> Option<usize>
    ensures { result ≡ unclosed 0 text.now }
{
    let mut closers: usize = 0;
    let mut found = None;
    for at in (0..text.len()).rev() {
        if text[at] == b'(' {
            if closers == 0 {
                found = Some(at);
            }
            closers = closers.saturating_sub(1);
        } else if text[at] == b')' {
            closers += 1;
        }
    }
    found
}

/// What is wrong with a clause in lower case, and where. Where nothing is, its tokens are added.
pub fn read_tokens(
    alloc: Global,
    text: &[u8],
    made: &mut Vec<Token>,
) -> Result<Option<(usize, SpecWhy)>, AllocError>
    ensures fault { IfOk result (λ f. f ≡ clause_fault text.now) }
    ensures tokens { IfOk result
        (λ f. f ≡ None → made.new.items ≡ made.old.items ++ tokens text.now) }
{
    let found = left_fault(alloc, text, made)?;
    Ok(lesser(unclosed(text), found))
}

// The fault at the lesser place, of which the first is an unclosed parenthesis.
fn lesser(unclosed: Option<usize>, found: Option<(usize, SpecWhy)>) -> Option<(usize, SpecWhy)>
    ensures { result ≡ lesser unclosed found }
{
    match unclosed {
        None => found,
        Some(paren) => match found {
            Some((at, why)) => {
                if at < paren {
                    Some((at, why))
                } else {
                    Some((paren, SpecWhy::Paren))
                }
            }
            None => Some((paren, SpecWhy::Paren)),
        },
    }
}

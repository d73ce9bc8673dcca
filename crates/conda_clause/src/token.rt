ghost use Rattle.std.specs.Prelude.{◌≡◌, ◌≤◌, ◌<◌, ◌+◌, IfOk, length, ◌^◌};
ghost use Rattle.conda_clause.specs.Pieces.{begins_test, is_mark, piece_len, token_of};

use crate::test::{Test, read_test};
use conda_base::Copied;
use std::alloc::{AllocError, Global};

/// A token of a version clause.
#[derive(Clone, Debug, Drop)]
pub enum Token {
    Open,
    Close,
    /// `,`
    And,
    /// `|`
    Or,
    Test(Test),
}

impl Copied for Token {
    fn copy(&self) -> Result<Token, AllocError> {
        self.clone()
    }
}

fn is_mark(b: u8) -> bool
    ensures { result ≡ is_mark b }
{
    matches!(b, b',' | b'|' | b'(' | b')')
}

/// How long the first piece of a text is.
pub fn piece_len(text: &[u8]) -> usize
    requires { 0 < length text.now }
    ensures len { result ≡ piece_len text.now }
    ensures some { 0 < result }
    ensures inside { result ≤ length text.now }
{
    if is_mark(text[0]) {
        return 1;
    }
    for (at, b) in text.iter().enumerate() {
        if is_mark(*b) {
            return at;
        }
    }
    text.len()
}

/// The token that a piece means, if it means one.
pub fn read_piece(alloc: Global, piece: &[u8]) -> Result<Option<Token>, AllocError>
    ensures { IfOk result (λ t. t ≡ token_of piece.now) }
{
    match piece {
        [] => Ok(None),
        [b'(', ..] => Ok(Some(Token::Open)),
        [b')', ..] => Ok(Some(Token::Close)),
        [b',', ..] => Ok(Some(Token::And)),
        [b'|', ..] => Ok(Some(Token::Or)),
        _ => match read_test(alloc, piece)? {
            Some(test) => Ok(Some(Token::Test(test))),
            None => Ok(None),
        },
    }
}

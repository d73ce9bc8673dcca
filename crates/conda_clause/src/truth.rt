ghost use Rattle.std.specs.Prelude.{◌≡◌, ◌+◌, ◌≤◌, ◌<◌, ◌^◌, false};
ghost use Rattle.conda_clause.specs.Truth.{depth_of, read_token, tokens_true};

use crate::token::Token;
use conda_version::Version;

/// What is done with the tokens behind a token.
#[derive(Clone, Copy, Debug)]
pub enum Pass {
    /// They are read.
    Read,
    /// They are passed over, since they can't change what is said. So many parentheses were opened
    /// in them.
    Over(usize),
}

// What is said behind a token, and what is done with those that follow.
fn read_token(version: &Version, value: bool, pass: Pass, token: &Token) -> (bool, Pass)
    requires { depth_of pass + 1 < 2 ^ 64 }
    ensures next { result ≡ read_token version.now value pass token.now }
    ensures depth { depth_of result.1 ≤ depth_of pass + 1 }
{
    match pass {
        Pass::Read => match token {
            Token::Test(test) => (test.holds(version), Pass::Read),
            Token::Open | Token::Close => (value, Pass::Read),
            Token::And => (value, if value { Pass::Read } else { Pass::Over(0) }),
            Token::Or => (value, if value { Pass::Over(0) } else { Pass::Read }),
        },
        Pass::Over(depth) => match token {
            Token::Test(_) | Token::And => (value, Pass::Over(depth)),
            Token::Open => (value, Pass::Over(depth + 1)),
            Token::Close if depth == 0 => (value, Pass::Read),
            Token::Close => (value, Pass::Over(depth - 1)),
            Token::Or if depth == 0 && !value => (value, Pass::Read),
            Token::Or => (value, Pass::Over(depth)),
        },
    }
}

/// Whether tokens hold for a version.
pub fn tokens_true(version: &Version, tokens: &[Token]) -> bool
    ensures { result ≡ tokens_true version.now false Pass.Read tokens.now }
{
    let mut value = false;
    let mut pass = Pass::Read;
    for token in tokens {
        let (next, then) = read_token(version, value, pass, token);
        value = next;
        pass = then;
    }
    value
}

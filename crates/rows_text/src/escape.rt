use std::alloc::{AllocError, Global};

/// What one letter behind `\` stands for.
const LETTERS: [(&str, &str); 5] = [
    ("n", "\n"),
    ("t", "\t"),
    ("r", "\r"),
    ("s", " "),
    ("p", "|"),
];

/// The text that an argument of a row stands for, or None where a `\` has nothing behind it that it
/// stands for.
pub fn unescaped(alloc: Global, argument: &str) -> Result<Option<String>, AllocError> {
    let mut made = String::new(alloc);
    let mut is_plain = true;
    for piece in argument.split('\\') {
        if is_plain {
            made.push_str(piece)?;
            is_plain = false;
        } else if piece.is_empty() {
            made.push('\\')?;
            is_plain = true;
        } else if !push_escaped(&mut made, piece)? {
            return Ok(None);
        }
    }
    if is_plain {
        return Ok(None);
    }
    Ok(Some(made))
}

/// Appends what a piece behind `\` stands for, if it stands for something.
fn push_escaped(made: &mut String, piece: &str) -> Result<bool, AllocError> {
    for (letter, meant) in LETTERS {
        if let Some(rest) = piece.strip_prefix(letter) {
            made.push_str(meant)?;
            made.push_str(rest)?;
            return Ok(true);
        }
    }
    if let Some(rest) = piece.strip_prefix("x") {
        return push_numbered(made, rest);
    }
    if let Some(rest) = piece.strip_prefix("(") {
        return push_repeated(made, rest);
    }
    Ok(false)
}

/// Appends the character whose number stands in front in two hexadecimal digits, and what follows.
fn push_numbered(made: &mut String, piece: &str) -> Result<bool, AllocError> {
    let (Some(digits), Some(rest)) = (piece.get(..2), piece.get(2..)) else {
        return Ok(false);
    };
    let Ok(number) = u8::from_str_radix(digits, 16) else {
        return Ok(false);
    };
    made.push(char::from(number))?;
    made.push_str(rest)?;
    Ok(true)
}

/// Appends the text of `TEXT*N)` N times, and what follows.
fn push_repeated(made: &mut String, piece: &str) -> Result<bool, AllocError> {
    let Some((inside, rest)) = piece.split_once(')') else {
        return Ok(false);
    };
    let Some((unit, count)) = inside.split_once('*') else {
        return Ok(false);
    };
    let Ok(count) = count.parse::<u32>() else {
        return Ok(false);
    };
    for _ in 0..count {
        made.push_str(unit)?;
    }
    made.push_str(rest)?;
    Ok(true)
}

/// A text on one line: newlines, tabs and carriage returns by their letters behind `\`.
pub fn shown(alloc: Global, text: &str) -> Result<String, AllocError> {
    let mut made = String::new(alloc);
    for c in text.chars() {
        match c {
            '\n' => made.push_str("\\n")?,
            '\t' => made.push_str("\\t")?,
            '\r' => made.push_str("\\r")?,
            '\\' => made.push_str("\\\\")?,
            c => made.push(c)?,
        }
    }
    Ok(made)
}

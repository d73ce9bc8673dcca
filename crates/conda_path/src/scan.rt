ghost use Rattle.std.specs.Prelude.{◌≡◌, ◌+◌, ◌<◌, ◌^◌, length, true};
ghost use Rattle.std.specs.List.{before_first};
ghost use Rattle.conda_base.specs.Signs.{slash};
ghost use Rattle.conda_base.specs.Texts.{is_byte};
ghost use Rattle.conda_path.specs.Paths as paths;
ghost use Rattle.conda_path.specs.Bytes.{is_bad_of};

/// Which bytes are bad: the control bytes, or these and the space.
#[derive(Clone, Copy, Debug, PartialEq, Eq)]
pub enum Bad {
    Control,
    ControlOrSpace,
}

/// A byte that no path holds, or no prefix.
pub fn is_bad_byte(bad: Bad, byte: u8) -> bool
    ensures { result ≡ is_bad_of bad byte }
{
    match bad {
        Bad::Control => byte < 32 || byte == 127,
        Bad::ControlOrSpace => byte < 32 || byte == 127 || byte == b' ',
    }
}

/// Whether the part that begins here is empty, `.` or `..`.
pub fn begins_bad_part(rest: &[u8]) -> bool
    ensures { result ≡ paths.is_bad_part (before_first (is_byte slash) rest.now) }
{
    match rest {
        [] => true,
        [b'/', ..] => true,
        [b'.'] => true,
        [b'.', b'/', ..] => true,
        [b'.', b'.'] => true,
        [b'.', b'.', b'/', ..] => true,
        _ => false,
    }
}

/// The first offset, counted from `start`, where a bad part begins or a bad byte stands.
pub fn first_offence(bad: Bad, start: usize, path: &[u8]) -> Option<usize>
    requires { start + length path.now < 2 ^ 64 }
    ensures { result ≡ paths.first_offence (is_bad_of bad) true start path.now }
{
    let mut begins = true;
    for (offset, byte) in path.iter().enumerate() {
        if begins && begins_bad_part(&path[offset..]) {
            return Some(start + offset);
        }
        if is_bad_byte(bad, *byte) {
            return Some(start + offset);
        }
        begins = *byte == b'/';
    }
    if begins {
        Some(start + path.len())
    } else {
        None
    }
}

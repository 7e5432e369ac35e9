//! Whether a token is the one that is wanted.

ghost use Rattle.std.specs.Prelude.{◌≡◌, length};
ghost use Rattle.std.specs.Str.{bytes_eq};

/// Whether two tokens are the same. Its time depends on their lengths alone, so that nobody can find a token byte by
/// byte: no byte ends the loop early.
pub fn same_token(wanted: &[u8], given: &[u8]) -> bool
    ensures { result ≡ bytes_eq wanted.now given.now }
{
    wanted.len() == given.len() && same_bytes(wanted, given)
}

/// Whether two tokens of one length are the same.
fn same_bytes(wanted: &[u8], given: &[u8]) -> bool
    requires { length wanted.now ≡ length given.now }
    ensures { result ≡ bytes_eq wanted.now given.now }
{
    let mut same = true;
    for (i, byte) in wanted.iter().enumerate() {
        same &= *byte == given[i];
    }
    same
}

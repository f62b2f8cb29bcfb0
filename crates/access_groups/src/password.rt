//! Passwords, compared in a time that tells nothing of the one that is kept but its length.

ghost use Rattle.std.specs.Prelude.{◌≡◌};
ghost use Rattle.std.specs.Str.{bytes_eq};

/// Whether the bytes that were sent are this password. Where they are as many, all of them are
/// compared, wherever they differ, so that the time does not tell how far a guess is right.
pub(crate) fn is_password(password: &[u8], sent: &[u8]) -> bool
    ensures { result ≡ bytes_eq password.now sent.now }
{
    if password.len() != sent.len() {
        return false;
    }
    let mut difference: u8 = 0;
    for i in 0..password.len() {
        difference |= password[i] ^ sent[i];
    }
    difference == 0
}

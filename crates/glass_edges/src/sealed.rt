//! The digests that files hold, of 32 bytes each.

ghost use Rattle.std.specs.Prelude.{◌≡◌, length};

/// The digest that stands in 32 bytes of a file.
pub fn stored_digest(bytes: &[u8]) -> [u8; 32]
    requires { length bytes.now ≡ 32 }
    ensures { result ≡ bytes.now }
{
    let mut digest = [0u8; 32];
    digest.copy_from_slice(bytes);
    digest
}

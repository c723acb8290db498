// Bytes copied out.
ghost use Rattle.std.specs.Prelude.{◌≡◌, length};

/// So many bytes as an array.
pub fn copied<const N: usize>(raw: &[u8]) -> [u8; N]
    requires { length raw.now ≡ N }
    ensures { result ≡ raw.now }
{
    let mut bytes = [0u8; N];
    bytes.copy_from_slice(raw);
    bytes
}

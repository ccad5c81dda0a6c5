//! The version of the library, as one number that can be compared.
ghost use Rattle.std.specs.Prelude.{◌≡◌};
ghost use Rattle.confscript_c.specs.Version.{version};

/// Version 0.1.0: 10,000 for each major version, 100 for each minor one, and the patch.
const VERSION: u32 = 100;

/// The version of the library that is linked, to be compared with `CONFSCRIPT_VERSION` of the header that was included
/// (own).
#[unsafe(no_mangle)]
pub extern "C" fn confscript_version() -> u32
    ensures { result ≡ version }
{
    VERSION
}

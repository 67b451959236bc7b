// The boundary's version: it grows whenever a signature, a size or what a call returns changes.
ghost use Rattle.std.specs.Prelude.{◌≡◌};
ghost use Rattle.ssaldorip.specs.Calls.{version};

const VERSION: u32 = 2;

// The version of this library, for a program to hold to its own before its first other call.
#[unsafe(no_mangle)]
pub extern "C" fn ssaldorip_version() -> u32
    ensures { result ≡ version }
{
    VERSION
}

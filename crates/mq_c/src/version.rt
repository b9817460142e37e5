//! The version of the archive.

ghost use Rattle.std.specs.Prelude.{◌≡◌};

/// Returns the archive's version, as `MQ_VERSION` of the header has it.
#[unsafe(no_mangle)]
pub extern "C" fn mq_version() -> u32
    ensures { result ≡ 3 }
{
    3
}

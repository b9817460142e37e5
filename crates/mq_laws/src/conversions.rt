//! Laws of conversions. Each contract is a law, and the functions do nothing.

ghost use Rattle.mq_laws.specs.Conversions.{AllGoOut, AsItWas, FaultsStay, NothingLost, OnceIsEnough, OneConversion, OneFile, WrittenAsItWas};

/// States that a file is one capture.
pub fn one_file()
    ensures { OneFile }
{}

/// States that later bytes don't change a fault, except that of a truncated block.
pub fn faults_stay()
    ensures { FaultsStay }
{}

/// States that a classic capture of Ethernet in nanoseconds without tags is written unchanged, but for its header.
pub fn as_it_was()
    ensures { AsItWas }
{}

/// States that two conversions of a file find the same packets.
pub fn one_conversion()
    ensures { OneConversion }
{}

/// States that all packets go out if repeated ones may.
pub fn all_go_out()
    ensures { AllGoOut }
{}

/// States that leaving out repeated packets twice has the effect of doing it once.
pub fn once_is_enough()
    ensures { OnceIsEnough }
{}

/// States that each packet that is left out has its frame written, at most 5 ms away.
pub fn nothing_lost()
    ensures { NothingLost }
{}

/// States that a conversion of a capture as in `as_it_was` reaches its end and writes it unchanged. Failed reads,
/// writes and allocations are excepted.
pub fn written_as_it_was()
    ensures { WrittenAsItWas }
{}

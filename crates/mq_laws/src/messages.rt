//! Laws of codes, checksums and encodings of messages. The functions have no effect at run time: each contract is a
//! law.

ghost use Rattle.mq_wire.specs.Codes.{value8, value16, code8_of, code16_of};
ghost use Rattle.mq_laws.specs.Messages.{ChecksumIsBelow, CodesAreGreatest, CodesComeBack, NoFaultWhereSpelled, OneMessage, ReadsBack, RightWithItsChecksum, SpelledWhereNoFault, ValuesOfCodesStay};

/// The law `CodesComeBack`: the code for the value of a code is that code.
pub fn codes_come_back()
    ensures bits8 { CodesComeBack value8 255 }
    ensures bits16 { CodesComeBack value16 65535 }
{}

/// The law `CodesAreGreatest`: the computed code has the greatest value that is not above the number.
pub fn codes_are_greatest()
    ensures bits8 { CodesAreGreatest value8 code8_of 255 }
    ensures bits16 { CodesAreGreatest value16 code16_of 65535 }
{}

/// The law `RightWithItsChecksum`: a message with its checksum in its field is right.
pub fn right_with_its_checksum()
    ensures { RightWithItsChecksum }
{}

/// The law `ReadsBack`: a written query parses to that query, with response and interval lowered to values of codes.
pub fn written_is_read()
    ensures { ReadsBack }
{}

/// The law `ValuesOfCodesStay`: a response and an interval that a code has are not lowered.
pub fn values_of_codes_stay()
    ensures { ValuesOfCodesStay }
{}

/// The law `ChecksumIsBelow`: a written checksum is below 65535.
pub fn checksum_is_below()
    ensures { ChecksumIsBelow }
{}

/// The law `OneMessage`: no bytes encode two messages.
pub fn one_message()
    ensures { OneMessage }
{}

/// The law `NoFaultWhereSpelled`: bytes that encode a message have no fault.
pub fn no_fault_where_spelled()
    ensures { NoFaultWhereSpelled }
{}

/// The law `SpelledWhereNoFault`: bytes without a fault encode a message.
pub fn spelled_where_no_fault()
    ensures { SpelledWhereNoFault }
{}

//! Files of other kinds in place of a capture.

use crate::failure::FAULTY;
use crate::source::FIRST;
use mq_count::Watched;
use mq_text::print;
use std::io::Write;

const PCAPNG: &str = "  the file is pcapng: mquerier convert FILE | mquerier ..\n";

const GZIP: &str = "  the file is compressed by gzip: gunzip -c FILE | mquerier ..\n";

const ZSTD: &str = "  the file is compressed by zstd: zstd -dc FILE | mquerier ..\n";

/// Prints on standard error how to read a file with these first bytes, if it is no capture for the command.
///
/// It does so after the status of a fault. `converts` is set for a conversion and for a check, which read pcapng.
pub(crate) fn tell_kind<E: Write>(
    status: u8,
    first: [u8; FIRST],
    converts: bool,
    errors: &mut Watched<E>,
) {
    if status != FAULTY {
        return;
    }
    let line = match &first[..] {
        [0x0a, 0x0d, 0x0d, 0x0a, ..] if !converts => PCAPNG,
        [0x1f, 0x8b, ..] => GZIP,
        [0x28, 0xb5, 0x2f, 0xfd, ..] => ZSTD,
        _ => return,
    };
    let _ = print(line.as_bytes(), errors);
}

//! The search for a message of the checked router.

ghost use Rattle.std.specs.Prelude.{◌≡◌, Err};
ghost use Rattle.mq_arena.specs.Vectors.{Takes, bytes_for};
ghost use Rattle.mq_pcap.specs.Capture.{most_bytes};
ghost use Rattle.mq_pcap.specs.Filling.{input_of};
ghost use Rattle.mq_walk.specs.Faults.{is_granted};
ghost use Rattle.mq_check.specs.Unseen as spec;

use crate::basis::is_of_higher;
use crate::checked_family::CheckedFamily;
use mq_arena::{VectorSource, filled};
use mq_count::Watched;
use mq_lines::LineKey;
use mq_pcap::{GREATEST_PACKET, PcapFault, Ready, unwrap_frame};
use mq_walk::{CaptureFault, NumberedPacket, Step, Walked, walk};
use std::alloc::{AllocError, Allocator};
use std::io::Read;

/// Returns whether the router at `own` is unseen in a capture.
///
/// It is if nothing of the family comes from it, though a router with a higher address sends queries. The search ends at the
/// first datagram of the family from that address. Memory for one packet is allocated before anything is read. Fails with a
/// read that fails, and with a fault of the capture after such a query.
pub fn is_unseen_in<F: CheckedFamily, A: Allocator, M: VectorSource<A>, R: Read>(
    memory: &mut M,
    own: F::Address,
    reader: &mut Watched<R>,
) -> Result<bool, CaptureFault>
where
    F::Address: LineKey,
    ensures seeks { spec.Seeks F.FAMILY (F.Address.number own) (input_of R.remaining reader.old) (input_of R.remaining reader.new) result }
    ensures memory { result ≡ Err CaptureFault.Memory → reader.new ≡ reader.old }
    ensures takes { Takes (bytes_for 1 most_bytes) (M.less_than memory.old) (M.less_than memory.new) (is_granted result) }
{
    let packet: Result<Vec<u8, A>, AllocError> = filled(memory, 0, GREATEST_PACKET);
    let Ok(mut packet) = packet else {
        return Err(CaptureFault::Memory);
    };
    let mut seeking = Seeking::<F> {
        own,
        has_higher: false,
    };
    let read = walk(&mut seeking, packet.as_mut_slice(), &Ready, reader, &mut ());
    concluded(seeking.has_higher, read)
}

/// Returns whether the router is unseen, or why nothing can be said.
fn concluded(has_higher: bool, read: Result<Walked, Stop>) -> Result<bool, CaptureFault>
    ensures { result ≡ spec.concluded has_higher read }
{
    match read {
        Ok(_) => Ok(has_higher),
        Err(Stop::Heard) => Ok(false),
        Err(Stop::Fault(PcapFault::Read)) => Err(CaptureFault::Pcap(PcapFault::Read)),
        Err(Stop::Fault(fault)) if has_higher => Err(CaptureFault::Pcap(fault)),
        Err(Stop::Fault(_)) => Ok(false),
    }
}

/// The reason why a search ends before the capture does.
#[derive(Clone, Copy)]
enum Stop {
    /// A datagram of the family from the checked router.
    Heard,
    /// A fault of the capture, or a failed read.
    Fault(PcapFault),
}

impl From<PcapFault> for Stop {
    ghost use Rattle.std.specs.Prelude.{◌≡◌};
    ghost use Rattle.mq_check.specs.declared.unseen.Stop.TheVariants.{Fault};

    ghost from_gives = { λ fault it. it ≡ Fault fault };

    fn from(fault: PcapFault) -> Stop {
        Stop::Fault(fault)
    }
}

/// A search for a datagram from the checked router, and whether a query came from a router with a higher address.
#[derive(Drop)]
struct Seeking<F: CheckedFamily>
where
    F::Address: LineKey,
{
    own: F::Address,
    has_higher: bool,
}

impl<F: CheckedFamily> Step<()> for Seeking<F>
where
    F::Address: LineKey,
{
    ghost use Rattle.mq_check.specs.Unseen.{TakesSought};

    type Fault = Stop;

    ghost takes = { λ packet old new r. TakesSought F.FAMILY packet
        (record { own = F.Address.number old.0.own; has_higher = old.0.has_higher })
        (record { own = F.Address.number new.0.own; has_higher = new.0.has_higher }) r };

    ghost is_written = { λ _. Unit };

    fn packet(&mut self, packet: &NumberedPacket<'_>, _output: &mut ()) -> Result<(), Stop> {
        let inner = unwrap_frame(packet.link, packet.frame);
        let Some(datagram) = F::datagram(&inner) else {
            return Ok(());
        };
        if F::is_same(F::source(&datagram.envelope), self.own) {
            return Err(Stop::Heard);
        }
        self.has_higher = self.has_higher || is_of_higher::<F>(self.own, &datagram);
        Ok(())
    }
}

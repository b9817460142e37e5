//! The variables that the queries of a capture announce.

ghost use Rattle.std.specs.Prelude.{◌≡◌, Err, ⊤};
ghost use Rattle.mq_arena.specs.Vectors.{Takes, bytes_for};
ghost use Rattle.mq_pcap.specs.Capture.{most_bytes};
ghost use Rattle.mq_pcap.specs.Filling.{input_of};
ghost use Rattle.mq_walk.specs.Faults.{is_granted};
ghost use Rattle.mq_check.specs.Announced as spec;
ghost use Rattle.mq_check.specs.Numbered.{numbered_answer, numbered_query_if, numbered_sought_if};

use crate::checked_family::CheckedFamily;
use crate::others::Others;
use crate::seen_queries::query_spelled;
use crate::sought::{Sought, found_in, with_query};
use crate::stamp::Stamp;
use mq_arena::{OfAllocator, VectorSource, filled};
use mq_count::Watched;
use mq_lines::LineKey;
use mq_pcap::{GREATEST_PACKET, PcapFault, Ready, unwrap_frame};
use mq_walk::{CaptureFault, CapturedDatagram, CapturedFamily, NumberedPacket, Step, Walked, walk};
use mq_wire::{Query, WireKey};
use std::alloc::{AllocError, Allocator};
use std::io::Read;

/// The variables that a querier announces in its queries. A variable is None if no query has it, or if it is 0: then its
/// default holds. QRV may be 0. RFC 3376 sections 4.1.6 and 4.1.7, RFC 3810 sections 5.1.8 and 5.1.9. If the code of an
/// interval stands for several, the times between queries show the interval.
pub struct Announced<K: WireKey> {
    /// The querier's address: the lowest source of general queries, which is elected.
    pub querier: K,
    /// QRV of its first general query. If it is 0, the Robustness Variable is above 7.
    pub robustness: Option<u32>,
    /// The interval in seconds, from QQIC of its first general query.
    pub query_seconds: Option<u32>,
    /// The response of its first general query in milliseconds, decoded from its code.
    pub response_interval: Option<u32>,
    /// The response in milliseconds of its first specific query after it that has one.
    pub last_member_interval: Option<u32>,
    /// The other sources of general queries.
    pub beside: Others<K>,
}

impl<K: WireKey> Clone for Announced<K> {
    ghost is_clone = { λ x y. y ≡ x };

    ghost is_infallible = { λ _. ⊤ };

    fn clone(&self) -> Result<Self, AllocError> {
        Ok(*self)
    }
}

impl<K: WireKey> Copy for Announced<K> {}

/// Returns what the querier of a capture announces, if the capture has a general query of the family.
///
/// The querier has the lowest address of those from which general queries come on which hosts act. The
/// capture is read to its end. A fault after that query doesn't matter here: the check reports it. Memory for one
/// packet is allocated before anything is read.
pub fn announced_variables<F: CheckedFamily, A: Allocator + Copy, R: Read>(
    alloc: A,
    reader: &mut Watched<R>,
) -> Result<Option<Announced<F::Address>>, CaptureFault>
where
    F::Address: LineKey,
    ensures announces { spec.Announces F.FAMILY (input_of R.remaining reader.old) (input_of R.remaining reader.new) (numbered_answer F.Address.number result) }
    ensures memory { result ≡ Err CaptureFault.Memory → reader.new ≡ reader.old }
{
    announced_variables_in::<F, A, OfAllocator<A>, R>(&mut OfAllocator(alloc), reader)
}

/// Acts like `announced_variables`, with memory for one packet from `memory`. Fails with `Memory` only if that is refused.
pub fn announced_variables_in<F: CheckedFamily, A: Allocator, M: VectorSource<A>, R: Read>(
    memory: &mut M,
    reader: &mut Watched<R>,
) -> Result<Option<Announced<F::Address>>, CaptureFault>
where
    F::Address: LineKey,
    ensures announces { spec.Announces F.FAMILY (input_of R.remaining reader.old) (input_of R.remaining reader.new) (numbered_answer F.Address.number result) }
    ensures memory { result ≡ Err CaptureFault.Memory → reader.new ≡ reader.old }
    ensures takes { Takes (bytes_for 1 most_bytes) (M.less_than memory.old) (M.less_than memory.new) (is_granted result) }
{
    let packet: Result<Vec<u8, A>, AllocError> = filled(memory, 0, GREATEST_PACKET);
    let Ok(mut packet) = packet else {
        return Err(CaptureFault::Memory);
    };
    let mut looking = Looking::<F> { sought: None };
    let read = walk(&mut looking, packet.as_mut_slice(), &Ready, reader, &mut ());
    concluded(found_in(looking.sought), read)
}

/// Returns what was found, or why nothing can be said: a read failed, or the capture has a fault before its first
/// general query.
fn concluded<K: WireKey>(
    found: Option<Announced<K>>,
    read: Result<Walked, PcapFault>,
) -> Result<Option<Announced<K>>, CaptureFault>
    ensures { result ≡ spec.concluded found read }
{
    match (read, found) {
        (Err(PcapFault::Read), _) => Err(CaptureFault::Pcap(PcapFault::Read)),
        (Err(fault), None) => Err(CaptureFault::Pcap(fault)),
        _ => Ok(found),
    }
}

/// A search for queries: what is known of the querier by the packets so far.
#[derive(Drop)]
struct Looking<F: CheckedFamily>
where
    F::Address: LineKey,
{
    sought: Option<Sought<F::Address>>,
}

impl<F: CheckedFamily> Step<()> for Looking<F>
where
    F::Address: LineKey,
{
    ghost use Rattle.mq_check.specs.Announced.{TakesLooked};
    ghost use Rattle.mq_check.specs.Numbered.{numbered_sought_if};

    type Fault = PcapFault;

    ghost takes = { λ packet old new r. TakesLooked F.FAMILY packet (numbered_sought_if F.Address.number old.0.sought) (numbered_sought_if F.Address.number new.0.sought) r };

    ghost is_written = { λ _. Unit };

    fn packet(&mut self, packet: &NumberedPacket<'_>, _output: &mut ()) -> Result<(), PcapFault> {
        let inner = unwrap_frame(packet.link, packet.frame);
        if let Some(datagram) = F::datagram(&inner) {
            self.sought = with_datagram::<F>(packet.moment, datagram, self.sought);
        }
        Ok(())
    }
}

/// Returns what is known of the querier up to and including a datagram.
fn with_datagram<F: CheckedFamily>(
    stamp: Stamp,
    datagram: CapturedDatagram<'_, F::Envelope>,
    sought: Option<Sought<F::Address>>,
) -> Option<Sought<F::Address>>
where
    F::Address: LineKey,
    ensures { numbered_sought_if F.Address.number result
        ≡ spec.with_query F.FAMILY stamp (F.envelope_of datagram.entry.envelope).source
        (spec.query_in F.FAMILY (record { envelope = F.envelope_of datagram.entry.envelope; body = datagram.entry.body.now }))
        (numbered_sought_if F.Address.number sought) }
{
    match query_in::<F>(&datagram.envelope, datagram.body) {
        Some(query) => with_query::<F>(stamp, F::source(&datagram.envelope), &query, sought),
        None => sought,
    }
}

/// Returns the query in a datagram, if hosts act on it and its source is an address that a router may have.
pub(crate) fn query_in<'a, F: CapturedFamily>(
    envelope: &F::Envelope,
    body: &'a [u8],
) -> Option<Query<'a, F::Address>>
where
    F::Address: LineKey,
    ensures { numbered_query_if F.Address.number result
        ≡ spec.query_in F.FAMILY (record { envelope = F.envelope_of envelope.now; body = body.entry.now }) }
{
    if !F::is_router_address(F::source(envelope)) {
        return None;
    }
    if F::envelope_fault(envelope).is_some() {
        return None;
    }
    query_spelled::<F>(envelope, body)
}

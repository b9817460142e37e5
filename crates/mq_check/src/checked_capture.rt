//! The check of a capture.

ghost use Rattle.std.specs.Prelude.{◌≡◌, ◌+◌, ◌≤◌, ◌^◌, ◌||◌, Err, IfSome, length};
ghost use Rattle.std.specs.contracts.vec.Vec as page;
ghost use denote.Builtin.{u16};
ghost use Rattle.mq_arena.specs.Vectors.{Takes, bytes_for};
ghost use Rattle.mq_count.specs.Streams.{inner_of, has_failed};
ghost use Rattle.mq_link.specs.Sizes.{bytes_of_link, bytes_of_workspace};
ghost use Rattle.mq_pcap.specs.Capture.{most_bytes};
ghost use Rattle.mq_pcap.specs.Filling.{input_of};
ghost use Rattle.mq_walk.specs.Faults as faults;
ghost use Rattle.mq_walk.specs.PuttingReports.{PutsReport};
ghost use Rattle.mq_check.specs.Check.{at_the_start, check_of};
ghost use Rattle.mq_check.specs.CheckedCaptures as spec;
ghost use Rattle.mq_check.specs.Coming.{checked_in};
ghost use Rattle.mq_check.specs.Sizes.{bytes_of_checking};
ghost use Rattle.mq_check.specs.Telling.{nothing_told};

use crate::check_terms::CheckTerms;
use crate::checked_family::CheckedFamily;
use crate::checking::Checking;
use crate::running_check::Check;
use crate::totals::Totals;
use mq_arena::{OfAllocator, VectorSource, filled};
use mq_count::Watched;
use mq_lines::LineKey;
use mq_link::{Config, Link};
use mq_pcap::{GREATEST_PACKET, Supply};
use mq_walk::{CaptureFault, UpToGap, finish, first_moment, walk};
use std::alloc::{AllocError, Allocator};
use std::io::{Read, Write};

/// Checks the querier whose address is the own address of the configuration. A link with this configuration starts at
/// 0. It receives all datagrams but the querier's own queries, at their moments. The queries that the link sends are
/// compared with those of the querier. Writes a line for each finding and the totals at the end, and returns the
/// totals.
///
/// The end is the moment of the last packet, or `until` if that is later. All memory is allocated before anything is
/// read or written. If the capture has a fault or a gap, or too many entries are pending, the findings before that are
/// written first. Before a read that may wait by the stream's `supply`, all findings so far are written.
pub fn check<F: CheckedFamily, A: Allocator + Copy, S: Supply, R: Read, W: Write>(
    alloc: A,
    config: Config<F>,
    terms: CheckTerms,
    supply: &S,
    reader: &mut Watched<R>,
    writer: &mut Watched<W>,
) -> Result<Totals, CaptureFault>
where
    F::Address: LineKey,
    requires { IfSome terms.until (λ ms. ms ≤ 2 ^ 53) }
    ensures checks { spec.Checks config terms
        (input_of R.remaining reader.old) (input_of R.remaining reader.new)
        (W.contents (inner_of writer.old)) (W.contents (inner_of writer.new))
        result }
    ensures failed { has_failed writer.new ≡ has_failed writer.old || faults.is_failed_write result }
    ensures memory { result ≡ Err CaptureFault.Memory → (reader.new ≡ reader.old) × (writer.new ≡ writer.old) }
{
    check_in(
        &mut OfAllocator(alloc),
        config,
        terms,
        supply,
        reader,
        writer,
    )
}

/// Acts like `check`, with all memory from `memory`. Fails with `Memory` only if that refuses the memory for one packet,
/// for the link or for the pending entries.
pub fn check_in<F: CheckedFamily, A: Allocator, M: VectorSource<A>, S: Supply, R: Read, W: Write>(
    memory: &mut M,
    config: Config<F>,
    terms: CheckTerms,
    supply: &S,
    reader: &mut Watched<R>,
    writer: &mut Watched<W>,
) -> Result<Totals, CaptureFault>
where
    F::Address: LineKey,
    requires { IfSome terms.until (λ ms. ms ≤ 2 ^ 53) }
    ensures checks { spec.Checks config terms
        (input_of R.remaining reader.old) (input_of R.remaining reader.new)
        (W.contents (inner_of writer.old)) (W.contents (inner_of writer.new))
        result }
    ensures failed { has_failed writer.new ≡ has_failed writer.old || faults.is_failed_write result }
    ensures memory { result ≡ Err CaptureFault.Memory → (reader.new ≡ reader.old) × (writer.new ≡ writer.old) }
    ensures takes { Takes
        (bytes_for 1 most_bytes + (bytes_of_workspace F.Address.row config.room + bytes_of_link (page.the_row u16 A.row ⟦<A as Allocator>⟧) F.Address.row config.room) + bytes_of_checking F.Address.row)
        (M.less_than memory.old) (M.less_than memory.new) (faults.is_granted result) }
{
    let packet: Result<Vec<u8, A>, AllocError> = filled(memory, 0, GREATEST_PACKET);
    let Ok(mut packet) = packet else {
        return Err(CaptureFault::Memory);
    };
    let timing = config.timing();
    let last_member = config.last_member_interval();
    let Ok(link) = Link::new_in(memory, config, first_moment()) else {
        return Err(CaptureFault::Memory);
    };
    let flags = terms.flags;
    let Ok(checking) = Checking::<F, A>::new(memory, terms.within, timing, last_member, flags)
    else {
        return Err(CaptureFault::Memory);
    };
    let mut check = UpToGap {
        steps: Check::new(link, checking, terms),
    };
    check_on(&mut check, packet.as_mut_slice(), supply, reader, writer)
}

/// Checks a capture, with caller-provided memory for a packet.
fn check_on<F: CheckedFamily, A: Allocator, S: Supply, R: Read, W: Write>(
    check: &mut UpToGap<Check<F, A>>,
    packet: &mut [u8],
    supply: &S,
    reader: &mut Watched<R>,
    writer: &mut Watched<W>,
) -> Result<Totals, CaptureFault>
where
    F::Address: LineKey,
    requires room { most_bytes ≤ length packet.old }
    requires in_range { IfSome check.old.steps.terms.until (λ ms. ms ≤ 2 ^ 53) }
    requires starts { checked_in check.old.steps.link check.old.steps.queries ≡ at_the_start check.old.steps.link.config check.old.steps.terms.within check.old.steps.terms.flags }
    requires told { check.old.steps.told ≡ nothing_told check.old.steps.terms.additions }
    ensures checks { spec.Checks check.old.steps.link.config check.old.steps.terms
        (input_of R.remaining reader.old) (input_of R.remaining reader.new)
        (W.contents (inner_of writer.old)) (W.contents (inner_of writer.new))
        result }
    ensures failed { has_failed writer.new ≡ has_failed writer.old || faults.is_failed_write result }
    ensures no_memory { result ≡ Err CaptureFault.Memory → ⊥ }
{
    let answer = check_file(check, packet, supply, reader, writer);
    finish(answer, &mut check.steps.told.buffer, writer)
}

/// Checks a capture, from its header to its end.
fn check_file<F: CheckedFamily, A: Allocator, S: Supply, R: Read, W: Write>(
    check: &mut UpToGap<Check<F, A>>,
    packet: &mut [u8],
    supply: &S,
    reader: &mut Watched<R>,
    writer: &mut Watched<W>,
) -> Result<Totals, CaptureFault>
where
    F::Address: LineKey,
    requires room { most_bytes ≤ length packet.old }
    requires in_range { IfSome check.old.steps.terms.until (λ ms. ms ≤ 2 ^ 53) }
    requires starts { checked_in check.old.steps.link check.old.steps.queries ≡ at_the_start check.old.steps.link.config check.old.steps.terms.within check.old.steps.terms.flags }
    requires told { check.old.steps.told ≡ nothing_told check.old.steps.terms.additions }
    ensures puts { PutsReport (check_of check.old.steps.link.config check.old.steps.terms)
        (input_of R.remaining reader.old) (input_of R.remaining reader.new)
        (W.contents (inner_of writer.old)) (W.contents (inner_of writer.new))
        check.old.steps.told.held check.new.steps.told.held result }
    ensures failed { has_failed writer.new ≡ has_failed writer.old || faults.is_failed_write result }
    ensures no_memory { result ≡ Err CaptureFault.Memory → ⊥ }
{
    check.steps.link.config().is_faultless();
    let walked = walk(check, packet, supply, reader, writer)?;
    check.steps.rest(walked, writer)
}

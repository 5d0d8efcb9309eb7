//! The code of nodes, records and what threads hold: by their own numbers, or canonical.
ghost use Rattle.std.specs.Prelude.{◌≡◌, ◌≤◌, ◌<◌, ◌-◌, ◌++◌, ◌↔◌, ◌⊎◌, ℕ, List, length, IfOk, OnOk};
ghost use Rattle.tree_machine.specs.Canonical.{canonical_code, canonical_front, canonical_parts, cut_front};
ghost use Rattle.tree_machine.specs.Canonical.{front_nodes, front_records, nodes_met, records_met};
ghost use Rattle.tree_machine.specs.Canonical.{ArePartsRead, IsMetInOrder};
ghost use Rattle.tree_machine.specs.Cells.{IsRooted};
ghost use Rattle.tree_machine.specs.Coding.{coded_parts, nodes_by, records_by, with_parts, IsOwn, IsVisited, IsWalk};
ghost use Rattle.tree_machine.specs.Flat.{all_front, behind_code, front_code, graph_code, part_codes, parts_code};
ghost use Rattle.tree_machine.specs.Naming.{code_by};
ghost use Rattle.tree_machine.specs.Parts.{Parts as Contents, part_at, parts_graph, parts_held};
ghost use Rattle.tree_machine.specs.Parts.{ArePartsInRange, CanPartsBePaired};

use crate::bytes::Bytes;
use crate::coder::Coder;
use crate::encode_buffer::EncodeBuffer;
use crate::front::Front;
use crate::naming::Naming;
use crate::number::sum_of;
use crate::numbering::CELLS_BELOW;
use crate::output::Output;
use crate::parts::{Parts, Visit};
use sched_program::OutOfMemory;
use std::alloc::Global;

/// The lesser of two counts.
fn least(some: usize, more: usize) -> usize
    ensures at_most { (result ≤ some) × (result ≤ more) }
    ensures one { (result ≡ some) ⊎ (result ≡ more) }
{
    if some < more { some } else { more }
}

/// Visits all nodes, in the order of their numbers.
#[tactic(auto, using(crate::proofs::VisitedParts::left_none))]
fn visit_nodes<P: Parts>(parts: &P, coder: &mut Coder, out: &mut Output) -> Visit
    requires in_range { (fixed : ℕ) × ArePartsInRange fixed (P.parts parts.now) }
    requires nodes { length (P.parts parts.now).nodes ≤ coder.old.nodes_below }
    requires records { length (P.parts parts.now).records ≤ coder.old.records_below }
    ensures coder { OnOk result (coder.new ≡ with_parts coder.old (P.parts parts.now).nodes) }
    ensures written { OnOk result (out.new ≡ out.old ++ coded_parts coder.old (P.parts parts.now).nodes) }
{
    for index in 0..parts.node_count() {
        parts.visit_node(index, coder, out)?;
    }
    Ok(())
}

/// Visits all records, in the order of their numbers.
#[tactic(auto, using(crate::proofs::VisitedParts::left_none))]
fn visit_records<P: Parts>(parts: &P, coder: &mut Coder, out: &mut Output) -> Visit
    requires in_range { (fixed : ℕ) × ArePartsInRange fixed (P.parts parts.now) }
    requires nodes { length (P.parts parts.now).nodes ≤ coder.old.nodes_below }
    requires records { length (P.parts parts.now).records ≤ coder.old.records_below }
    ensures coder { OnOk result (coder.new ≡ with_parts coder.old (P.parts parts.now).records) }
    ensures written { OnOk result (out.new ≡ out.old ++ coded_parts coder.old (P.parts parts.now).records) }
{
    for index in 0..parts.record_count() {
        parts.visit_record(index, coder, out)?;
    }
    Ok(())
}

/// Visits what each thread holds, in the order of the threads.
#[inline(always)]
#[tactic(auto, using(crate::proofs::VisitedParts::left_none))]
fn visit_all_held<P: Parts>(parts: &P, coder: &mut Coder, out: &mut Output) -> Visit
    requires in_range { (fixed : ℕ) × ArePartsInRange fixed (P.parts parts.now) }
    requires nodes { length (P.parts parts.now).nodes ≤ coder.old.nodes_below }
    requires records { length (P.parts parts.now).records ≤ coder.old.records_below }
    ensures coder { OnOk result (coder.new ≡ with_parts coder.old (P.parts parts.now).held) }
    ensures written { OnOk result (out.new ≡ out.old ++ coded_parts coder.old (P.parts parts.now).held) }
{
    for index in 0..parts.held_count() {
        parts.visit_held(index, coder, out)?;
    }
    Ok(())
}

/// Visits the node or the record with this number as a cell: records come behind the nodes, and are written apart.
#[inline(always)]
fn visit_cell<P: Parts>(
    parts: &P,
    cell: usize,
    coder: &mut Coder,
    out: &mut Output,
    records: &mut Output,
) -> Visit
    requires in_range { (fixed : ℕ) × ArePartsInRange fixed (P.parts parts.now) }
    requires nodes { length (P.parts parts.now).nodes ≡ coder.old.nodes_below }
    requires records { length (P.parts parts.now).records ≡ coder.old.records_below }
    ensures node { OnOk result (cell < coder.old.nodes_below
        → IsVisited (part_at (P.parts parts.now).nodes cell) coder.old out.old coder.new out.new
        × (records.new ≡ records.old)) }
    ensures record { OnOk result (coder.old.nodes_below ≤ cell
        → IsVisited (part_at (P.parts parts.now).records (cell - coder.old.nodes_below)) coder.old records.old
        coder.new records.new × (out.new ≡ out.old)) }
{
    let nodes = parts.node_count();
    if cell < nodes {
        parts.visit_node(cell, coder, out)
    } else {
        parts.visit_record(cell - nodes, coder, records)
    }
}

/// Visits the cells in the queue, in their order, and those that go into it meanwhile. Records are written apart. The
/// queue is that of a `walk`: its roots, and the cells that it met and visited before. More nodes, records and threads
/// than bytes can name are refused with `OutOfMemory`.
fn visit_queue<P: Parts>(
    parts: &P,
    coder: &mut Coder,
    out: &mut Output,
    records: &mut Output,
) -> Visit
    ghost walk: { List ℕ × List ℕ }
    requires in_range { (fixed : ℕ) × ArePartsInRange fixed (P.parts parts.now) }
    requires rooted { IsRooted (parts_graph (P.parts parts.now) ++ parts_held (P.parts parts.now)) walk.0 }
    requires begun { IsWalk (P.parts parts.now) walk.0 walk.1 (length walk.1) coder.old }
    ensures walked { OnOk result (IsWalk (P.parts parts.now) walk.0 walk.1
        (length (parts_graph (P.parts parts.now) ++ parts_held (P.parts parts.now))) coder.new) }
    ensures nodes { OnOk result (out.new ≡ out.old
        ++ part_codes (nodes_by coder.new (P.parts parts.now) coder.new.queue)) }
    ensures records { OnOk result (records.new ≡ records.old
        ++ part_codes (records_by coder.new (P.parts parts.now) coder.new.queue)) }
{
    let graph = sum_of(parts.node_count(), parts.record_count())?;
    let cells = sum_of(graph, parts.held_count())?;
    if cells >= CELLS_BELOW {
        return Err(OutOfMemory);
    }
    for place in 0..cells {
        match coder.cell_at(place) {
            Some(cell) => visit_cell(parts, cell, coder, out, records)?,
            None => break,
        }
    }
    Ok(())
}

/// How many nodes and how many records have numbers.
#[derive(Clone, Copy)]
struct Counts {
    nodes: usize,
    records: usize,
}

/// Writes what the cells in the queue lead to: how many nodes and records they are, and all of them. Those before the
/// walk are left out of the counts.
fn visit_graph<P: Parts>(
    parts: &P,
    first: Counts,
    coder: &mut Coder,
    out: &mut Output,
    records: &mut Output,
) -> Visit
    ghost walk: { List ℕ × List ℕ }
    requires in_range { (fixed : ℕ) × ArePartsInRange fixed (P.parts parts.now) }
    requires rooted { IsRooted (parts_graph (P.parts parts.now) ++ parts_held (P.parts parts.now)) walk.0 }
    requires begun { IsWalk (P.parts parts.now) walk.0 walk.1 (length walk.1) coder.old }
    requires nodes { first.nodes ≡ length (nodes_met coder.old.nodes_below walk.1) }
    requires records { first.records ≡ length (records_met coder.old.nodes_below coder.old.records_below walk.1) }
    ensures walked { OnOk result (IsWalk (P.parts parts.now) walk.0 walk.1
        (length (parts_graph (P.parts parts.now) ++ parts_held (P.parts parts.now))) coder.new) }
    ensures written { OnOk result (out.new ≡ out.old
        ++ graph_code (nodes_by coder.new (P.parts parts.now) coder.new.queue)
        (records_by coder.new (P.parts parts.now) coder.new.queue)) }
{
    let place = out.put_counts(0, 0)?;
    records.clear();
    visit_queue(parts, coder, out, records)?;
    let nodes = coder.node_count() - first.nodes;
    let others = coder.record_count() - first.records;
    out.set_counts(place, nodes as u8, others as u8);
    out.put(records.as_slice())
}

/// Writes what comes behind the front: what the threads hold, and what only that leads to, if there is such.
#[inline(always)]
fn visit_behind<P: Parts>(
    parts: &P,
    fixed: usize,
    coder: &mut Coder,
    out: &mut Output,
    records: &mut Output,
) -> Visit
    requires in_range { ArePartsInRange fixed (P.parts parts.now) }
    requires nodes_below { length (P.parts parts.now).nodes ≡ coder.old.nodes_below }
    requires records_below { length (P.parts parts.now).records ≡ coder.old.records_below }
    requires nodes { coder.old.nodes ≡ front_nodes fixed (P.parts parts.now) }
    requires records { coder.old.records ≡ front_records fixed (P.parts parts.now) }
    ensures { OnOk result (out.new ≡ out.old
        ++ behind_code (canonical_front fixed (P.parts parts.now)) (canonical_parts fixed (P.parts parts.now))) }
{
    // Only the contract speaks of it.
    let _ = fixed;
    let first = Counts {
        nodes: coder.node_count(),
        records: coder.record_count(),
    };
    coder.clear_queue();
    visit_all_held(parts, coder, out)?;
    if coder.node_count() == first.nodes && coder.record_count() == first.records {
        return Ok(());
    }
    visit_graph(parts, first, coder, out, records)
}

/// Writes what each thread holds by the own numbers of nodes and records.
#[inline(always)]
fn visit_own_held<P: Parts>(parts: &P, coder: &mut Coder, out: &mut Output) -> Visit
    requires in_range { (fixed : ℕ) × ArePartsInRange fixed (P.parts parts.now) }
    requires own { IsOwn (length (P.parts parts.now).nodes) (length (P.parts parts.now).records) coder.old }
    ensures coder { OnOk result (coder.new ≡ coder.old) }
    ensures written { OnOk result (out.new ≡ out.old ++ part_codes (P.parts parts.now).held) }
{
    visit_all_held(parts, coder, out)
}

/// Writes the code of nodes, records and what the threads hold by their own numbers: all nodes and records come in
/// front.
#[inline(always)]
fn visit_own<P: Parts>(parts: &P, coder: &mut Coder, out: &mut Output) -> Visit
    requires in_range { (fixed : ℕ) × ArePartsInRange fixed (P.parts parts.now) }
    requires own { IsOwn (length (P.parts parts.now).nodes) (length (P.parts parts.now).records) coder.old }
    ensures coder { OnOk result (coder.new ≡ coder.old) }
    ensures written { OnOk result (out.new ≡ out.old
        ++ parts_code (all_front (P.parts parts.now)) (P.parts parts.now)) }
{
    // No more have numbers than bytes can name.
    let _ = coder.bounds();
    let _place = out.put_counts(parts.node_count() as u8, parts.record_count() as u8)?;
    visit_nodes(parts, coder, out)?;
    visit_records(parts, coder, out)?;
    visit_own_held(parts, coder, out)
}

/// Appends that code.
///
/// # Errors
/// `OutOfMemory` where a growth was refused, or the nodes or records are more than bytes can name. The bytes in the
/// buffer are then unspecified.
#[inline(always)]
fn write_own<P: Parts>(parts: &P, buffer: &mut EncodeBuffer) -> Result<(), OutOfMemory>
    requires { (fixed : ℕ) × ArePartsInRange fixed (P.parts parts.now) }
    ensures { OnOk result (buffer.new
        ≡ buffer.old ++ parts_code (all_front (P.parts parts.now)) (P.parts parts.now)) }
{
    let coder = &mut buffer.own;
    coder.number_all(parts.node_count(), parts.record_count())?;
    let written = visit_own(parts, coder, &mut buffer.out);
    if written.is_err() {
        coder.clear();
    }
    written
}

/// Appends what comes behind the nodes and the records in that code: what the threads hold.
///
/// # Errors
/// `OutOfMemory` as `write_own`.
#[inline(always)]
fn write_own_held<P: Parts>(parts: &P, buffer: &mut EncodeBuffer) -> Result<(), OutOfMemory>
    requires { (fixed : ℕ) × ArePartsInRange fixed (P.parts parts.now) }
    ensures { OnOk result (buffer.new ≡ buffer.old ++ part_codes (P.parts parts.now).held) }
{
    let coder = &mut buffer.own;
    coder.number_all(parts.node_count(), parts.record_count())?;
    let written = visit_own_held(parts, coder, &mut buffer.out);
    if written.is_err() {
        coder.clear();
    }
    written
}

/// Appends the canonical code of nodes, records and what the threads hold. In front comes what the first `fixed` nodes
/// reach. Behind what the threads hold comes what only they reach. What neither reach is left out.
///
/// # Errors
/// `OutOfMemory` where a growth was refused, or the nodes, records and threads are more than bytes can name. The bytes
/// in the buffer are then unspecified.
#[inline(always)]
fn write_canonical<P: Parts>(
    fixed: usize,
    parts: &P,
    buffer: &mut EncodeBuffer,
) -> Result<(), OutOfMemory>
    requires { ArePartsInRange fixed (P.parts parts.now) }
    ensures { OnOk result (buffer.new ≡ buffer.old ++ canonical_code fixed (P.parts parts.now)) }
{
    let coder = &mut buffer.canonical;
    coder.restart(fixed, 0, parts.node_count(), parts.record_count())?;
    coder.enqueue_first(fixed)?;
    let none = Counts {
        nodes: 0,
        records: 0,
    };
    visit_graph(parts, none, coder, &mut buffer.out, &mut buffer.records)?;
    visit_behind(parts, fixed, coder, &mut buffer.out, &mut buffer.records)
}

/// Appends what comes behind the front of that code. The front is that of the parts themselves, by their own numbers.
/// Where all parts come in front, each is named by its own number.
#[inline(always)]
#[tactic(auto, using(crate::proofs::HeldWalks::taken))]
fn write_canonical_behind<P: Parts>(
    fixed: usize,
    front: Front,
    parts: &P,
    buffer: &mut EncodeBuffer,
) -> Result<(), OutOfMemory>
    requires in_range { ArePartsInRange fixed (P.parts parts.now) }
    requires met { IsMetInOrder fixed (cut_front front (P.parts parts.now)) (P.parts parts.now) }
    ensures { OnOk result (buffer.new ≡ buffer.old
        ++ behind_code (cut_front front (P.parts parts.now)) (canonical_parts fixed (P.parts parts.now))) }
{
    let nodes = parts.node_count();
    let records = parts.record_count();
    let front_nodes = least(usize::from(front.nodes), nodes);
    let front_records = least(usize::from(front.records), records);
    if front_nodes == nodes && front_records == records {
        return write_own_held(parts, buffer);
    }
    let coder = &mut buffer.canonical;
    coder.restart(front_nodes, front_records, nodes, records)?;
    visit_behind(parts, fixed, coder, &mut buffer.out, &mut buffer.records)
}

/// Appends the code of nodes, records and what the threads hold, by own numbers or canonical. In the canonical code the
/// first `fixed` nodes are fixed.
///
/// # Errors
/// `OutOfMemory` where a growth was refused, or the nodes, records and threads are more than bytes can name. The bytes
/// in the buffer are then unspecified.
pub fn write_parts<P: Parts>(
    naming: Naming,
    fixed: usize,
    parts: &P,
    buffer: &mut EncodeBuffer,
) -> Result<(), OutOfMemory>
    requires { ArePartsInRange fixed (P.parts parts.now) }
    ensures { OnOk result (buffer.new ≡ buffer.old
        ++ code_by naming (parts_code (all_front (P.parts parts.now)) (P.parts parts.now))
        (canonical_code fixed (P.parts parts.now))) }
{
    match naming {
        Naming::Own => write_own(parts, buffer),
        Naming::Canonical => write_canonical(fixed, parts, buffer),
    }
}

/// Appends the rest of such a code, behind its front. The nodes and the records were read from such a code, which was
/// cut at this front.
///
/// # Errors
/// `OutOfMemory` as `write_parts`.
pub fn write_parts_behind<P: Parts>(
    naming: Naming,
    fixed: usize,
    front: Front,
    parts: &P,
    buffer: &mut EncodeBuffer,
) -> Result<(), OutOfMemory>
    requires in_range { ArePartsInRange fixed (P.parts parts.now) }
    requires read { ArePartsRead naming fixed front (P.parts parts.now) }
    ensures { OnOk result ((before : List ℕ) → buffer.old ≡ before ++ front_code front (P.parts parts.now)
        → buffer.new ≡ before ++ code_by naming (parts_code (all_front (P.parts parts.now)) (P.parts parts.now))
        (canonical_code fixed (P.parts parts.now))) }
{
    match naming {
        Naming::Own => write_own_held(parts, buffer),
        Naming::Canonical => write_canonical_behind(fixed, front, parts, buffer),
    }
}

/// The form of nodes, records and what the threads hold: their canonical code in memory of its own. Two are equal
/// exactly if some pairing pairs the parts that they are of.
///
/// # Errors
/// `OutOfMemory` as `write_parts`.
pub fn form_parts<P: Parts>(alloc: Global, fixed: usize, parts: &P) -> Result<Bytes, OutOfMemory>
    requires { ArePartsInRange fixed (P.parts parts.now) }
    ensures form { IfOk result (λ form. form ≡ canonical_code fixed (P.parts parts.now)) }
    ensures exact { IfOk result (λ form. (other : Contents) → ArePartsInRange fixed other
        → length (P.parts parts.now).held ≡ length other.held
        → (form ≡ canonical_code fixed other) ↔ CanPartsBePaired fixed (P.parts parts.now) other) }
{
    let mut buffer = EncodeBuffer::new(alloc);
    write_canonical(fixed, parts, &mut buffer)?;
    Ok(buffer.into_bytes())
}

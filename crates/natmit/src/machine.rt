//! The machine and its variant.
ghost use Rattle.sched_program.specs.Laws.Exact.{nat_exact, list_exact};
ghost use Rattle.natmit.specs.Laws.Codes.{natmit_tells, natmit_cut, natmit_decodes, natmit_forms};
ghost use Rattle.natmit.specs.Laws.Exact.{machine_exact, memory_exact, place_exact};
ghost use Rattle.natmit.specs.Laws.Rules.{natmit_lawful};
ghost use Rattle.natmit.specs.NatMitRules.{natmit_rules};
ghost use Rattle.natmit.specs.Parts.{natmit_behind_code, natmit_code, natmit_form, natmit_front_code};

use crate::initial::build;
use crate::memory::{NatMitMem, key_in};
use crate::memory_view::MemoryView;
use crate::place::{Mode, NatMitLoc};
use crate::reading::{read_behind, read_front};
use sched_program::{Op, OutOfMemory};
use std::alloc::Global;
use tree_machine::{
    Bytes, Encode, EncodeBuffer, Front, Machine, Naming, Outcome, Thread, form_parts,
    keeps_search_order, write_parts, write_parts_behind,
};

/// The machine of Natarajan and Mittal (PPoPP 2014), whole where `tag` is true.
#[derive(Clone, Copy, Debug, PartialEq, Eq)]
pub struct NatMit {
    /// A delete tags the sibling of its leaf before it cuts off their parent.
    pub tag: bool,
}

impl Machine for NatMit {
    type Mem = NatMitMem;

    type Loc = NatMitLoc;

    type Form = Bytes;

    ghost rules = { natmit_rules };

    ghost form_of = { λ _. natmit_form };

    fn copy_mem(&self, alloc: Global, mem: &NatMitMem) -> Result<NatMitMem, OutOfMemory> {
        mem.copy(alloc)
    }

    fn copy_loc(&self, _alloc: Global, loc: &NatMitLoc) -> Result<NatMitLoc, OutOfMemory> {
        Ok(*loc)
    }

    fn build(&self, alloc: Global, initial: &[u8]) -> Result<NatMitMem, OutOfMemory> {
        build(alloc, initial)
    }

    fn begin(&self, _op: Op) -> NatMitLoc {
        NatMitLoc::Begin { mode: Mode::Plain }
    }

    fn act(
        &self,
        _alloc: Global,
        op: Op,
        loc: &NatMitLoc,
        mem: &mut NatMitMem,
    ) -> Result<Outcome<NatMitLoc>, OutOfMemory> {
        self.access(op, *loc, mem)
    }

    fn ordered(&self, mem: &NatMitMem) -> bool {
        keeps_search_order(mem)
    }

    fn form(
        &self,
        alloc: Global,
        mem: &NatMitMem,
        threads: &[Thread<NatMitLoc>],
    ) -> Result<Bytes, OutOfMemory> {
        // Each search begins at node 1, also where a run of the variant has cut it off from the root, node 0.
        form_parts(alloc, 2, &MemoryView { mem, threads })
    }

    ghost lawful = { natmit_lawful };

    ghost forms = { natmit_forms };

    ghost exact = { machine_exact };

    ghost memory_exact = { memory_exact };

    ghost place_exact = { place_exact };

    ghost form_exact = { list_exact nat_exact };
}

impl Encode for NatMit {
    ghost form_code = { λ bytes. bytes };

    ghost own_code = { natmit_code };

    ghost front_code = { natmit_front_code };

    ghost behind_code = { natmit_behind_code };

    #[inline(always)]
    fn copy_mem_into(&self, mem: &NatMitMem, copy: &mut NatMitMem) -> Result<(), OutOfMemory> {
        mem.copy_into(copy)
    }

    #[inline(always)]
    fn only_reads(&self, loc: &NatMitLoc) -> bool {
        matches!(
            loc,
            NatMitLoc::Begin { .. }
                | NatMitLoc::Down { .. }
                | NatMitLoc::Look { .. }
                | NatMitLoc::CleanRead { .. }
                | NatMitLoc::Sibling { .. }
        )
    }

    fn write_code(
        &self,
        _alloc: Global,
        naming: Naming,
        mem: &NatMitMem,
        threads: &[Thread<NatMitLoc>],
        buffer: &mut EncodeBuffer,
    ) -> Result<(), OutOfMemory> {
        write_parts(naming, 2, &MemoryView { mem, threads }, buffer)
    }

    fn write_behind(
        &self,
        _alloc: Global,
        naming: Naming,
        front: Front,
        mem: &NatMitMem,
        threads: &[Thread<NatMitLoc>],
        buffer: &mut EncodeBuffer,
    ) -> Result<(), OutOfMemory> {
        write_parts_behind(naming, 2, front, &MemoryView { mem, threads }, buffer)
    }

    fn read_front<'a>(
        &self,
        bytes: &'a [u8],
        mem: &mut NatMitMem,
    ) -> Result<Option<(Front, &'a [u8])>, OutOfMemory> {
        read_front(bytes, mem)
    }

    fn read_behind(
        &self,
        _alloc: Global,
        bytes: &[u8],
        front: Front,
        mem: &mut NatMitMem,
        threads: &mut [Thread<NatMitLoc>],
    ) -> Result<bool, OutOfMemory> {
        read_behind(bytes, front, mem, threads)
    }

    ghost decodes = { natmit_decodes };

    ghost form_tells = { λ a b same. same };

    ghost tells = { natmit_tells };

    ghost own_cut = { natmit_cut };
}

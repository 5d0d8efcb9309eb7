//! The machine and its variants.

use crate::helping::{first_place, help_act};
use crate::initial::build;
use crate::memory::{EllenMem, key_in};
use crate::memory_view::MemoryView;
use crate::place::{EllenLoc, HelpLoc, SearchLoc};
use crate::reading::{read_behind, read_front};
use crate::searching::search_act;
use sched_program::{Op, OutOfMemory};
use std::alloc::Global;
use tree_machine::{
    Bytes, Encode, EncodeBuffer, Front, Machine, Naming, Outcome, Thread, form_parts,
    keeps_search_order, write_parts, write_parts_behind,
};

/// The machine of Ellen, Fatourou, Ruppert and van Breugel (Non-blocking binary search trees, PODC 2010), whole where
/// both are true. Where one is false, that step is left out.
#[derive(Clone, Copy, Debug, PartialEq, Eq)]
pub struct Ellen {
    /// A delete marks the parent before it splices it out.
    pub mark: bool,
    /// An insert flags the parent before it writes its child.
    pub iflag: bool,
}

impl Machine for Ellen {
    ghost use Rattle.sched_program.specs.Laws.Exact.{nat_exact, list_exact};
    ghost use Rattle.ellen.specs.EllenRules.{ellen_rules};
    ghost use Rattle.ellen.specs.Laws.Codes.{ellen_forms};
    ghost use Rattle.ellen.specs.Laws.Exact.{machine_exact, memory_exact, place_exact};
    ghost use Rattle.ellen.specs.Laws.Rules.{ellen_lawful};
    ghost use Rattle.ellen.specs.Parts.{ellen_form};

    type Mem = EllenMem;

    type Loc = EllenLoc;

    type Form = Bytes;

    ghost rules = { ellen_rules };

    ghost form_of = { λ _. ellen_form };

    fn copy_mem(&self, alloc: Global, mem: &EllenMem) -> Result<EllenMem, OutOfMemory> {
        mem.copy(alloc)
    }

    fn copy_loc(&self, alloc: Global, loc: &EllenLoc) -> Result<EllenLoc, OutOfMemory> {
        loc.copy(alloc)
    }

    fn build(&self, alloc: Global, initial: &[u8]) -> Result<EllenMem, OutOfMemory> {
        build(alloc, initial)
    }

    fn begin(&self, _op: Op) -> EllenLoc {
        first_place()
    }

    fn act(
        &self,
        alloc: Global,
        op: Op,
        loc: &EllenLoc,
        mem: &mut EllenMem,
    ) -> Result<Outcome<EllenLoc>, OutOfMemory> {
        match loc {
            EllenLoc::Search(at) => search_act(alloc, *self, op, *at, mem),
            EllenLoc::Help(at, resume) => help_act(alloc, *self, *at, resume, mem),
        }
    }

    fn ordered(&self, mem: &EllenMem) -> bool {
        keeps_search_order(mem)
    }

    fn form(
        &self,
        alloc: Global,
        mem: &EllenMem,
        threads: &[Thread<EllenLoc>],
    ) -> Result<Bytes, OutOfMemory> {
        let view = MemoryView {
            memory: mem,
            threads,
        };
        form_parts(alloc, 1, &view)
    }

    ghost lawful = { ellen_lawful };

    ghost forms = { ellen_forms };

    ghost exact = { machine_exact };

    ghost memory_exact = { memory_exact };

    ghost place_exact = { place_exact };

    ghost form_exact = { list_exact nat_exact };
}

impl Encode for Ellen {
    ghost use Rattle.ellen.specs.Laws.Codes.{ellen_tells, ellen_cut, ellen_decodes};
    ghost use Rattle.ellen.specs.Parts.{ellen_behind_code, ellen_code, ellen_front_code};

    ghost form_code = { λ bytes. bytes };

    ghost own_code = { ellen_code };

    ghost front_code = { ellen_front_code };

    ghost behind_code = { ellen_behind_code };

    #[inline(always)]
    fn copy_mem_into(&self, mem: &EllenMem, copy: &mut EllenMem) -> Result<(), OutOfMemory> {
        mem.copy_into(copy)
    }

    #[inline(always)]
    fn only_reads(&self, loc: &EllenLoc) -> bool {
        match loc {
            EllenLoc::Search(at) => {
                matches!(at, SearchLoc::Update { .. } | SearchLoc::Child { .. })
            }
            EllenLoc::Help(at, _) => matches!(at, HelpLoc::Right(_) | HelpLoc::Other { .. }),
        }
    }

    fn write_code(
        &self,
        _alloc: Global,
        naming: Naming,
        mem: &EllenMem,
        threads: &[Thread<EllenLoc>],
        buffer: &mut EncodeBuffer,
    ) -> Result<(), OutOfMemory> {
        let view = MemoryView {
            memory: mem,
            threads,
        };
        write_parts(naming, 1, &view, buffer)
    }

    fn write_behind(
        &self,
        _alloc: Global,
        naming: Naming,
        front: Front,
        mem: &EllenMem,
        threads: &[Thread<EllenLoc>],
        buffer: &mut EncodeBuffer,
    ) -> Result<(), OutOfMemory> {
        let view = MemoryView {
            memory: mem,
            threads,
        };
        write_parts_behind(naming, 1, front, &view, buffer)
    }

    fn read_front<'a>(
        &self,
        bytes: &'a [u8],
        mem: &mut EllenMem,
    ) -> Result<Option<(Front, &'a [u8])>, OutOfMemory> {
        read_front(bytes, mem)
    }

    fn read_behind(
        &self,
        alloc: Global,
        bytes: &[u8],
        front: Front,
        mem: &mut EllenMem,
        threads: &mut [Thread<EllenLoc>],
    ) -> Result<bool, OutOfMemory> {
        read_behind(alloc, bytes, front, mem, threads)
    }

    ghost decodes = { ellen_decodes };

    ghost form_tells = { λ a b same. same };

    ghost tells = { ellen_tells };

    ghost own_cut = { ellen_cut };
}

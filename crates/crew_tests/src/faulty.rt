//! A machine with a fault for each kind of operation.
ghost use Rattle.std.specs.Prelude.{◌≡◌, ◌++◌, [], map, refl, OnOk};
ghost use Rattle.sched_program.specs.Laws.Exact.{bool_exact, list_exact, nat_exact};
ghost use Rattle.tree_machine.specs.Alike.{places_of};
ghost use Rattle.crew_tests.specs.Faulty.{faulty_rules, faulty_lawful, faulty_form, faulty_forms};
ghost use Rattle.crew_tests.specs.Faulty.{faulty_decodes, faulty_tells, held_code};

use crate::held_byte::held_byte;
use sched_program::{Op, OutOfMemory};
use std::alloc::Global;
use tree_machine::{Bytes, Encode, EncodeBuffer, Front, Machine, Naming, Outcome, Thread};

/// An insert replies true, a delete goes astray at its second step, and a find leaves the memory out of order.
/// A place says whether the operation's first step is done, the memory whether it is out of order.
#[derive(Clone, Copy, PartialEq, Eq)]
pub struct Faulty;

/// What each thread holds, behind other bytes.
fn put_held(bytes: &mut Vec<u8>, threads: &[Thread<bool>]) -> Result<(), OutOfMemory>
    ensures { OnOk result (bytes.new.items ≡ bytes.old.items ++ map held_code (places_of threads.now)) }
{
    for thread in threads {
        bytes.push(held_byte(thread.place))?;
    }
    Ok(())
}

impl Machine for Faulty {
    type Mem = bool;

    type Loc = bool;

    type Form = Bytes;

    ghost rules = { λ _. faulty_rules };

    ghost form_of = { λ _. faulty_form };

    fn copy_mem(&self, _alloc: Global, mem: &bool) -> Result<bool, OutOfMemory> {
        Ok(*mem)
    }

    fn copy_loc(&self, _alloc: Global, loc: &bool) -> Result<bool, OutOfMemory> {
        Ok(*loc)
    }

    fn build(&self, _alloc: Global, _initial: &[u8]) -> Result<bool, OutOfMemory> {
        Ok(false)
    }

    fn begin(&self, _op: Op) -> bool {
        false
    }

    fn act(
        &self,
        _alloc: Global,
        op: Op,
        loc: &bool,
        mem: &mut bool,
    ) -> Result<Outcome<bool>, OutOfMemory> {
        match op {
            Op::Insert(_) => Ok(Outcome::Replies(true)),
            Op::Delete(_) => {
                if *loc {
                    Ok(Outcome::Astray)
                } else {
                    Ok(Outcome::Goes(true))
                }
            }
            Op::Find(_) => {
                *mem = true;
                Ok(Outcome::Replies(false))
            }
        }
    }

    fn ordered(&self, mem: &bool) -> bool {
        !*mem
    }

    fn form(
        &self,
        alloc: Global,
        mem: &bool,
        threads: &[Thread<bool>],
    ) -> Result<Bytes, OutOfMemory> {
        let mut form = Vec::new(alloc);
        form.push(held_byte(Some(*mem)))?;
        put_held(&mut form, threads)?;
        Ok(Bytes::from_vec(form))
    }

    ghost lawful = { λ _. faulty_lawful };

    ghost forms = { λ _ memory other held twins _ _ _ _ _. faulty_forms memory other held twins };

    ghost exact = { λ a b h. refl };

    ghost memory_exact = { bool_exact };

    ghost place_exact = { bool_exact };

    ghost form_exact = { list_exact nat_exact };
}

impl Encode for Faulty {
    ghost form_code = { λ bytes. bytes };

    ghost own_code = { faulty_form };

    ghost front_code = { λ _ _. [] };

    ghost behind_code = { λ _. faulty_form };

    fn copy_mem_into(&self, mem: &bool, copy: &mut bool) -> Result<(), OutOfMemory> {
        *copy = *mem;
        Ok(())
    }

    fn only_reads(&self, _loc: &bool) -> bool {
        false
    }

    fn write_code(
        &self,
        alloc: Global,
        _naming: Naming,
        mem: &bool,
        threads: &[Thread<bool>],
        buffer: &mut EncodeBuffer,
    ) -> Result<(), OutOfMemory> {
        buffer.put(self.form(alloc, mem, threads)?.as_slice())
    }

    fn write_behind(
        &self,
        alloc: Global,
        _naming: Naming,
        _front: Front,
        mem: &bool,
        threads: &[Thread<bool>],
        buffer: &mut EncodeBuffer,
    ) -> Result<(), OutOfMemory> {
        buffer.put(self.form(alloc, mem, threads)?.as_slice())
    }

    /// It decodes nothing, as a machine may for any bytes.
    fn read_front<'a>(
        &self,
        _bytes: &'a [u8],
        _mem: &mut bool,
    ) -> Result<Option<(Front, &'a [u8])>, OutOfMemory> {
        Ok(None)
    }

    fn read_behind(
        &self,
        _alloc: Global,
        _bytes: &[u8],
        _front: Front,
        _mem: &mut bool,
        _threads: &mut [Thread<bool>],
    ) -> Result<bool, OutOfMemory> {
        Ok(false)
    }

    ghost decodes = { λ _ _. faulty_decodes };

    ghost form_tells = { λ a b same. same };

    ghost tells = { λ _ _. faulty_tells };

    ghost own_cut = { λ _ _. (record { nodes = 0; records = 0 }, refl) };
}

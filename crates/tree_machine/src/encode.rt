//! What an explorer needs of a step machine besides its steps.
ghost use Rattle.std.specs.Prelude.{◌≡◌, ◌++◌, ℕ, List, Option, IsTrue, IfOk, IfSome, OnOk};
ghost use Rattle.tree_machine.specs.Rules.{ArePlacesInRange, DecodesForms};
ghost use Rattle.tree_machine.specs.Alike.{notes_of, places_of, replies_of};
ghost use Rattle.tree_machine.specs.FormCode.{IsInjective, TellsWholly, cut_code};
ghost use Rattle.tree_machine.specs.Naming.{code_by};
ghost use Rattle.tree_machine.specs.Offsets.{IsReadFrom};

use crate::encode_buffer::EncodeBuffer;
use crate::front::Front;
use crate::machine::Machine;
use crate::naming::Naming;
use crate::state::Thread;
use sched_program::{Op, OutOfMemory};
use std::alloc::Global;

/// A step machine whose states an explorer keeps as bytes, and whose steps it makes in place.
///
/// A memory with the place that each thread holds has two codes: its own, by the numbers of its nodes and records, and
/// that of its form. Both are codes cut at a front: what comes in front is of the memory alone. So after a step that
/// left the memory as it was, the code begins as that of the step's source. `read_front` and `read_behind` decode both.
/// `copy_mem_into` and `only_reads` are the two shortcuts for steps in place: an explorer keeps a copy of the memory in
/// a buffer that it reuses, and none where an access only reads.
pub trait Encode: Machine {
    ghost use Rattle.tree_machine.specs.declared.front.Front.{Front};

    /// The code of a form.
    ghost form_code: { Self.Form → List ℕ };

    /// The code of a memory with the place that each thread holds, by the numbers of nodes and
    /// records.
    ghost own_code: { Self.Mem → List (Option Self.Loc) → List ℕ };

    /// What comes in front, in the code of a memory with the place that each thread holds, cut at a front.
    ghost front_code: { Front → Self.Mem → List ℕ };

    /// What comes behind it: the place that each thread holds, and what is left of the memory.
    ghost behind_code: { Front → Self.Mem → List (Option Self.Loc) → List ℕ };

    /// Makes `copy` equal to `mem`. It reuses the buffers of `copy` where they are large enough. After a refusal `copy`
    /// is unspecified.
    fn copy_mem_into(&self, mem: &Self::Mem, copy: &mut Self::Mem) -> Result<(), OutOfMemory>
        ensures { OnOk result (copy.new ≡ mem.now) };

    /// Whether an access at this place leaves every memory as it is. Where it returns `false`, the
    /// access may write.
    fn only_reads(&self, loc: &Self::Loc) -> bool
        ensures { IsTrue result
            → (op : Op) (memory : Self.Mem) → ((Self.rules self.now).act op loc.now memory).0 ≡ memory };

    /// Appends the code of the memory with the place that each thread holds, by own numbers or canonical. After a
    /// refusal the bytes in the buffer are unspecified.
    fn write_code(
        &self,
        alloc: Global,
        naming: Naming,
        mem: &Self::Mem,
        threads: &[Thread<Self::Loc>],
        buffer: &mut EncodeBuffer,
    ) -> Result<(), OutOfMemory>
        requires memory_in_range { (Self.rules self.now).IsInRange mem.now }
        requires places_in_range { ArePlacesInRange (Self.rules self.now) mem.now (places_of threads.now) }
        ensures { OnOk result (buffer.new ≡ buffer.old
            ++ code_by naming (own_code mem.now (places_of threads.now))
            (form_code (Self.form_of self.now mem.now (places_of threads.now)))) };

    /// Appends the rest of such a code, behind its front. The memory was read from such a code, which was cut at this
    /// front. After a refusal the bytes in the buffer are unspecified.
    fn write_behind(
        &self,
        alloc: Global,
        naming: Naming,
        front: Front,
        mem: &Self::Mem,
        threads: &[Thread<Self::Loc>],
        buffer: &mut EncodeBuffer,
    ) -> Result<(), OutOfMemory>
        requires memory_in_range { (Self.rules self.now).IsInRange mem.now }
        requires places_in_range { ArePlacesInRange (Self.rules self.now) mem.now (places_of threads.now) }
        requires read { IsReadFrom (Self.rules self.now)
            (λ memory held. code_by naming (own_code memory held) (form_code (Self.form_of self.now memory held)))
            (cut_code front_code behind_code front) mem.now }
        ensures { OnOk result ((before : List ℕ) → buffer.old ≡ before ++ front_code front mem.now
            → buffer.new ≡ before ++ code_by naming (own_code mem.now (places_of threads.now))
            (form_code (Self.form_of self.now mem.now (places_of threads.now)))) };

    /// Decodes what comes in front in the code of a memory, into this one, and reuses its buffers where they are large
    /// enough. It returns the front, and the bytes behind it. It may return `None` for any bytes; then, and after a
    /// refusal, the memory is unspecified.
    fn read_front<'a>(
        &self,
        bytes: &'a [u8],
        mem: &mut Self::Mem,
    ) -> Result<Option<(Front, &'a [u8])>, OutOfMemory>
        ensures { IfOk result (λ read. IfSome read
            (λ (front, rest). bytes.now ≡ front_code front mem.new ++ rest.now)) };

    /// Decodes what comes behind this front of the memory: the place that each thread holds, and what is left of a
    /// memory that has the same front. It reuses the buffers of memory and places where they are large enough, and
    /// returns whether the bytes are the code of what it read. It may return `false` for any bytes; then, and after a
    /// refusal, the memory and the places are unspecified. The replies and notes of the threads stay as they are.
    fn read_behind(
        &self,
        alloc: Global,
        bytes: &[u8],
        front: Front,
        mem: &mut Self::Mem,
        threads: &mut [Thread<Self::Loc>],
    ) -> Result<bool, OutOfMemory>
        ensures read { IfOk result (λ read. IsTrue read
            → bytes.now ≡ behind_code front mem.new (places_of threads.new)) }
        ensures front { IfOk result (λ read. IsTrue read → front_code front mem.new ≡ front_code front mem.old) }
        ensures replies { replies_of threads.new ≡ replies_of threads.old }
        ensures notes { notes_of threads.new ≡ notes_of threads.old };

    /// A memory with places held whose code, cut at any front, is that of a form is alike to what the form is of.
    ghost decodes: { (machine : Self) (front : Front)
        → DecodesForms (Self.rules machine) (Self.form_of machine) form_code
        (cut_code front_code behind_code front) };

    /// Forms with equal codes are equal.
    ghost form_tells: { IsInjective form_code };

    /// Memories with places held whose codes are equal, cut at any fronts, are equal, and so are the places.
    ghost tells: { (front other : Front)
        → TellsWholly (cut_code front_code behind_code front) (cut_code front_code behind_code other) };

    /// The code by own numbers is cut at some front.
    ghost own_cut: { (memory : Self.Mem) (held : List (Option Self.Loc))
        → (front : Front) × (own_code memory held ≡ cut_code front_code behind_code front memory held) };
}

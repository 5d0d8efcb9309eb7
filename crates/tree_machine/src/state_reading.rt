//! Whole states decoded from bytes.
ghost use Rattle.std.specs.Prelude.{◌≡◌, ◌≤◌, ◌++◌, ◌∷◌, length, take, IfOk, IfSome, OnOk};
ghost use Rattle.std.specs.List.{flat_map};
ghost use Rattle.tree_machine.specs.Alike.{notes_of, places_of, replies_of};
ghost use Rattle.tree_machine.specs.Flat.{number_code};
ghost use Rattle.tree_machine.specs.FormCode.{astray_code, cut_code, list_code, note_code, replies_code};
ghost use Rattle.tree_machine.specs.Offsets.{AreOffsetsOf};

use crate::code_offsets::CodeOffsets;
use crate::encode::Encode;
use crate::front::Front;
use crate::op_log_reading::{read_all_notes, read_all_replies, read_astray};
use crate::reading::{read_any_number, read_byte};
use crate::state::{State, Thread};
use sched_program::OutOfMemory;
use std::alloc::Global;

/// Makes a list of threads as long as `count`: it drops threads, or appends threads that began
/// nothing.
#[inline(always)]
fn make_count<L: Drop>(threads: &mut Vec<Thread<L>>, count: usize) -> Result<(), OutOfMemory>
    ensures { OnOk result (length threads.new.items ≡ count) }
{
    threads.truncate(count);
    for _i in threads.len()..count {
        threads.push(Thread::idle())?;
    }
    Ok(())
}

/// Reads what the threads did and who went astray, behind the byte with their number. It returns
/// who went astray, and the bytes behind that.
#[inline(always)]
fn read_op_log<'a, L>(bytes: &'a [u8], threads: &mut [Thread<L>]) -> Option<(Option<u8>, &'a [u8])>
    ensures read { IfSome result (λ (astray, rest). bytes.now
        ≡ flat_map replies_code (replies_of threads.new)
        ++ (list_code (list_code note_code) (notes_of threads.new) ++ (astray_code astray ++ rest.now))) }
    ensures length { length threads.new ≡ length threads.old }
{
    let rest = read_all_replies(bytes, threads)?;
    let (count, rest) = read_byte(rest)?;
    if usize::from(count) != threads.len() {
        return None;
    }
    let rest = read_all_notes(rest, threads)?;
    read_astray(rest)
}

/// Reads the number of steps and the number of threads, at most four, and returns them with the
/// bytes behind.
#[inline(always)]
fn read_head(bytes: &[u8]) -> Option<(u64, u8, &[u8])>
    ensures read { IfSome result (λ (steps, count, rest). bytes.now ≡ number_code steps ++ count ∷ rest.now) }
    ensures bounded { IfSome result (λ (steps, count, rest). count ≤ 4) }
{
    let (steps, rest) = read_any_number(bytes)?;
    let (count, rest) = read_byte(rest)?;
    if count <= 4 {
        Some((steps, count, rest))
    } else {
        None
    }
}

/// What `read_body` found: how many bytes come behind what the threads did, how many of these come in front of what the
/// threads hold, and the front.
#[derive(Clone, Copy)]
struct BodyRead {
    behind: usize,
    end: usize,
    front: Front,
}

/// Decodes what comes in front in the code of a memory, unless it is `known`: what comes in front in the code of the
/// memory as it is, with the front. It returns the front, and the bytes behind it.
#[inline(always)]
fn read_front<'a, M: Encode>(
    machine: M,
    bytes: &'a [u8],
    known: Option<(&[u8], Front)>,
    memory: &mut M::Mem,
) -> Result<Option<(Front, &'a [u8])>, OutOfMemory>
    requires { IfSome known (λ known. known.0.now ≡ M.front_code known.1 memory.old) }
    ensures { IfOk result (λ read. IfSome read
        (λ (front, rest). bytes.now ≡ M.front_code front memory.new ++ rest.now)) }
{
    if let Some((known, front)) = known
        && let Some(rest) = bytes.strip_prefix(known)
    {
        return Ok(Some((front, rest)));
    }
    machine.read_front(bytes, memory)
}

/// Reads all that comes behind the number of threads. `known` is what comes in front in the code of the memory as it
/// is, with the front, if that is known. If the bytes have it there, it is not decoded again.
#[inline(always)]
fn read_body<M: Encode>(
    alloc: Global,
    machine: M,
    bytes: &[u8],
    known: Option<(&[u8], Front)>,
    memory: &mut M::Mem,
    threads: &mut [Thread<M::Loc>],
    astray: &mut Option<u8>,
) -> Result<Option<BodyRead>, OutOfMemory>
    requires { IfSome known (λ known. known.0.now ≡ M.front_code known.1 memory.old) }
    ensures read { IfOk result (λ read. IfSome read (λ read. bytes.now
        ≡ flat_map replies_code (replies_of threads.new)
        ++ (list_code (list_code note_code) (notes_of threads.new)
        ++ (astray_code astray.new
        ++ cut_code M.front_code M.behind_code read.front memory.new (places_of threads.new))))) }
    ensures behind { IfOk result (λ read. IfSome read (λ read. read.behind
        ≡ length (cut_code M.front_code M.behind_code read.front memory.new (places_of threads.new)))) }
    ensures front { IfOk result (λ read. IfSome read
        (λ read. read.end ≡ length (M.front_code read.front memory.new))) }
    ensures length { length threads.new ≡ length threads.old }
{
    let Some((thread, rest)) = read_op_log(bytes, threads) else {
        return Ok(None);
    };
    *astray = thread;
    let Some((front, held)) = read_front(machine, rest, known, memory)? else {
        return Ok(None);
    };
    if !machine.read_behind(alloc, held, front, memory, threads)? {
        return Ok(None);
    }
    Ok(Some(BodyRead {
        behind: rest.len(),
        end: rest.len() - held.len(),
        front,
    }))
}

impl<M: Encode> State<M> {
    /// What comes in front in the code of the memory, with the front, if a code of this state is given with the offsets
    /// of its parts.
    #[inline(always)]
    fn known_front<'a>(&self, last: Option<(&'a [u8], CodeOffsets)>) -> Option<(&'a [u8], Front)>
        requires { IfSome last
            (λ (last, offsets). AreOffsetsOf M.front_code M.behind_code last.now offsets self.now) }
        ensures { IfSome result (λ (known, front). known.now ≡ M.front_code front self.now.memory) }
    {
        let (last, offsets) = last?;
        let front = &last[offsets.memory..offsets.held];
        Some((front, offsets.front))
    }

    /// Decodes a state into this one, and reuses its buffers where they are large enough. If the bytes are the code of
    /// the state that this one then is, cut at a front, it returns where the parts of the code begin. It may return
    /// `None` for any bytes, and does for those of no state. Then, and after a refusal of memory, the state is
    /// unspecified, and can only be decoded into.
    ///
    /// `last` is the code of this state as it is, with the offsets of its parts, if that is known. What comes in front
    /// is then decoded only if it differs from that of `last`: most states that are decoded in a row have one memory.
    pub fn decode(
        &mut self,
        alloc: Global,
        machine: M,
        bytes: &[u8],
        last: Option<(&[u8], CodeOffsets)>,
    ) -> Result<Option<CodeOffsets>, OutOfMemory>
        requires { IfSome last
            (λ (last, offsets). AreOffsetsOf M.front_code M.behind_code last.now offsets self.old) }
        ensures { IfOk result (λ read. IfSome read
            (λ offsets. AreOffsetsOf M.front_code M.behind_code bytes.now offsets self.new)) }
    {
        let Some((steps, count, rest)) = read_head(bytes) else {
            return Ok(None);
        };
        let known = self.known_front(last);
        self.steps = steps;
        let threads = self.threads.as_mut_vec();
        make_count(threads, usize::from(count))?;
        let read = read_body(
            alloc,
            machine,
            rest,
            known,
            &mut self.memory,
            threads.as_mut_slice(),
            &mut self.astray,
        )?;
        match read {
            Some(read) => {
                let op_log = bytes.len() - rest.len() - 1;
                let memory = bytes.len() - read.behind;
                let held = memory + read.end;
                Ok(Some(CodeOffsets {
                    op_log,
                    memory,
                    held,
                    front: read.front,
                }))
            }
            None => Ok(None),
        }
    }
}

//! A buffer in which codes are written, one after the other.
ghost use Rattle.std.specs.Prelude.{◌≡◌, ◌≤◌, ◌++◌, [], length, OnOk, OnErr};
ghost use Rattle.tree_machine.specs.Alike.{notes_of, replies_of};
ghost use Rattle.tree_machine.specs.Coding.{IsOwn};
ghost use Rattle.tree_machine.specs.Flat.{number_code};
ghost use Rattle.tree_machine.specs.FormCode.{op_log_code};

use crate::bytes::Bytes;
use crate::coded::put_op_log;
use crate::coder::Coder;
use crate::output::Output;
use crate::state::Thread;
use sched_program::OutOfMemory;
use std::alloc::Global;
use std::marker::Model;

/// A buffer in which codes are written, with the coders that write them. It is reused for each code, and allocates
/// only until it is large enough for the largest of them. Contracts see the bytes in it.
#[derive(Drop)]
pub struct EncodeBuffer {
    pub(crate) out: Output,
    pub(crate) canonical: Coder,
    pub(crate) own: Coder,
    /// Where records are written while the nodes are not yet all there.
    pub(crate) records: Output,
    ghost is_own: { IsOwn 0 0 own },
}

impl Model for EncodeBuffer {
    ghost use Rattle.std.specs.Prelude.{List, ℕ};

    ghost Value = { List ℕ };

    ghost view = { λ b. b.out };
}

impl EncodeBuffer {
    /// An empty buffer. It allocates nothing.
    pub fn new(alloc: Global) -> EncodeBuffer
        ensures { result ≡ [] }
    {
        EncodeBuffer {
            out: Output::none(alloc),
            canonical: Coder::none(alloc),
            own: Coder::none(alloc),
            records: Output::none(alloc),
        }
    }

    /// Removes the bytes.
    pub(crate) fn clear(&mut self)
        ensures { self.new ≡ [] }
    {
        self.out.clear();
    }

    /// The bytes.
    pub fn as_slice(&self) -> &[u8]
        ensures { result.now ≡ self.now }
    {
        self.out.as_slice()
    }

    /// Appends bytes. After a refusal the bytes are unchanged.
    pub fn put(&mut self, bytes: &[u8]) -> Result<(), OutOfMemory>
        ensures ok { OnOk result (self.new ≡ self.old ++ bytes.now) }
        ensures err { OnErr result (self.new ≡ self.old) }
    {
        self.out.put(bytes)
    }

    /// The bytes, in memory of their own.
    pub(crate) fn into_bytes(self) -> Bytes
        ensures { result ≡ self }
    {
        Bytes::from_vec(self.out.into_vec())
    }

    /// Appends a number.
    #[inline(always)]
    pub(crate) fn put_number(&mut self, number: u64) -> Result<(), OutOfMemory>
        ensures { OnOk result (self.new ≡ self.old ++ number_code number) }
    {
        self.out.put_number(number)
    }

    /// Appends what the threads did, and who went astray.
    pub(crate) fn put_op_log<L>(
        &mut self,
        threads: &[Thread<L>],
        astray: Option<u8>,
    ) -> Result<(), OutOfMemory>
        requires { length threads.now ≤ 4 }
        ensures { OnOk result (self.new
            ≡ self.old ++ op_log_code (replies_of threads.now) (notes_of threads.now) astray) }
    {
        put_op_log(&mut self.out, threads, astray)
    }
}

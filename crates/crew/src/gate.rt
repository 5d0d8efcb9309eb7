//! Where a worker may be held between two steps of its work.

/// A worker calls a gate after it drew a place of a layer and made the expansion there, and before
/// it enters that into the book. It holds no lock meanwhile.
pub trait Gate: Sync {
    /// The worker, numbered from 1, is at a place of the layer, numbered from 0.
    fn arrive(&self, worker: u8, layer: u16, place: usize);
}

/// The gate that does nothing.
pub struct Open;

impl Gate for Open {
    fn arrive(&self, _worker: u8, _layer: u16, _place: usize) {}
}

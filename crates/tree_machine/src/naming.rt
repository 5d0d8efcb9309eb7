//! The numbers by which codes name nodes and records.

/// The numbers by which the code of a state names nodes and records.
#[derive(Clone, Copy, Debug, PartialEq, Eq)]
pub enum Naming {
    /// Their own numbers. Codes are equal only for equal states.
    Own,
    /// Their places in the order in which a walk meets them. Codes are equal exactly for states that are alike.
    Canonical,
}

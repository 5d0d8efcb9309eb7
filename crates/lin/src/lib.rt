//! Judging histories: is there a linearization of the operations, and which one?
//!
//! A linearization is an order of operations that explains their replies and keeps to real time (Herlihy and Wing,
//! "Linearizability: a correctness condition for concurrent objects", TOPLAS 1990). `check_order` decides whether a
//! list is one, `judge` searches for one, and `order_with_reply` decides whether one explains one more reply.
#![tactic(auto)]

mod history;
mod key_set;
mod op_set;
mod order;
mod progress;
mod reply;
mod searcher;
mod short_name;
mod short_order;
mod timeline;

pub use order::check_order;
pub use reply::order_with_reply;
pub use searcher::{judge, judge_counted};
pub use short_name::ShortName;
pub use short_order::{Order, judge_order};

// MODEL 8 and 12: the record of a card, written for a new card, changed when a task is entered and when it leaves, and searched.
// Whether bytes are a sound record is a crate of its own, `soundness`.
#![tactic(auto)]

pub mod bytes;
pub mod checked;
pub mod clear;
pub mod device;
pub mod edit;
pub mod enter;
pub mod entries;
pub mod fits;
pub mod leave;

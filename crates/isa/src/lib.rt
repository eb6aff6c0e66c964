//! What logs and packets share: the privilege levels of a hart, and the addresses of its instructions.
#![tactic(auto)]

mod privilege;

pub use privilege::is_privilege;

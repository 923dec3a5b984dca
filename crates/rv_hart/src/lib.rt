//! How a hart translates an address, one table word at a time, by a TLB of our own (RISC-V Privileged Architecture, Sv39).
#![tactic(auto)]

mod law;
mod learning;
mod seeking;
mod walks;

pub use law::repeated_steps_translate;
pub use learning::learn;
pub use seeking::{Sought, seek};
pub use walks::{Micro, PageFault, View, Walk};

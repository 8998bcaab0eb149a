//! The registers by which a guest reads and writes the state of Virtual Secure Mode, bit by bit.
#![tactic(auto)]

mod capabilities;
mod code_page_offsets;
mod partition_config;
mod partition_status;
mod vp_status;

pub use capabilities::Capabilities;
pub use code_page_offsets::CodePageOffsets;
pub use partition_config::PartitionConfig;
pub use partition_status::PartitionStatus;
pub use vp_status::VpStatus;

#[cfg(test)]
mod tests;

//! The device that a journal is kept on while the desk serves: bytes are appended and synced, and what is kept is found again.
#![tactic(auto)]

mod device;
#[cfg(test)]
mod failing_file;
#[cfg(test)]
mod file_tests;
mod found;
mod journal_file;
mod memory_device;
#[cfg(test)]
mod memory_tests;
mod not_opened;
mod system_file;

pub use device::Device;
pub use found::Found;
pub use journal_file::JournalFile;
pub use memory_device::MemoryDevice;
pub use not_opened::NotOpened;
pub use system_file::SystemFile;

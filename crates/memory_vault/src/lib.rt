//! Areas, a site, streams and a clock in memory, over which all else can be tried.
//!
//! `MemVault`, `MemSite`, `MemSource`, `MemSink` and `SetClock` are the traits of `vault` in
//! memory: a test names the calls that are to fail, and may ask what a stop leaves
//! (`MemVault::stopped`). They hold exactly what `vault` says of its traits, and are proved by it.
//!
//! Left to others: real folders and streams, to `vault_os`.
#![tactic(auto)]

mod fails;
mod fuse;
mod memory;
mod memory_files;
mod memory_site;
mod memory_streams;
mod stopped;

pub use memory::MemVault;
pub use memory_site::MemSite;
pub use memory_streams::{MemSink, MemSource, SetClock};

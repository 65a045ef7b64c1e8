//! The calls of the system on files and folders, by their paths, as a trait whose clauses say what
//! each answers and leaves where the system tells its files; and the real system.
//!
//! The real one (`Os`) tells nothing: that it does what `System` says of one that tells is trusted.
//! Its bodies are one call of the library each. What is made of these calls is left to `vault_os`.
#![tactic(auto)]

mod kind;
mod os;
mod system;

pub use kind::Kind;
pub use os::Os;
pub use system::System;

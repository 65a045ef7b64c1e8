//! Commands judged by the pages that a partition has in frames.
//!
//! A command may be done, and adds and takes away so many pages, or it is refused for the first
//! reason in order (`specs/Refusals.antt`). `judge_alone` judges one by its own words, before a
//! page is looked at. Nothing is changed.
//!
//! Left to others: the frames (`page_frames`), what a command does to a store (`history`), and
//! doing it on a partition (`page_pool`).
#![tactic(auto)]

mod fault;
mod form;
pub mod judge;

pub use fault::OpFault;
pub use form::judge_alone;

//! What the history is a list of.

use history::Op;
use std::marker::Model;

/// An entry of a history, as proofs see it. The program makes no value of it.
#[derive(Drop)]
pub struct HistoryEntry {
    op: Op,
    start: u64,
    end: u64,
    worker: Option<u32>,
    seq: Option<u64>,
}

impl Model for HistoryEntry {
    ghost use Rattle.history.specs.Entry.{Entry};
    ghost use Rattle.history.specs.Op.{act_of_op};

    ghost Value = { Entry };

    ghost view = { λ e. record {
      act = act_of_op e.op;
      start = e.start;
      end = e.end;
      worker = e.worker;
      seq = e.seq;
    } };
}

//! The keys of a label's lines.

pub(crate) const START: &[u8] = b"START WAL LOCATION: ";

pub(crate) const CHECKPOINT: &[u8] = b"CHECKPOINT LOCATION: ";

pub(crate) const METHOD: &[u8] = b"BACKUP METHOD: ";

pub(crate) const FROM: &[u8] = b"BACKUP FROM: ";

pub(crate) const TIME: &[u8] = b"START TIME: ";

pub(crate) const LABEL: &[u8] = b"LABEL: ";

pub(crate) const TIMELINE: &[u8] = b"START TIMELINE: ";

pub(crate) const PRIOR_START: &[u8] = b"INCREMENTAL FROM LSN: ";

pub(crate) const PRIOR_TIMELINE: &[u8] = b"INCREMENTAL FROM TLI: ";

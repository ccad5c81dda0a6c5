//! Reading a script item by item (own).
//!
//! An item is returned as soon as its last line is read, so that a program can run a script while another program still
//! writes it. A program that replies to each item reads them by `next_after_flush`.

use crate::item_draft::ItemDraft;
use crate::read_ahead::Parts;

/// Reads the items of a script from a [`Source`](crate::device::Source).
pub type Reader = Parts<ItemDraft>;

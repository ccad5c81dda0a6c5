//! How a command updates the session.
//!
//! A command does not change the session. It writes the next changer into the buffers, if there is one, and returns its
//! output and an update. Applying the update cannot fail, so a command that runs out of memory leaves the session as it
//! was.

/// How the session changes after a command. The next changer is in the buffers.
#[derive(Clone, Copy)]
pub(crate) enum SessionUpdate {
    /// Not at all: the command was a question, or was refused.
    Nothing,
    /// The member with this id acknowledged this index.
    Acknowledged(u64, u64),
    /// A change was accepted: the next changer replaces the current one, whose configuration is kept for `undo`.
    Stepped,
    /// A saved configuration was restored: the next changer replaces the current one. No change led to the restored
    /// configuration, so no earlier one is kept.
    Restored,
    /// This many changes were undone: the next changer replaces the current one, and the configurations before those
    /// changes are no longer kept. So a second `undo` leads further back.
    Undone(usize),
}

//! The type of the sets of ids in a session. It is named once, here, so that another implementation of `MemberSet` can
//! be tried.
use quorum_sets::InlineIds;

/// How each set of a session is kept.
pub type SessionIds = InlineIds;

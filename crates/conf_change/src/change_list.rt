//! Reading lists of changes, as the test scripts of etcd's raft packages write them: `v1 l2 r3` makes 1 a voter and 2 a
//! learner, and removes 3.
ghost use Rattle.std.specs.Prelude.{◌≡◌, Ok, Err, [], IfOk, OnOk, OnErr, IfErr, IfSome, IsSomeAnd, MatchResult};
ghost use Rattle.conf_change.specs.ChangeList.{bad_token, change_in, changes_in, kind_in};

use crate::change::{Change, Kind};
use ascii_text::number::read_number;
use ascii_text::tokens::next_token;
use std::alloc::{AllocError, AllocFailed, Global};
use thiserror::Error;

/// Why a text is not a list of changes, with the first bad token.
#[derive(Clone, Copy, Debug, PartialEq, Eq, Error)]
pub enum TokenFault<'a> {
    /// The token has fewer than two bytes, such as `v`.
    #[error("unknown token")]
    UnknownToken(&'a [u8]),
    /// The token does not begin with one of the letters `v`, `l`, `r` and `u`, such as `x1`.
    #[error("unknown input")]
    UnknownInput(&'a [u8]),
    /// What follows the letter is not a number below 2^64, as in `v-1` (own; etcd's scripts have Go's text for it).
    #[error("bad number")]
    BadNumber(&'a [u8]),
    /// An allocation failed.
    #[error("out of memory")]
    NoMemory,
}

impl From<AllocFailed<Change>> for TokenFault<'_> {
    ghost use Rattle.conf_change.specs.declared.change_list.TokenFault.TheVariants.{NoMemory};

    ghost from_gives = { λ _ fault. fault ≡ NoMemory };

    fn from(_error: AllocFailed<Change>) -> Self {
        TokenFault::NoMemory
    }
}

impl From<AllocError> for TokenFault<'_> {
    ghost use Rattle.conf_change.specs.declared.change_list.TokenFault.TheVariants.{NoMemory};

    ghost from_gives = { λ _ fault. fault ≡ NoMemory };

    fn from(_error: AllocError) -> Self {
        TokenFault::NoMemory
    }
}

/// Reads a list of changes: tokens separated by white space, each a letter and a decimal number. Numbers are below 2^64
/// and may have leading zeros; the first bad token is the error. A text without tokens is the empty list (etcd's
/// `raftpb.ConfChangesFromString`, which takes a single space as the separator). The law
/// [`one_list_per_text`](crate::laws::one_list_per_text) says which list that is.
pub fn read_changes(alloc: Global, text: &[u8]) -> Result<Vec<Change>, TokenFault<'_>>
    ensures value { IfOk result (λ changes. changes_in text.now ≡ Ok changes.items) }
    ensures fault { IfErr result
        (λ fault. IfSome (bad_token fault) (λ bad. changes_in text.now ≡ Err bad)) }
{
    let mut changes = Vec::new(alloc);
    read_changes_into(&mut changes, text)?;
    Ok(changes)
}

/// As [`read_changes`], into a list that is overwritten (own). A loop over many lines uses one list for all of them.
/// After an error the list is empty.
pub fn read_changes_into<'a>(
    changes: &mut Vec<Change>,
    text: &'a [u8],
) -> Result<(), TokenFault<'a>>
    ensures value { OnOk result (changes_in text.now ≡ Ok changes.new.items) }
    ensures fault { IfErr result
        (λ fault. IfSome (bad_token fault) (λ bad. changes_in text.now ≡ Err bad)) }
    ensures left { OnErr result (changes.new.items ≡ []) }
{
    let read = read_over(changes, text);
    if read.is_err() {
        changes.clear();
    }
    read
}

// Overwrites a list. After an error it may have the changes before the bad token.
fn read_over<'a>(list: &mut Vec<Change>, text: &'a [u8]) -> Result<(), TokenFault<'a>>
    ensures value { OnOk result (changes_in text.now ≡ Ok list.new.items) }
    ensures fault { IfErr result
        (λ fault. IfSome (bad_token fault) (λ bad. changes_in text.now ≡ Err bad)) }
{
    list.clear();
    // A token and the space after it have at least three bytes.
    list.reserve(text.len().div_ceil(3).min(64))?;
    let mut rest = text;
    while let Some((token, suffix)) = next_token(rest) {
        list.push(read_change(token)?)?;
        rest = suffix;
    }
    Ok(())
}

/// Parses a change: a letter and a decimal number below 2^64, which may have leading zeros. `v007` is the change `v7`.
pub fn read_change(token: &[u8]) -> Result<Change, TokenFault<'_>>
    ensures { MatchResult result (λ change. change_in token.now ≡ Ok change)
        (λ fault. IsSomeAnd (bad_token fault) (λ bad. change_in token.now ≡ Err bad)) }
{
    let [letter, digits @ ..] = token else {
        return Err(TokenFault::UnknownToken(token));
    };
    if digits.is_empty() {
        return Err(TokenFault::UnknownToken(token));
    }
    let kind = kind_of(*letter).ok_or(TokenFault::UnknownInput(token))?;
    let id = read_number(digits).ok_or(TokenFault::BadNumber(token))?;
    Ok(Change { kind, id })
}

// The kind of change that a letter denotes.
fn kind_of(letter: u8) -> Option<Kind>
    ensures { result ≡ kind_in letter }
{
    match letter {
        b'v' => Some(Kind::Voter),
        b'l' => Some(Kind::Learner),
        b'r' => Some(Kind::Remove),
        b'u' => Some(Kind::Update),
        _ => None,
    }
}

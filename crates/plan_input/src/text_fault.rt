//! Why a text is not a configuration, or not a target.
ghost use Rattle.std.specs.Prelude.{◌≡◌};
ghost use Rattle.plan_input.specs.Input.{bad_change, bad_printed, change_fault_of, json_fault, text_fault_of};

use crate::id_hint::{IdHint, from_bracket};
use crate::short_token::ShortToken;
use ascii_text::number::has_digits_alone;
use conf_change::{ConfigurationFault, TokenFault, Violation};
use quorum_sets::NoMemory;
use thiserror::Error;

/// Why a text is not a configuration, or not a target.
#[derive(Clone, Copy, Debug, PartialEq, Eq, Error)]
pub enum TextFault {
    /// It does not begin as any form does.
    #[error("not a configuration: expected voters=(1 2 3) learners=(4), a ConfState line, or JSON of a ConfState or of etcdctl member list")]
    UnknownForm,
    /// It begins with `Voters:`, and is not a ConfState line.
    #[error("bad conf state: expected Voters:[1 2] VotersOutgoing:[] Learners:[3] LearnersNext:[] AutoLeave:false{0}")]
    BadConfState(IdHint),
    /// It begins with `voters`, and is not a printed configuration.
    #[error("bad configuration: expected voters=(1 2)&&(1 2 3) learners=(4) learners_next=(3) autoleave, without what is empty{0}")]
    BadPrinted(IdHint),
    /// It begins with `voters`, is not a printed configuration, and has commas.
    #[error("bad configuration: expected ids with spaces between, as in voters=(1 2 3){0}")]
    CommasBetween(IdHint),
    /// It begins with `{`, and is not JSON of a configuration.
    #[error("bad JSON: expected {{\"voters\":[1,2],\"voters_outgoing\":[],\"learners\":[3],\"learners_next\":[],\"auto_leave\":false}}, or etcdctl member list -w json{0}")]
    BadJson(IdHint),
    /// It is JSON, not of a configuration, and an id in it is a text.
    #[error("bad JSON: an ID is a decimal number{0}")]
    TextIds(IdHint),
    /// It names no valid configuration, for this reason.
    #[error("not a configuration: {0}")]
    NotAConfiguration(Violation),
    /// It is a target in no other form, and this token of it is not a change.
    #[error("bad change {0}: expected changes as r1 v4 l5, or a configuration as voters=(1 2 3), a ConfState line, or JSON{1}")]
    BadChange(ShortToken, IdHint),
    /// It is a target in no other form, and this token of it, the first that is not a change, has digits alone.
    #[error("bad change {0}: a target is a configuration, as voters=(1 2 4), or changes, as r1 v4")]
    BareId(ShortToken),
    /// It is blank, and a target is a configuration or changes.
    #[error("expected a configuration or changes")]
    Empty,
    /// A change of it removes this id, which is in no set of the current configuration.
    #[error("r{0}: {0} is not a member")]
    NotAMember(u64),
    /// Its changes remove this member, and then make it a voter or a learner again.
    #[error("{0} is removed and added again: a server that lost its log needs a new id")]
    AddedAgain(u64),
    /// An allocation failed.
    #[error("out of memory")]
    NoMemory,
}

impl TextFault {
    // The error of a ConfState line, or of a saved configuration, as that of this text.
    pub(crate) fn of_configuration(text: &[u8], fault: ConfigurationFault) -> TextFault
        ensures { result ≡ text_fault_of text.now fault }
    {
        match fault {
            ConfigurationFault::BadConfState => TextFault::BadConfState(IdHint::new(text)),
            ConfigurationFault::NotAConfiguration(violation) => {
                TextFault::NotAConfiguration(violation)
            }
            ConfigurationFault::NoMemory => TextFault::NoMemory,
        }
    }

    // What is wrong with a text that is not a printed configuration.
    pub(crate) fn bad_printed(text: &[u8]) -> TextFault
        ensures { result ≡ bad_printed text.now }
    {
        let hint = IdHint::new(text);
        if text.contains(&b',') {
            TextFault::CommasBetween(hint)
        } else {
            TextFault::BadPrinted(hint)
        }
    }

    // The error of a text that is not JSON of a configuration, by whether an id in it is a text.
    pub(crate) fn of_json(text: &[u8], has_text_ids: bool) -> TextFault
        ensures { result ≡ json_fault text.now has_text_ids }
    {
        let hint = IdHint::new(from_bracket(text));
        if has_text_ids {
            TextFault::TextIds(hint)
        } else {
            TextFault::BadJson(hint)
        }
    }
}

// What is wrong with a token that is not a change.
fn bad_change(token: &[u8]) -> TextFault
    ensures { result ≡ bad_change token.now }
{
    let short = ShortToken::new(token);
    if has_digits_alone(token) {
        TextFault::BareId(short)
    } else {
        TextFault::BadChange(short, IdHint::new(token))
    }
}

impl From<TokenFault<'_>> for TextFault {
    ghost from_gives = { λ fault converted. converted ≡ change_fault_of fault };

    fn from(fault: TokenFault<'_>) -> TextFault {
        match fault {
            TokenFault::UnknownToken(token)
            | TokenFault::UnknownInput(token)
            | TokenFault::BadNumber(token) => bad_change(token),
            TokenFault::NoMemory => TextFault::NoMemory,
        }
    }
}

impl From<NoMemory> for TextFault {
    ghost use Rattle.plan_input.specs.declared.text_fault.TextFault.TheVariants.{NoMemory};

    ghost from_gives = { λ _ converted. converted ≡ NoMemory };

    fn from(_error: NoMemory) -> TextFault {
        TextFault::NoMemory
    }
}

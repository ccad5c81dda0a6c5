//! The arguments of a directive, matched with the parameters of its command: an argument belongs to the parameter with
//! its key, as `autoleave=true` does to `autoleave`.
ghost use Rattle.std.specs.Prelude.{◌≡◌, option_copied};
ghost use Rattle.conf_session.specs.Arguments as spec;

use crate::parameter::Parameter;
use dd_file::item::Argument;

/// The parameter that the argument belongs to.
pub(crate) fn parameter_of<'a>(
    parameters: &'a [Parameter],
    argument: &Argument,
) -> Option<&'a Parameter>
    ensures { option_copied result ≡ spec.parameter_of parameters.now argument.now }
{
    parameters
        .iter()
        .find(|parameter| argument.key() == parameter.key())
}

/// The first required parameter that has no argument, in the order of the command's row.
pub(crate) fn missing_argument<'a>(
    parameters: &'a [Parameter],
    arguments: &[Argument],
) -> Option<&'a Parameter>
    ensures { option_copied result ≡ spec.missing_argument parameters.now arguments.now }
{
    parameters.iter().find(|parameter| parameter.is_required()
        && !has_key(arguments, parameter.key()))
}

/// Whether one of the arguments has the key. This also detects repeated arguments.
pub(crate) fn has_key(arguments: &[Argument], key: &[u8]) -> bool
    ensures { result ≡ spec.has_key arguments.now key.now }
{
    arguments.iter().any(|argument| argument.key() == key)
}

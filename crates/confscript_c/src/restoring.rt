//! Checking and restoring a saved configuration in numbers, as a server does when it restarts:
//!
//! ```text
//! 0, 3, 0, 1, 0, 0,  3, 1, 2,  4   ->  0, 3, 0, 1, 0, 4,  1, 2, 3,  4,  1, 2, 3, 4
//! ```
ghost use Rattle.std.specs.Prelude.{◌≡◌, Ok, IfOk, IfErr};
ghost use Rattle.confscript_c.specs.Answer.{Refuses};
ghost use Rattle.confscript_c.specs.Numbers.{restore_result};
ghost use Rattle.confscript_c.specs.Written.{Writes};

use crate::answer::Answer;
use crate::buffer::write_out;
use crate::numbers::{Numbers, configuration_of, numbers_of};
use std::alloc::Global;

/// Writes a saved configuration with its ids in ascending order and all members catching up. The number is how
/// many numbers are written. The call is refused if the array has not the form of a configuration, if a list names an
/// id twice, if an invariant is broken, or if there are members but no incoming voter (etcd's `confchange.Restore`; the
/// form is own).
#[unsafe(no_mangle)]
pub extern "C" fn confscript_restore(
    alloc: Global,
    configuration: &[u64],
    out: &mut [u64],
) -> Answer
    ensures { Writes (restore_result configuration.now) out.old result out.new }
{
    match restored(alloc, configuration) {
        Ok(numbers) => write_out(numbers.as_slice(), out),
        Err(why) => why,
    }
}

// The array of the restored configuration, or the answer with the reason why there is none.
fn restored(alloc: Global, configuration: &[u64]) -> Result<Numbers, Answer>
    ensures numbers { IfOk result (λ numbers. restore_result configuration.now
        ≡ Ok numbers.items) }
    ensures refused { IfErr result (Refuses (restore_result configuration.now)) }
{
    let config = configuration_of(alloc, configuration)?;
    let catching_up = config.members()?;
    Ok(numbers_of(alloc, &config, &catching_up)?)
}

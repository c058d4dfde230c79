//! How a call ended, as C has it.
ghost use Rattle.std.specs.Prelude.{◌≡◌};
ghost use Rattle.kmip_c.specs.Calls.{status_of};

use kmip_words::Ending;

/// The status of a call that ended like this: 0, 1 or 3.
pub fn status_of(ending: Ending) -> i32
    ensures { result ≡ status_of ending }
{
    match ending {
        Ending::Answered => 0,
        Ending::Refused => 1,
        Ending::Lost => 3,
    }
}

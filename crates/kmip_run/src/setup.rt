//! A client with the settings of the words.
ghost use Rattle.std.specs.Prelude.{◌≡◌};
ghost use Rattle.kmip_words.specs.Exchange.{settings_of};
ghost use Rattle.kmip_run.specs.Setup.{settings_for};

use crate::command::Options;
use kmip_client::Client;

/// A client over this link, with the settings of the words.
pub fn client_of<T>(link: T, options: Options) -> Client<T>
    ensures link { result.link ≡ link }
    ensures settings { settings_of result ≡ settings_for options }
{
    kmip_words::client_of(
        link,
        options.user,
        options.password,
        options.limit,
        options.diag,
    )
}

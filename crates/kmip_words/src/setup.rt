//! A client with the settings that a program was given.
ghost use Rattle.std.specs.Prelude.{◌≡◌, None, false, option_map};
ghost use Rattle.kmip_request.specs.Message.{credential_of};
ghost use Rattle.kmip_client.specs.Client.{credential_for};
ghost use Rattle.kmip_words.specs.Exchange.{settings_of};

use kmip_client::{Client, ClientBuilder};
use kmip_request::Authentication;
use kmip_types::auth::{CredentialType, UsernameAndPasswordCredential};
use kmip_wire::{Config, Text};

/// What a request shows of who makes it, where there are both a user name and a password. It takes
/// no memory.
pub fn authentication_of(user: Option<Text>, password: Option<Text>) -> Option<Authentication>
    ensures { option_map credential_of result ≡ credential_for user password }
{
    match (user, password) {
        (Some(user), Some(password)) => {
            let credential = UsernameAndPasswordCredential::new(user, Some(password));
            Some(Authentication::build(CredentialType::UsernameAndPassword(credential)))
        }
        _ => None,
    }
}

/// A builder with these credentials.
fn with_user<T>(
    builder: ClientBuilder<T>,
    user: Option<Text>,
    password: Option<Text>,
) -> ClientBuilder<T>
    requires username { builder.username ≡ None }
    requires password { builder.password ≡ None }
    ensures link { result.link ≡ builder.link }
    ensures credential { credential_for result.username result.password ≡
        credential_for user password }
{
    match user {
        Some(user) => builder.with_credentials(user, password),
        None => builder,
    }
}

/// How responses are read, without diagnostics. `limit` is the most bytes that one may have, its
/// head counted. It takes no memory.
pub fn config_of_limit(limit: Option<u32>) -> Config
    ensures limit { result.max_bytes ≡ limit }
    ensures buffered { result.has_buf ≡ false }
{
    match limit {
        Some(limit) => Config::new().with_max_bytes(limit),
        None => Config::new(),
    }
}

/// How responses are read: their limit, and whether diagnostics are kept.
fn config_of(limit: Option<u32>, diag: bool) -> Config
    ensures limit { result.max_bytes ≡ limit }
    ensures buffered { result.has_buf ≡ diag }
{
    let config = config_of_limit(limit);
    if diag { config.with_read_buf() } else { config }
}

/// A client over this link. It sends a credential where there are a user and a password, takes no
/// response of more bytes than `limit`, and keeps diagnostics where `diag` is true. It takes no
/// memory.
pub fn client_of<T>(
    link: T,
    user: Option<Text>,
    password: Option<Text>,
    limit: Option<u32>,
    diag: bool,
) -> Client<T>
    ensures link { result.link ≡ link }
    ensures settings { settings_of result ≡
        record { credential = credential_for user password; limit = limit; buffered = diag } }
{
    let config = config_of(limit, diag);
    with_user(ClientBuilder::new(link), user, password)
        .with_reader_config(config)
        .build()
}

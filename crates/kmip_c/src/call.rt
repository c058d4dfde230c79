//! Credentials and IDs, given by C as bytes.
ghost use Rattle.std.specs.Prelude.{◌≡◌, IfOk, option_map};
ghost use Rattle.kmip_c.specs.Calls.{id_of, settings_of, settings_with};

use kmip_wire::{OutOfMemory, Text};
use kmip_words::Settings;
use std::alloc::Global;
use std::str;

/// The Unique Batch Item ID of a request: none where it is no bytes.
pub fn id_of(id: &[u8]) -> Option<&[u8]>
    ensures { option_map (λ id. id.now) result ≡ id_of id.now }
{
    if id.is_empty() { None } else { Some(id) }
}

/// A user name and a password, where a request is to carry them.
#[derive(Drop)]
pub struct Credential {
    /// The user name; a request carries a credential only where there are both.
    pub user: Option<Text>,
    /// The password.
    pub password: Option<Text>,
}

/// The credential of a call, where it is to have one. `None` where that is not UTF-8.
pub fn credential_of(
    alloc: Global,
    has_credential: bool,
    user: &[u8],
    password: &[u8],
) -> Result<Option<Credential>, OutOfMemory>
    ensures { IfOk result (λ credential. option_map settings_with credential ≡
        settings_of has_credential user.now password.now) }
{
    if !has_credential {
        return Ok(Some(Credential {
            user: None,
            password: None,
        }));
    }
    let Ok(user) = str::from_utf8(user) else {
        return Ok(None);
    };
    let Ok(password) = str::from_utf8(password) else {
        return Ok(None);
    };
    let user = Text::of(alloc, user)?;
    let password = Text::of(alloc, password)?;
    Ok(Some(Credential {
        user: Some(user),
        password: Some(password),
    }))
}

/// The settings of a call: the credential, where it is to have one. `None` where that is not UTF-8.
pub fn settings_of(
    alloc: Global,
    has_credential: bool,
    user: &[u8],
    password: &[u8],
) -> Result<Option<Settings>, OutOfMemory>
    ensures { IfOk result
        (λ settings. settings ≡ settings_of has_credential user.now password.now) }
{
    match credential_of(alloc, has_credential, user, password)? {
        Some(Credential { user, password }) => Ok(Some(Settings::new(user, password, None))),
        None => Ok(None),
    }
}

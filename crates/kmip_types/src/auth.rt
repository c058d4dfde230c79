//! Credentials that a client sends.

ghost use Rattle.std.specs.Prelude.{◌≡◌};

use kmip_wire::Text;

/// The credential of a client: KMIP 1.0, 2.1.2.
#[derive(Drop)]
pub enum CredentialType {
    /// A username and a password: KMIP 1.0, 2.1.2.
    UsernameAndPassword(UsernameAndPasswordCredential),
}

/// A username, and its password where there is one: KMIP 1.0, 2.1.2.
#[derive(Drop)]
pub struct UsernameAndPasswordCredential {
    /// The name of the user.
    pub username: Text,
    /// The password, where there is one.
    pub password: Option<Text>,
}

impl UsernameAndPasswordCredential {
    /// A credential of this username and password. It takes no memory.
    pub fn new(username: Text, password: Option<Text>) -> Self
        ensures { (result.username ≡ username) × (result.password ≡ password) }
    {
        UsernameAndPasswordCredential { username, password }
    }
}

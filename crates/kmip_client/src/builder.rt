//! How a client is made.
ghost use Rattle.std.specs.Prelude.{◌≡◌, None, Some, false};
ghost use Rattle.kmip_client.specs.Client.{BuilderState, ClientState, credential_for};

use crate::client::Client;
use kmip_request::Authentication;
use kmip_types::auth::{CredentialType, UsernameAndPasswordCredential};
use kmip_wire::{Config, Text};
use std::marker::Model;

/// Makes a client of its settings. None of its calls takes memory.
#[derive(Drop)]
pub struct ClientBuilder<T> {
    stream: T,
    username: Option<Text>,
    password: Option<Text>,
    config: Config,
}

impl<T> Model for ClientBuilder<T> {
    ghost Value = { BuilderState T };

    ghost view = { λ b. record {
      link = b.stream;
      username = b.username;
      password = b.password;
      limit = b.config.max_bytes;
      buffered = b.config.has_buf;
    } };
}

impl<T> ClientBuilder<T> {
    /// A client over this link, with no credentials, no limit and no buffer.
    pub fn new(stream: T) -> Self
        ensures { result ≡
            record {
              link = stream;
              username = None;
              password = None;
              limit = None;
              buffered = false;
            } }
    {
        ClientBuilder {
            stream,
            username: None,
            password: None,
            config: Config::new(),
        }
    }

    /// Sets the user name and the password, in place of those before. A user name without a
    /// password is not sent.
    pub fn with_credentials(self, username: Text, password: Option<Text>) -> Self
        ensures { result ≡ record self { username = Some username; password = password } }
    {
        ClientBuilder {
            stream: self.stream,
            username: Some(username),
            password,
            config: self.config,
        }
    }

    /// Sets how responses are read: their limit, and whether diagnostics are kept.
    pub fn with_reader_config(self, reader_config: Config) -> Self
        ensures { result ≡
            record self { limit = reader_config.max_bytes; buffered = reader_config.has_buf } }
    {
        ClientBuilder {
            stream: self.stream,
            username: self.username,
            password: self.password,
            config: reader_config,
        }
    }

    /// The client. It sends a credential exactly where username and password are both set.
    pub fn build(self) -> Client<T>
        ensures { result ≡
            record {
              link = self.link;
              credential = credential_for self.username self.password;
              limit = self.limit;
              buffered = self.buffered;
              errors = 0;
              request_text = None;
              response_text = None;
            } }
    {
        let authentication = match (self.username, self.password) {
            (Some(username), Some(password)) => {
                let credential = UsernameAndPasswordCredential::new(username, Some(password));
                Some(Authentication::build(CredentialType::UsernameAndPassword(credential)))
            }
            _ => None,
        };
        Client::of_parts(self.stream, authentication, self.config)
    }
}

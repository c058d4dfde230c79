//! Makes an RSA key pair on a key server, activates the private key and signs with it.
//!
//! Standard input and output are the connection, which `socat` or `openssl s_client` carries to the
//! server. The result or the error is a line on standard error. The status is 1 after an error, and
//! else 0, also where the server does not sign.
#![tactic(auto)]

mod signing;

use kmip_client::{ClientBuilder, Error};
use kmip_link::{Link, StreamLink};
use kmip_wire::Config;
use signing::sign_with_new_key;
use std::alloc::Global;
use std::process::ExitCode;

/// What to do about an error.
fn advice(error: &Error) -> &'static str {
    match error {
        Error::RequestWriteError(_) | Error::ResponseReadError(_) => {
            "the connection is lost: open another, and ask what was done"
        }
        Error::DeserializeError(_) => "the server sent no KMIP: close the connection",
        Error::ItemNotFound(_) => "the server has no such object",
        Error::ServerError(_) => "the server refused the request: its reason is in the text",
        Error::InternalError(_) => "the response is no answer to the request",
        Error::SerializeError(_) => "the request is too long to be sent",
        Error::OutOfMemory => "memory ran out: the call may have been made in part",
        Error::ConfigurationError(_) | Error::Unknown(_) => "no call returns these",
    }
}

/// Makes the calls over a link, and returns what came of them as one line.
fn run<T: Link + Drop>(alloc: Global, link: T) -> Result<String, Error> {
    let config = Config::new().with_max_bytes(65_536);
    let mut client = ClientBuilder::new(link).with_reader_config(config).build();
    match sign_with_new_key(alloc, &mut client, b"hello") {
        Ok(Some(signed)) => {
            let key = signed.private_key.as_str();
            let public = signed.public_key.as_str();
            let length = signed.signature.as_slice().len();
            Ok(format!(in alloc; "key {key}, public key {public}: a signature of {length} bytes")?)
        }
        Ok(None) => Ok(format!(in alloc; "the server does not sign")?),
        Err(error) => Err(error),
    }
}

fn main(rt: HostRuntime) -> ExitCode {
    let link = StreamLink::new(rt.stdin(), rt.stdout());
    match run(rt.alloc(), link) {
        Ok(line) => {
            let _ = eprintln!(rt; "{line}");
            ExitCode::from(0)
        }
        Err(error) => {
            let what = advice(&error);
            let _ = eprintln!(rt; "{error}: {what}");
            ExitCode::from(1)
        }
    }
}

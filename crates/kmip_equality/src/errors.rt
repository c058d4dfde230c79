//! The law for what a client's call returns instead of a payload.

ghost use Rattle.kmip_equality.specs.Equality.{IsEquality};

use kmip_client::Error;

/// `==` says exactly whether two errors are equal, with their texts.
pub fn client_errors()
    ensures { IsEquality ⟦<Error as PartialEq>⟧.eq }
{}

//! What a call answers: the payload of any operation, or that of some.
ghost use Rattle.std.specs.Prelude.{◌≡◌, ◌⊎◌};
ghost use Rattle.kmip_shape.specs.Val.{Val, Case};
ghost use Rattle.kmip_enums.specs.Operations.{operation_line};
ghost use Rattle.kmip_enums.specs.declared.operation.Operation.{Operation as TheOperation};
ghost use Rattle.kmip_response.specs.Values.{response_payload_val, query_payload_val};
ghost use Rattle.kmip_response.specs.Values.{create_key_pair_payload_val, rng_retrieve_payload_val};
ghost use Rattle.kmip_response.specs.Values.{sign_payload_val, unique_identifier_payload_val};
ghost use Rattle.kmip_response.specs.Values.{attribute_edit_payload_val, get_payload_val};
ghost use Rattle.kmip_client.specs.Client.{IsOfOperation};

use kmip_enums::Operation;
use kmip_response::{
    AttributeEditResponsePayload, CreateKeyPairResponsePayload, GetResponsePayload,
    QueryResponsePayload, RNGRetrieveResponsePayload, ResponsePayload, SignResponsePayload,
    UniqueIdentifierResponsePayload,
};

/// A payload that a call answers. A call is over any of them, so that its proof sees no variant.
pub trait Answered: Drop {
    /// The operations that it answers.
    ghost Answers: { TheOperation → Type 0 };

    /// Its value, as a payload's of this operation.
    ghost val: { TheOperation → Self → Val };

    /// Takes it out of the payload of its operation.
    fn of(operation: Operation, payload: ResponsePayload) -> Self
        requires answers { Answers operation }
        requires own { IsOfOperation operation (response_payload_val payload) }
        ensures { val operation result ≡ response_payload_val payload };
}

/// A payload that a call of any operation answers.
pub trait AnyPayload: Answered {
    /// Its value, which is the same as a payload's of each operation.
    ghost whole: { Self → Val };

    /// It answers each operation, and its value is the same for each. It does nothing.
    fn whole_holds()
        ensures answers { (operation : TheOperation) → Self.Answers operation }
        ensures whole { (operation : TheOperation) → (payload : Self) →
            Self.val operation payload ≡ whole payload };
}

impl AnyPayload for ResponsePayload {
    ghost whole = { response_payload_val };

    fn whole_holds() {}
}

/// The payload of any operation.
impl Answered for ResponsePayload {
    ghost Answers = { λ operation. Unit {0} };

    ghost val = { λ operation payload. response_payload_val payload };

    fn of(_operation: Operation, payload: ResponsePayload) -> ResponsePayload {
        payload
    }
}

impl Answered for CreateKeyPairResponsePayload {
    ghost Answers = { λ operation. operation ≡ TheOperation.CreateKeyPair };

    ghost val = { λ operation payload.
        Case (operation_line operation).number (create_key_pair_payload_val payload) };

    fn of(_operation: Operation, payload: ResponsePayload) -> CreateKeyPairResponsePayload {
        match payload {
            ResponsePayload::CreateKeyPair(payload) => payload,
            _ => unreachable!(),
        }
    }
}

impl Answered for GetResponsePayload {
    ghost Answers = { λ operation. operation ≡ TheOperation.Get };

    ghost val = { λ operation payload.
        Case (operation_line operation).number (get_payload_val payload) };

    fn of(_operation: Operation, payload: ResponsePayload) -> GetResponsePayload {
        match payload {
            ResponsePayload::Get(payload) => payload.into_inner(),
            _ => unreachable!(),
        }
    }
}

impl Answered for AttributeEditResponsePayload {
    ghost Answers = { λ operation. (operation ≡ TheOperation.AddAttribute) ⊎
        ((operation ≡ TheOperation.ModifyAttribute) ⊎ (operation ≡ TheOperation.DeleteAttribute)) };

    ghost val = { λ operation payload.
        Case (operation_line operation).number (attribute_edit_payload_val payload) };

    fn of(_operation: Operation, payload: ResponsePayload) -> AttributeEditResponsePayload {
        match payload {
            ResponsePayload::AddAttribute(payload) => payload,
            ResponsePayload::ModifyAttribute(payload) => payload,
            ResponsePayload::DeleteAttribute(payload) => payload,
            _ => unreachable!(),
        }
    }
}

impl Answered for UniqueIdentifierResponsePayload {
    ghost Answers = { λ operation. (operation ≡ TheOperation.Activate) ⊎
        ((operation ≡ TheOperation.Revoke) ⊎ (operation ≡ TheOperation.Destroy)) };

    ghost val = { λ operation payload.
        Case (operation_line operation).number (unique_identifier_payload_val payload) };

    fn of(_operation: Operation, payload: ResponsePayload) -> UniqueIdentifierResponsePayload {
        match payload {
            ResponsePayload::Activate(payload) => payload,
            ResponsePayload::Revoke(payload) => payload,
            ResponsePayload::Destroy(payload) => payload,
            _ => unreachable!(),
        }
    }
}

impl Answered for QueryResponsePayload {
    ghost Answers = { λ operation. operation ≡ TheOperation.Query };

    ghost val = { λ operation payload.
        Case (operation_line operation).number (query_payload_val payload) };

    fn of(_operation: Operation, payload: ResponsePayload) -> QueryResponsePayload {
        match payload {
            ResponsePayload::Query(payload) => payload.into_inner(),
            _ => unreachable!(),
        }
    }
}

impl Answered for SignResponsePayload {
    ghost Answers = { λ operation. operation ≡ TheOperation.Sign };

    ghost val = { λ operation payload.
        Case (operation_line operation).number (sign_payload_val payload) };

    fn of(_operation: Operation, payload: ResponsePayload) -> SignResponsePayload {
        match payload {
            ResponsePayload::Sign(payload) => payload,
            _ => unreachable!(),
        }
    }
}

impl Answered for RNGRetrieveResponsePayload {
    ghost Answers = { λ operation. operation ≡ TheOperation.RNGRetrieve };

    ghost val = { λ operation payload.
        Case (operation_line operation).number (rng_retrieve_payload_val payload) };

    fn of(_operation: Operation, payload: ResponsePayload) -> RNGRetrieveResponsePayload {
        match payload {
            ResponsePayload::RNGRetrieve(payload) => payload,
            _ => unreachable!(),
        }
    }
}

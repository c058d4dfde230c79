use crate::support::{children_are, has_names, is_shown, is_unread};
use kmip_enums::{
    CertificateType, CredentialType, Enumeration, LinkType, NameType, ObjectType, Operation,
    QueryFunction, ResultReason, ResultStatus, RevocationReasonCode, State,
};
use kmip_tags::tags::{OBJECT_TYPE, OPERATION};

/// The names of variants, in the order of their numbers.
const CERTIFICATE_TYPES: &str = "X509 PGP";

const LINK_TYPES: &str =
    "CertificateLink PublicKeyLink PrivateKeyLink DerivationBaseObjectLink DerivedKeyLink ReplacementObjectLink ReplacedObjectLink";

const NAME_TYPES: &str = "UninterpretedTextString URI";

const OBJECT_TYPES: &str =
    "Certificate SymmetricKey PublicKey PrivateKey SplitKey Template SecretData OpaqueObject PGPKey";

const OPERATIONS: &str =
    "Create CreateKeyPair Register Rekey DeriveKey Certify Recertify Locate Check Get GetAttributes GetAttributeList AddAttribute ModifyAttribute DeleteAttribute ObtainLease GetUsageAllocation Activate Revoke Destroy Archive Recover Validate Query Cancel Poll Notify Put RekeyKeyPair DiscoverVersions Encrypt Decrypt Sign SignatureVerify MAC MACVerify RNGRetrieve RNGSeed Hash CreateSplitKey JoinSplitKey";

const QUERY_FUNCTIONS: &str = "QueryOperations QueryObjects QueryServerInformation";

const RESULT_REASONS: &str =
    "ItemNotFound ResponseTooLarge AuthenticationNotSuccessful InvalidMessage OperationNotSupported MissingData InvalidField FeatureNotSupported OperationCanceledByRequester CryptographicFailure IllegalOperation PermissionDenied ObjectArchived IndexOutOfBounds ApplicationNamespaceNotSupported KeyFormatTypeNotSupported KeyCompressionTypeNotSupported";

const RESULT_STATUSES: &str = "Success OperationFailed OperationPending OperationUndone";

const REVOCATION_REASON_CODES: &str =
    "Unspecified KeyCompromise CACompromise AffiliationChanged Superseded CessationOfOperation PrivilegeWithdrawn";

const STATES: &str = "PreActive Active Deactivated Compromised Destroyed DestroyedCompromised";

#[test]
fn enumerations_have_the_names_of_the_table(rt: HostRuntime) {
    has_names::<CertificateType>(&rt, rt.alloc(), 1..3, CERTIFICATE_TYPES);
    has_names::<CredentialType>(&rt, rt.alloc(), 1..2, "UsernameAndPassword");
    has_names::<LinkType>(&rt, rt.alloc(), 0x101..0x108, LINK_TYPES);
    has_names::<NameType>(&rt, rt.alloc(), 1..3, NAME_TYPES);
    has_names::<ObjectType>(&rt, rt.alloc(), 1..10, OBJECT_TYPES);
    has_names::<Operation>(&rt, rt.alloc(), 1..42, OPERATIONS);
    has_names::<QueryFunction>(&rt, rt.alloc(), 1..4, QUERY_FUNCTIONS);
    has_names::<ResultReason>(&rt, rt.alloc(), 1..18, RESULT_REASONS);
    has_names::<ResultReason>(&rt, rt.alloc(), 0x100..0x101, "GeneralFailure");
    has_names::<ResultStatus>(&rt, rt.alloc(), 0..4, RESULT_STATUSES);
    has_names::<RevocationReasonCode>(&rt, rt.alloc(), 1..8, REVOCATION_REASON_CODES);
    has_names::<State>(&rt, rt.alloc(), 1..7, STATES);
}

#[test]
fn enumerations_have_the_numbers_of_the_table(rt: HostRuntime) {
    assert!(rt; ResultReason::GeneralFailure.number() == 0x100);
    assert!(rt; ResultStatus::Success.number() == 0);
    assert!(rt; LinkType::CertificateLink.number() == 0x101);
    assert!(rt; Operation::from_number(0).is_none());
}

const TWO: &str = "7C{5C e1,5C e18}";

const ONE: &str = "7C{5C e1}";

#[test]
fn reads_numbers_of_the_table_alone(rt: HostRuntime) {
    let alloc = rt.alloc();
    is_unread::<Operation>(&rt, alloc, "5C i1");
    is_unread::<Operation>(&rt, alloc, "5C e2A");
    let both = [Operation::Create, Operation::Query];
    children_are::<Operation>(&rt, alloc, TWO, OPERATION, Some(&both));
    children_are::<Operation>(&rt, alloc, ONE, OPERATION, Some(&[Operation::Create]));
    children_are::<ObjectType>(&rt, alloc, ONE, OBJECT_TYPE, Some(&[]));
    is_shown(&rt, alloc, &Operation::Create, "Create");
}

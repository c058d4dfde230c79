//! The rows of each operation's payload.

use crate::header::ProtocolVersion;
use kmip_enums::{ObjectType, QueryFunction};
use kmip_request_objects::{
    Attribute, CommonTemplateAttribute, KeyWrappingSpecification, ManagedObject,
    PrivateKeyTemplateAttribute, PublicKeyTemplateAttribute, RevocationReason, TemplateAttribute,
};
use kmip_shape::TagOpt;
use kmip_shape::record::{End, Row};
use kmip_shape::row_readers::{Many, One, Opt, OptMany};
use kmip_tags::tags::{
    ATTRIBUTE, ATTRIBUTE_INDEX, ATTRIBUTE_NAME, COMMON_TEMPLATE_ATTRIBUTE,
    COMPROMISE_OCCURRENCE_DATE, CRYPTOGRAPHIC_PARAMETERS, DATA, DATA_LENGTH, KEY_COMPRESSION_TYPE,
    KEY_FORMAT_TYPE, KEY_WRAPPING_SPECIFICATION, OBJECT_TYPE, PRIVATE_KEY_TEMPLATE_ATTRIBUTE,
    PROTOCOL_VERSION, PUBLIC_KEY_TEMPLATE_ATTRIBUTE, QUERY_FUNCTION, REVOCATION_REASON,
    TEMPLATE_ATTRIBUTE, UNIQUE_IDENTIFIER,
};
use kmip_types::{
    AttributeIndex, AttributeName, CompromiseOccurrenceDate, CryptographicParameters, Data,
    DataLength, KeyCompressionType, KeyFormatType, UniqueIdentifier,
};
use kmip_wire::Boxed;

pub(crate) type CreateRows = Row<
    One<ObjectType, OBJECT_TYPE>,
    Row<One<TemplateAttribute, TEMPLATE_ATTRIBUTE>, End>,
>;

pub(crate) type CreateKeyPairRows = Row<
    Opt<CommonTemplateAttribute, COMMON_TEMPLATE_ATTRIBUTE>,
    Row<
        Opt<PrivateKeyTemplateAttribute, PRIVATE_KEY_TEMPLATE_ATTRIBUTE>,
        Row<Opt<PublicKeyTemplateAttribute, PUBLIC_KEY_TEMPLATE_ATTRIBUTE>, End>,
    >,
>;

pub(crate) type RegisterRows = Row<
    One<ObjectType, OBJECT_TYPE>,
    Row<One<TemplateAttribute, TEMPLATE_ATTRIBUTE>, Row<TagOpt<ManagedObject>, End>>,
>;

pub(crate) type LocateRows = Row<Many<Attribute, ATTRIBUTE>, End>;

pub(crate) type GetRows = Row<
    Opt<UniqueIdentifier, UNIQUE_IDENTIFIER>,
    Row<
        Opt<KeyFormatType, KEY_FORMAT_TYPE>,
        Row<
            Opt<KeyCompressionType, KEY_COMPRESSION_TYPE>,
            Row<Opt<Boxed<KeyWrappingSpecification>, KEY_WRAPPING_SPECIFICATION>, End>,
        >,
    >,
>;

pub(crate) type GetAttributesRows = Row<
    Opt<UniqueIdentifier, UNIQUE_IDENTIFIER>,
    Row<OptMany<AttributeName, ATTRIBUTE_NAME>, End>,
>;

pub(crate) type IdentifierRows = Row<Opt<UniqueIdentifier, UNIQUE_IDENTIFIER>, End>;

pub(crate) type EditRows = Row<
    Opt<UniqueIdentifier, UNIQUE_IDENTIFIER>,
    Row<One<Attribute, ATTRIBUTE>, End>,
>;

pub(crate) type DeleteAttributeRows = Row<
    Opt<UniqueIdentifier, UNIQUE_IDENTIFIER>,
    Row<One<AttributeName, ATTRIBUTE_NAME>, Row<Opt<AttributeIndex, ATTRIBUTE_INDEX>, End>>,
>;

pub(crate) type RevokeRows = Row<
    Opt<UniqueIdentifier, UNIQUE_IDENTIFIER>,
    Row<
        One<RevocationReason, REVOCATION_REASON>,
        Row<Opt<CompromiseOccurrenceDate, COMPROMISE_OCCURRENCE_DATE>, End>,
    >,
>;

pub(crate) type QueryRows = Row<Many<QueryFunction, QUERY_FUNCTION>, End>;

pub(crate) type DiscoverVersionsRows = Row<Many<ProtocolVersion, PROTOCOL_VERSION>, End>;

pub(crate) type SignRows = Row<
    Opt<UniqueIdentifier, UNIQUE_IDENTIFIER>,
    Row<Opt<CryptographicParameters, CRYPTOGRAPHIC_PARAMETERS>, Row<One<Data, DATA>, End>>,
>;

pub(crate) type RNGRetrieveRows = Row<One<DataLength, DATA_LENGTH>, End>;

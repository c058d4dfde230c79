//! Equality of attribute values.

ghost use Rattle.std.specs.Prelude.{◌≡◌};
ghost use Rattle.kmip_types.specs.Parameters.{cryptographic_parameters_val};
ghost use Rattle.kmip_shape.specs.Enumerations.{enumeration_val};
ghost use Rattle.kmip_shape.specs.Writes.{optional};
ghost use Rattle.kmip_names.specs.Parameters.{random_iv_val, iv_length_val, tag_length_val};
ghost use Rattle.kmip_names.specs.Parameters.{fixed_field_length_val};
ghost use Rattle.kmip_names.specs.Parameters.{invocation_field_length_val, counter_length_val};
ghost use Rattle.kmip_names.specs.Parameters.{initial_counter_value_val};
ghost use Rattle.kmip_types.specs.SameValues.{same_val, same_field, same_value, same_members};

use crate::attribute_value::{AttributeValue, Values};
use crate::cryptographic_parameters::CryptographicParameters;
use kmip_names::{
    CounterLength, FixedFieldLength, IVLength, InitialCounterValue, InvocationFieldLength,
    RandomIV, TagLength,
};
use kmip_shape::Enumeration;

impl PartialEq for AttributeValue {
    ghost use Rattle.kmip_types.specs.SameValues.{same_value, same_value-per};

    ghost eq = { same_value };

    ghost laws = { same_value-per };

    fn eq(&self, other: &AttributeValue) -> bool {
        are_same(self, other)
    }
}

impl Eq for AttributeValue {
    ghost use Rattle.kmip_types.specs.SameValues.{same_value-equiv};

    ghost laws = { same_value-equiv };
}

impl PartialEq for Values {
    ghost use Rattle.kmip_types.specs.SameValues.{same_members, same_members-per};

    ghost eq = { same_members };

    ghost laws = { same_members-per };

    fn eq(&self, other: &Values) -> bool {
        are_same_members(self, other)
    }
}

impl Eq for Values {
    ghost use Rattle.kmip_types.specs.SameValues.{same_members-equiv};

    ghost laws = { same_members-equiv };
}

/// Whether two optional fields are equal: both absent, or both present with equal contents.
macro_rules! same_option {
    ($left:ident, $right:ident) => {
        match $left {
            Some($left) => match $right {
                Some($right) => $left.0 == $right.0,
                None => false,
            },
            None => match $right {
                Some(_) => false,
                None => true,
            },
        }
    };
}

/// Whether two optional variants are equal.
fn same_variants<T: Enumeration>(left: &Option<T>, right: &Option<T>) -> bool
    ensures { result ≡
        same_field (optional (enumeration_val T.line) left.now)
        (optional (enumeration_val T.line) right.now) }
{
    match left {
        Some(left) => match right {
            Some(right) => left.number() == right.number(),
            None => false,
        },
        None => match right {
            Some(_) => false,
            None => true,
        },
    }
}

/// Whether two fields `random_iv` are equal.
fn same_random_iv(left: &Option<RandomIV>, right: &Option<RandomIV>) -> bool
    ensures { result ≡ same_field (optional random_iv_val left.now)
        (optional random_iv_val right.now) }
{
    same_option!(left, right)
}

/// Whether two fields `iv_length` are equal.
fn same_iv_length(left: &Option<IVLength>, right: &Option<IVLength>) -> bool
    ensures { result ≡ same_field (optional iv_length_val left.now)
        (optional iv_length_val right.now) }
{
    same_option!(left, right)
}

/// Whether two fields `tag_length` are equal.
fn same_tag_length(left: &Option<TagLength>, right: &Option<TagLength>) -> bool
    ensures { result ≡ same_field (optional tag_length_val left.now)
        (optional tag_length_val right.now) }
{
    same_option!(left, right)
}

/// Whether two fields `fixed_field_length` are equal.
fn same_fixed_field_length(
    left: &Option<FixedFieldLength>,
    right: &Option<FixedFieldLength>,
) -> bool
    ensures { result ≡
        same_field (optional fixed_field_length_val left.now)
        (optional fixed_field_length_val right.now) }
{
    same_option!(left, right)
}

/// Whether two fields `invocation_field_length` are equal.
fn same_invocation_field_length(
    left: &Option<InvocationFieldLength>,
    right: &Option<InvocationFieldLength>,
) -> bool
    ensures { result ≡
        same_field (optional invocation_field_length_val left.now)
        (optional invocation_field_length_val right.now) }
{
    same_option!(left, right)
}

/// Whether two fields `counter_length` are equal.
fn same_counter_length(left: &Option<CounterLength>, right: &Option<CounterLength>) -> bool
    ensures { result ≡
        same_field (optional counter_length_val left.now) (optional counter_length_val right.now) }
{
    same_option!(left, right)
}

/// Whether two fields `initial_counter_value` are equal.
fn same_initial_counter_value(
    left: &Option<InitialCounterValue>,
    right: &Option<InitialCounterValue>,
) -> bool
    ensures { result ≡
        same_field (optional initial_counter_value_val left.now)
        (optional initial_counter_value_val right.now) }
{
    same_option!(left, right)
}

/// Whether the parameters are equal.
fn same_parameters(left: &CryptographicParameters, right: &CryptographicParameters) -> bool
    ensures { result ≡
        same_val (cryptographic_parameters_val left.now) (cryptographic_parameters_val right.now) }
{
    let same_1 = same_variants(&left.block_cipher_mode, &right.block_cipher_mode);
    let same_2 = same_variants(&left.padding_method, &right.padding_method);
    let same_3 = same_variants(&left.hashing_algorithm, &right.hashing_algorithm);
    let same_4 = same_variants(&left.key_role_type, &right.key_role_type);
    let same_5 = same_variants(
        &left.digital_signature_algorithm,
        &right.digital_signature_algorithm,
    );
    let same_6 = same_variants(
        &left.cryptographic_algorithm,
        &right.cryptographic_algorithm,
    );
    let same_7 = same_random_iv(&left.random_iv, &right.random_iv);
    let same_8 = same_iv_length(&left.iv_length, &right.iv_length);
    let same_9 = same_tag_length(&left.tag_length, &right.tag_length);
    let same_10 = same_fixed_field_length(&left.fixed_field_length, &right.fixed_field_length);
    let same_11 = same_invocation_field_length(
        &left.invocation_field_length,
        &right.invocation_field_length,
    );
    let same_12 = same_counter_length(&left.counter_length, &right.counter_length);
    let same_13 = same_initial_counter_value(
        &left.initial_counter_value,
        &right.initial_counter_value,
    );
    same_1
        & (same_2
            & (same_3
                & (same_4
                    & (same_5
                        & (same_6
                            & (same_7
                                & (same_8
                                    & (same_9 & (same_10 & (same_11 & (same_12 & same_13)))))))))))
}

/// Whether the values are equal.
#[cycle(same_attribute)]
fn are_same(left: &AttributeValue, right: &AttributeValue) -> bool
    ensures { result ≡ same_value left.now right.now }
{
    match (left, right) {
        (AttributeValue::Name(value, kind), AttributeValue::Name(other_value, other_kind)) => value
            == other_value
            && kind.number() == other_kind.number(),
        (AttributeValue::ObjectType(left), AttributeValue::ObjectType(right)) => left.number()
            == right.number(),
        (
            AttributeValue::CryptographicAlgorithm(left),
            AttributeValue::CryptographicAlgorithm(right),
        ) => left.number() == right.number(),
        (
            AttributeValue::CryptographicParameters(left),
            AttributeValue::CryptographicParameters(right),
        ) => same_parameters(left, right),
        (AttributeValue::State(left), AttributeValue::State(right)) => left.number()
            == right.number(),
        (AttributeValue::ObjectGroup(left), AttributeValue::ObjectGroup(right)) => left == right,
        (
            AttributeValue::Link(kind, identifier),
            AttributeValue::Link(other_kind, other_identifier),
        ) => kind.number() == other_kind.number() && identifier == other_identifier,
        (
            AttributeValue::ApplicationSpecificInformation(namespace, contents),
            AttributeValue::ApplicationSpecificInformation(other_namespace, other_contents),
        ) => namespace == other_namespace && contents == other_contents,
        (AttributeValue::ContactInformation(left), AttributeValue::ContactInformation(right)) =>
            left == right,
        (AttributeValue::Structure(left), AttributeValue::Structure(right)) => are_same_members(
            left, right,
        ),
        (AttributeValue::Integer(left), AttributeValue::Integer(right)) => left == right,
        (AttributeValue::LongInteger(left), AttributeValue::LongInteger(right)) => left == right,
        (AttributeValue::BigInteger(left), AttributeValue::BigInteger(right)) => left == right,
        (AttributeValue::Enumeration(left), AttributeValue::Enumeration(right)) => left == right,
        (AttributeValue::Boolean(left), AttributeValue::Boolean(right)) => left == right,
        (AttributeValue::TextString(left), AttributeValue::TextString(right)) => left == right,
        (AttributeValue::ByteString(left), AttributeValue::ByteString(right)) => left == right,
        (AttributeValue::DateTime(left), AttributeValue::DateTime(right)) => left == right,
        (AttributeValue::Interval(left), AttributeValue::Interval(right)) => left == right,
        _ => false,
    }
}

/// Whether the members are equal.
#[cycle(same_attribute)]
fn are_same_members(left: &Values, right: &Values) -> bool
    ensures { result ≡ same_members left.now right.now }
{
    let mut lefts = left.as_slice();
    let mut rights = right.as_slice();
    while let [first, left_tail @ ..] = lefts {
        match rights {
            [second, right_tail @ ..] => {
                if !are_same(first, second) {
                    return false;
                }
                lefts = left_tail;
                rights = right_tail;
            }
            [] => return false,
        }
    }
    match rights {
        [_, ..] => false,
        [] => true,
    }
}

use crate::support::{comes_back, comes_back_copied, is_printed, is_unread, text};
use kmip_names::{
    ApplicationData, ApplicationNamespace, AttributeIndex, AttributeName, CompromiseOccurrenceDate,
    CounterLength, CryptographicLength, Data, DataLength, FixedFieldLength, IVLength,
    InitialCounterValue, InvocationFieldLength, LinkedObjectIdentifier, NameValue, RandomIV,
    RevocationMessage, TagLength, UniqueBatchItemID, UniqueIdentifier,
};

#[test]
fn types_of_one_field_are_read_shown_and_written(rt: HostRuntime) {
    let alloc = rt.alloc();
    comes_back_copied::<ApplicationData>(&rt, alloc, r#"02 "k1""#, "\"k1\"");
    comes_back_copied::<ApplicationNamespace>(&rt, alloc, r#"03 "k1""#, "\"k1\"");
    comes_back_copied::<AttributeName>(&rt, alloc, r#"0A "k1""#, "\"k1\"");
    comes_back_copied::<LinkedObjectIdentifier>(&rt, alloc, r#"4C "k1""#, "\"k1\"");
    comes_back_copied::<NameValue>(&rt, alloc, r#"55 "k1""#, "\"k1\"");
    comes_back_copied::<RevocationMessage>(&rt, alloc, r#"80 "k1""#, "\"k1\"");
    comes_back_copied::<UniqueIdentifier>(&rt, alloc, r#"94 "k1""#, "\"k1\"");
    comes_back::<AttributeIndex>(&rt, alloc, "420009 i-5", "-5");
    comes_back::<CounterLength>(&rt, alloc, "4200D0 i-5", "-5");
    comes_back::<CryptographicLength>(&rt, alloc, "42002A i-5", "-5");
    comes_back::<DataLength>(&rt, alloc, "4200C4 i-5", "-5");
    comes_back::<FixedFieldLength>(&rt, alloc, "4200CF i-5", "-5");
    comes_back::<IVLength>(&rt, alloc, "4200CD i-5", "-5");
    comes_back::<InitialCounterValue>(&rt, alloc, "4200D1 i-5", "-5");
    comes_back::<InvocationFieldLength>(&rt, alloc, "4200D2 i-5", "-5");
    comes_back::<TagLength>(&rt, alloc, "4200CE i-5", "-5");
    comes_back::<RandomIV>(&rt, alloc, "C5 o1", "true");
    comes_back_copied::<Data>(&rt, alloc, "C2 xDEADBEEF", "x\"DEADBEEF\"");
    comes_back_copied::<UniqueBatchItemID>(&rt, alloc, "93 xDEADBEEF", "x\"DEADBEEF\"");
    comes_back::<CompromiseOccurrenceDate>(&rt, alloc, "21 d1700000000", "1700000000");
    is_unread::<UniqueIdentifier>(&rt, alloc, "94 xDEADBEEF");
}

#[test]
fn a_name_value_prints_its_text(rt: HostRuntime) {
    let name_value = NameValue(text(&rt, rt.alloc(), "disk \"1\""));
    is_printed(&rt, rt.alloc(), &name_value, "disk \"1\"");
}

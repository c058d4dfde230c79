//! Payloads and structures that PyKMIP 0.10's classes wrote, in KMIP 1.2: their items are the fields
//! of the row, in its order, of the kinds of their tags, and no field that is needed is missing.
use kmip_enums::Operation;
use kmip_rows::{
    FieldRow, Kind, Mark, Place, ResponseRow, kind_of, object_tags, operation_row, structure_row,
};
use kmip_wire::{ItemRef, Kind as Type};
use std::process::Abort;

struct Payload {
    name: &'static str,
    operation: Operation,
    is_request: bool,
    hex: &'static str,
}

const PAYLOADS: &[Payload] = &[
    Payload {
        name: "Register",
        operation: Operation::Register,
        is_request: true,
        hex: "420079010000007842005705000000040000000200000000420091010000000042008F010000005842004001000000504200420500000004000000010000000042004501000000184200430800000010303132333435363738396162636465664200280500000004000000030000000042002A02000000040000008000000000",
    },
    Payload {
        name: "Derive Key",
        operation: Operation::DeriveKey,
        is_request: true,
        hex: "420079010000008842005705000000040000000200000000420094070000000131000000000000004200940700000001320000000000000042003105000000040000000200000000420032010000002842002B010000001042003805000000040000000600000000420030080000000164000000000000004200910100000000",
    },
    Payload {
        name: "Re-key Key Pair",
        operation: Operation::RekeyKeyPair,
        is_request: true,
        hex: "420079010000001042006607000000013100000000000000",
    },
    Payload {
        name: "Locate",
        operation: Operation::Locate,
        is_request: true,
        hex: "420079010000006042004F0200000004000000020000000042008E020000000400000001000000004200AC05000000040000000100000000420008010000002842000A070000000C4F626A6563742047726F75700000000042000B07000000016700000000000000",
    },
    Payload {
        name: "Get Usage Allocation",
        operation: Operation::GetUsageAllocation,
        is_request: true,
        hex: "42007901000000204200940700000001320000000000000042009603000000080000000000000007",
    },
    Payload {
        name: "Revoke",
        operation: Operation::Revoke,
        is_request: true,
        hex: "42007901000000384200940700000001320000000000000042008101000000104200820500000004000000020000000042002109000000080000000000000006",
    },
    Payload {
        name: "Signature Verify",
        operation: Operation::SignatureVerify,
        is_request: true,
        hex: "42007901000000484200940700000001320000000000000042002B0100000010420038050000000400000006000000004200C2080000000164000000000000004200C308000000017300000000000000",
    },
    Payload {
        name: "Create Key Pair, answered",
        operation: Operation::CreateKeyPair,
        is_request: false,
        hex: "42007C01000000204200660700000001310000000000000042006F07000000013200000000000000",
    },
    Payload {
        name: "Check, answered",
        operation: Operation::Check,
        is_request: false,
        hex: "42007C0100000040420094070000000132000000000000004200960300000008000000000000000542002C020000000400000003000000004200490A000000040000000700000000",
    },
    Payload {
        name: "Get, answered",
        operation: Operation::Get,
        is_request: false,
        hex: "42007C0100000080420057050000000400000002000000004200940700000001320000000000000042008F010000005842004001000000504200420500000004000000010000000042004501000000184200430800000010303132333435363738396162636465664200280500000004000000030000000042002A02000000040000008000000000",
    },
    Payload {
        name: "Obtain Lease, answered",
        operation: Operation::ObtainLease,
        is_request: false,
        hex: "42007C0100000030420094070000000132000000000000004200490A00000004000000050000000042004809000000080000000000000006",
    },
    Payload {
        name: "Query, answered",
        operation: Operation::Query,
        is_request: false,
        hex: "42007C010000007842005C0500000004000000010000000042005C05000000040000000A000000004200570500000004000000020000000042009D07000000015600000000000000420003070000000161000000000000004200A401000000104200A5070000000158000000000000004200C705000000040000000100000000",
    },
    Payload {
        name: "Cancel, answered",
        operation: Operation::Cancel,
        is_request: false,
        hex: "42007C01000000204200060800000001630000000000000042001205000000040000000100000000",
    },
    Payload {
        name: "Encrypt, answered",
        operation: Operation::Encrypt,
        is_request: false,
        hex: "42007C0100000030420094070000000132000000000000004200C20800000004646174610000000042003D08000000026976000000000000",
    },
];

struct Structure {
    name: &'static str,
    hex: &'static str,
}

const STRUCTURES: &[Structure] = &[
    Structure {
        name: "Key Wrapping Specification",
        hex: "420047010000007042009E0500000004000000010000000042003601000000284200940700000001330000000000000042002B010000001042001105000000040000000D0000000042000A07000000044E616D650000000042000A070000000553746174650000004200A305000000040000000100000000",
    },
    Structure {
        name: "Key Wrapping Data",
        hex: "420046010000007042009E0500000004000000010000000042003601000000284200940700000001330000000000000042002B010000001042001105000000040000000D0000000042004D08000000016D0000000000000042003D080000000169000000000000004200A305000000040000000100000000",
    },
    Structure {
        name: "Cryptographic Parameters",
        hex: "42002B01000000D04200110500000004000000090000000042005F050000000400000001000000004200380500000004000000060000000042008305000000040000000B000000004200AE05000000040000000500000000420028050000000400000003000000004200C5060000000800000000000000014200CD020000000400000060000000004200CE020000000400000080000000004200CF020000000400000000000000004200D2020000000400000001000000004200D0020000000400000002000000004200D102000000040000000300000000",
    },
    Structure {
        name: "Derivation Parameters",
        hex: "420032010000005842002B01000000104200380500000004000000060000000042003A08000000016900000000000000420030080000000164000000000000004200840800000001730000000000000042003C02000000040000000500000000",
    },
    Structure {
        name: "Split Key",
        hex: "42008901000000A842008B020000000400000003000000004200440200000004000000010000000042008C0200000004000000020000000042008A050000000400000001000000004200620400000008000000000001991942004001000000504200420500000004000000010000000042004501000000184200430800000010303132333435363738396162636465664200280500000004000000030000000042002A02000000040000008000000000",
    },
    Structure {
        name: "Revocation Reason",
        hex: "42008101000000204200820500000004000000020000000042008007000000016D00000000000000",
    },
];

/// Whether items of a field stand under a tag.
fn stands(field: &FieldRow, tag: u32) -> bool {
    match field.place {
        Place::Tag(own) => own == tag,
        Place::Object => object_tags().contains(&tag),
    }
}

/// Whether a field may stand so often.
fn may_stand(mark: Mark, count: usize) -> bool {
    match mark {
        Mark::One => count == 1,
        Mark::AtMostOne => count <= 1,
        Mark::AnyNumber => true,
        Mark::AtLeastOne => count >= 1,
    }
}

/// Whether items of this type may stand under a tag of the kind.
fn is_of(kind: Kind, its: Type) -> bool {
    let wanted = match kind {
        Kind::Identifier | Kind::Text => Type::TextString,
        Kind::Handle | Kind::Bytes => Type::ByteString,
        Kind::Int | Kind::Mask => Type::Integer,
        Kind::Long => Type::LongInteger,
        Kind::Big => Type::BigInteger,
        Kind::Truth => Type::Boolean,
        Kind::Date => Type::DateTime,
        Kind::Seconds => Type::Interval,
        Kind::Name => Type::Enumeration,
        Kind::Structure => Type::Structure,
        Kind::Any => its,
    };
    its.is(wanted)
}

/// The items of a structure are these fields, in their order.
fn has_fields(rt: &impl Abort, name: &str, item: ItemRef<'_>, fields: &[FieldRow]) {
    let mut last = 0;
    for child in item.children().expect(rt, name) {
        let tag = child.tag().number();
        let at = fields.iter().position(|field| stands(field, tag));
        let at = at.expect(rt, name);
        assert!(rt; last <= at, "{name}: {tag}");
        last = at;
        let kind = kind_of(tag).expect(rt, name);
        assert!(rt; is_of(kind, child.kind()), "{name}: {tag}");
    }
    for field in fields {
        let mut count: usize = 0;
        for child in item.children().expect(rt, name) {
            if stands(field, child.tag().number()) {
                count = count.saturating_add(1);
            }
        }
        assert!(rt; may_stand(field.mark, count), "{name}: {}", field.name);
    }
}

/// The fields of a payload.
fn fields_of(rt: &impl Abort, payload: &Payload) -> &'static [FieldRow] {
    let row = operation_row(payload.operation).expect(rt, payload.name);
    if payload.is_request {
        return row.request;
    }
    match row.response {
        ResponseRow::Fields(fields) => fields,
        ResponseRow::OfTheOperation => &[],
    }
}

#[test]
fn payloads_have_the_fields_of_their_rows(rt: HostRuntime) {
    for payload in PAYLOADS {
        let bytes = hex::decode(rt.alloc(), payload.hex).expect(&rt, payload.name);
        let item = ItemRef::root(&bytes).expect(&rt, payload.name);
        has_fields(&rt, payload.name, item, fields_of(&rt, payload));
    }
}

#[test]
fn structures_have_the_fields_of_their_rows(rt: HostRuntime) {
    for structure in STRUCTURES {
        let bytes = hex::decode(rt.alloc(), structure.hex).expect(&rt, structure.name);
        let item = ItemRef::root(&bytes).expect(&rt, structure.name);
        let row = structure_row(item.tag().number()).expect(&rt, structure.name);
        has_fields(&rt, structure.name, item, row.fields);
    }
}

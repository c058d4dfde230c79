//! JSON with offsets, which were counted by hand.
ghost use Rattle.std.specs.Prelude.{◌≤◌, IfOk, length};
ghost use Rattle.kmip_encodings.specs.Sizes.{size_of};

use kmip_encodings::to_json_with_offsets;
use kmip_wire::{Tree, read_tree};
use std::alloc::Global;
use std::str;
use std::test::Fail;

/// An item as bytes in hex, where it begins, and its JSON with offsets.
struct Row {
    hex: &'static str,
    start: u64,
    json: &'static str,
}

const ROWS: &[Row] = &[
    Row {
        hex: "42002002000000040000000800000000",
        start: 4611686018427387800,
        json: r#"{"offset":4611686018427387800,"tag":"CompromiseDate","type":"Integer","value":8}"#,
    },
    // A failure.
    Row {
        hex: "42007B01000000A842007A0100000048420069010000002042006A0200000004000000010000000042006B020000000400000002000000004200920900000008000000004F9A54E742000D0200000004000000010000000042000F010000005042005C0500000004000000140000000042007F0500000004000000010000000042007E0500000004000000010000000042007D0700000017436F756C64206E6F74206C6F63617465206F626A65637400",
        start: 0,
        json: r#"{"offset":0,"tag":"ResponseMessage","value":[{"offset":8,"tag":"ResponseHeader","value":[{"offset":16,"tag":"ProtocolVersion","value":[{"offset":24,"tag":"ProtocolVersionMajor","type":"Integer","value":1},{"offset":40,"tag":"ProtocolVersionMinor","type":"Integer","value":2}]},{"offset":56,"tag":"TimeStamp","type":"DateTime","value":"2012-04-27T08:12:23+00:00"},{"offset":72,"tag":"BatchCount","type":"Integer","value":1}]},{"offset":88,"tag":"BatchItem","value":[{"offset":96,"tag":"Operation","type":"Enumeration","value":"Destroy"},{"offset":112,"tag":"ResultStatus","type":"Enumeration","value":"OperationFailed"},{"offset":128,"tag":"ResultReason","type":"Enumeration","value":"ItemNotFound"},{"offset":144,"tag":"ResultMessage","type":"TextString","value":"Could not locate object"}]}]}"#,
    },
    // An item of each type, with pads and with none.
    Row {
        hex: "42002001000000A0420020030000000801B69B4BA574920042002004000000100000000003FD35EB6BC2DF461808000042002006000000080000000000000001420020070000000B48656C6C6F20576F726C64000000000042002008000000030102030000000000420020010000000042002008000000004200200900000008000000004F9A54E74200200A00000004000D2F00000000004200200500000004000000FF00000000",
        start: 1000,
        json: r#"{"offset":1000,"tag":"CompromiseDate","value":[{"offset":1008,"tag":"CompromiseDate","type":"LongInteger","value":"0x01B69B4BA5749200"},{"offset":1024,"tag":"CompromiseDate","type":"BigInteger","value":"0x0000000003FD35EB6BC2DF4618080000"},{"offset":1048,"tag":"CompromiseDate","type":"Boolean","value":true},{"offset":1064,"tag":"CompromiseDate","type":"TextString","value":"Hello World"},{"offset":1088,"tag":"CompromiseDate","type":"ByteString","value":"010203"},{"offset":1104,"tag":"CompromiseDate","value":[]},{"offset":1112,"tag":"CompromiseDate","type":"ByteString","value":""},{"offset":1120,"tag":"CompromiseDate","type":"DateTime","value":"2012-04-27T08:12:23+00:00"},{"offset":1136,"tag":"CompromiseDate","type":"Interval","value":864000},{"offset":1152,"tag":"CompromiseDate","type":"Enumeration","value":"0x000000FF"}]}"#,
    },
];

/// The item at the front, which is no longer than the bytes.
fn front(alloc: Global, bytes: &[u8]) -> Result<Tree, Fail>
    ensures { IfOk result (λ tree. size_of tree ≤ length bytes.now) }
{
    match read_tree(alloc, bytes) {
        Ok((tree, _)) => Ok(tree),
        Err(error) => Err(Fail::from(error)),
    }
}

#[test]
fn each_item_has_its_offset(rt: HostRuntime) -> Result<(), Fail> {
    let alloc = rt.alloc();
    for row in ROWS {
        let bytes = hex::decode(alloc, row.hex)?;
        let tree = front(alloc, &bytes)?;
        assert!(rt; bytes.len() < 4096 && row.start < 1 << 62);
        let mut text = Vec::new(alloc);
        to_json_with_offsets(alloc, &tree, row.start, &mut text)?;
        assert_eq!(rt; str::from_utf8(&text), Ok(row.json));
    }
    Ok(())
}

//! Keys and a certificate: told to KMIP, and written as they came.
use crate::rows::{ROWS, Row};
use kmip_key_files::{
    Block, Material, Told, key_format, label_of, object_type, read_der, read_pem, write_der,
    write_pem,
};
use std::alloc::Global;
use std::process::Abort;

/// What is told is what the row has.
fn is_told(rt: &impl Abort, told: &Told, row: &Row) {
    assert!(rt; object_type(told.label) == row.object_type, "{}", row.name);
    assert!(rt; key_format(told.label) == row.format, "{}", row.name);
    assert!(rt;
        label_of(row.object_type, row.format) == Some(told.label),
        "{}",
        row.name
    );
    let key = told.key.map(|key| (key.algorithm, key.len, key.curve));
    assert!(rt; key == row.key, "{}", row.name);
}

fn is_read(rt: &impl Abort, alloc: Global, row: &Row) {
    let wanted = hex::decode(alloc, row.hex).expect(rt, "hex");
    let object = read_pem(alloc, row.text).expect(rt, row.name);
    is_told(rt, &object.told, row);
    assert!(rt;
        object.bytes.as_slice() == wanted.as_slice(),
        "{}",
        row.name
    );
    let told = read_der(&wanted).expect(rt, row.name);
    is_told(rt, &told, row);
}

#[test]
fn files_are_told(rt: HostRuntime) {
    for row in ROWS {
        is_read(&rt, rt.alloc(), row);
    }
}

fn is_written(rt: &impl Abort, alloc: Global, row: &Row) {
    let bytes = hex::decode(alloc, row.hex).expect(rt, "hex");
    let block = Block {
        object_type: row.object_type,
        is_wrapped: false,
        material: Material::Bytes {
            format: row.format,
            bytes: &bytes,
        },
    };
    let text = write_pem(alloc, &block).expect(rt, row.name);
    assert!(rt; text.as_slice() == row.text, "{}", row.name);
    let file = write_der(alloc, &block).expect(rt, row.name);
    assert!(rt; file.der.as_slice() == bytes.as_slice(), "{}", row.name);
    assert!(rt; object_type(file.label) == row.object_type, "{}", row.name);
}

#[test]
fn files_are_written(rt: HostRuntime) {
    for row in ROWS {
        is_written(&rt, rt.alloc(), row);
    }
}

//! The names of members.
use kmip_plain::plain_name;
use kmip_wire::Tag;
use std::rt::HostRuntime;

/// Tags (KMIP 1.0, 9.1.3.1, and the tables of later versions) with the names of their members.
const NAMES: &[(u32, &str)] = &[
    (0x420094, "unique_identifier"),
    (0x42003D, "iv_counter_nonce"),
    (0x4200C6, "mac_data"),
    (0x420040, "key_block"),
    (0x420027, "crt_coefficient"),
    (0x420060, "prime_exponent_p"),
    (0x4200B5, "x_509_certificate_identifier"),
    (0x4200FB, "pkcs_12_friendly_name"),
    (0x420072, "q_string"),
    (0x42002E, "d"),
    (0x4200C5, "random_iv"),
    (0x420001, "activation_date"),
    (0x420124, "replace_existing"),
    (0x420125, "0x420125"),
    (0x540001, "0x540001"),
    (0x540ABC, "0x540ABC"),
    (0x000000, "0x000000"),
];

#[test]
fn members_have_names(rt: HostRuntime) {
    for (number, expected) in NAMES {
        let tag = Tag::new(*number).expect(&rt, "a tag");
        let name = plain_name(rt.alloc(), tag).expect(&rt, "memory");
        assert_eq!(rt; name.as_str(), *expected);
    }
}

//! The transparent keys, each read, written, shown and copied once.
use crate::helpers::shows_what_is_written;
use kmip_keys::{
    TransparentDHPrivateKey, TransparentDHPublicKey, TransparentDSAPrivateKey,
    TransparentDSAPublicKey, TransparentRSAPrivateKey, TransparentRSAPublicKey,
    TransparentSymmetricKey,
};

#[test]
fn transparent_keys(rt: HostRuntime) {
    let alloc = rt.alloc();
    let notation = "43{3F xAA}";
    let shown = "{key=x\"AA\"}";
    shows_what_is_written::<TransparentSymmetricKey>(&rt, alloc, notation, shown);
    let notation =
        "43{5E b0000000000000017,71 b000000000000000B,37 b0000000000000004,9F b0000000000000003}";
    let shown =
        "{p=x\"0000000000000017\",q=x\"000000000000000B\",g=x\"0000000000000004\",x=x\"0000000000000003\"}";
    shows_what_is_written::<TransparentDSAPrivateKey>(&rt, alloc, notation, shown);
    let notation =
        "43{5E b0000000000000017,71 b000000000000000B,37 b0000000000000004,A0 b0000000000000012}";
    let shown =
        "{p=x\"0000000000000017\",q=x\"000000000000000B\",g=x\"0000000000000004\",y=x\"0000000000000012\"}";
    shows_what_is_written::<TransparentDSAPublicKey>(&rt, alloc, notation, shown);
    let notation = "43{52 b0000000000000021,63 b0000000000000007,6C b0000000000000003}";
    let shown =
        "{modulus=x\"0000000000000021\",private_exponent=x\"0000000000000007\",public_exponent=x\"0000000000000003\"}";
    shows_what_is_written::<TransparentRSAPrivateKey>(&rt, alloc, notation, shown);
    let notation = "43{52 b0000000000000021,6C b0000000000000003}";
    let shown = "{modulus=x\"0000000000000021\",public_exponent=x\"0000000000000003\"}";
    shows_what_is_written::<TransparentRSAPublicKey>(&rt, alloc, notation, shown);
    let notation = "43{5E b0000000000000017,37 b0000000000000005,9F b0000000000000003}";
    let shown = "{p=x\"0000000000000017\",g=x\"0000000000000005\",x=x\"0000000000000003\"}";
    shows_what_is_written::<TransparentDHPrivateKey>(&rt, alloc, notation, shown);
    let notation =
        "43{5E b0000000000000017,71 b000000000000000B,37 b0000000000000004,3E b0000000000000002,A0 b0000000000000012}";
    let shown =
        "{p=x\"0000000000000017\",q=x\"000000000000000B\",g=x\"0000000000000004\",j=x\"0000000000000002\",y=x\"0000000000000012\"}";
    shows_what_is_written::<TransparentDHPublicKey>(&rt, alloc, notation, shown);
}

//! The help text of each call.
use kmip_operation_words::{operation_calls, operation_help};
use std::rt::HostRuntime;

#[test]
fn each_call_has_a_help_text(rt: HostRuntime) {
    for row in operation_calls() {
        assert!(rt; !operation_help(row.name).is_empty(), "{}", row.name);
    }
    assert!(rt; operation_help("sign").is_empty());
}

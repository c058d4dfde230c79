//! What the program sends, records and writes for the words of each table.
use crate::answers::{DEEPEST, TOO_DEEP, answers, identified_operations, messages, operations};
use crate::errors::{errors, passwords_and_failures, records, words_out_of_grammar};
use crate::support::{Row, are_made, is_made_of};
use crate::table::{table_answers, table_refusals};
use kmip_wire::Text;
use std::alloc::Global;
use std::process::Abort;
use std::test::Fail;

#[test]
fn an_answered_call_sends_its_request_and_writes_its_answer(rt: HostRuntime) -> Result<(), Fail> {
    are_made(&rt, rt.alloc(), answers())
}

#[test]
fn a_call_of_any_operation_sends_its_payload_and_writes_the_answers(
    rt: HostRuntime,
) -> Result<(), Fail> {
    are_made(&rt, rt.alloc(), operations())
}

#[test]
fn an_answer_has_the_id_of_its_operation(rt: HostRuntime) -> Result<(), Fail> {
    are_made(&rt, rt.alloc(), identified_operations())
}

#[test]
fn a_call_of_the_table_is_answered_in_plain_json(rt: HostRuntime) -> Result<(), Fail> {
    are_made(&rt, rt.alloc(), table_answers())
}

#[test]
fn words_that_are_no_call_of_the_table_send_nothing(rt: HostRuntime) -> Result<(), Fail> {
    are_made(&rt, rt.alloc(), table_refusals())
}

#[test]
fn a_message_is_sent_as_it_is_written(rt: HostRuntime) -> Result<(), Fail> {
    are_made(&rt, rt.alloc(), messages())
}

#[test]
fn a_call_that_fails_writes_its_error(rt: HostRuntime) -> Result<(), Fail> {
    are_made(&rt, rt.alloc(), errors())
}

#[test]
fn a_call_with_a_record_is_recorded(rt: HostRuntime) -> Result<(), Fail> {
    are_made(&rt, rt.alloc(), records())
}

#[test]
fn words_out_of_the_grammar_send_nothing(rt: HostRuntime) -> Result<(), Fail> {
    are_made(&rt, rt.alloc(), words_out_of_grammar())
}

#[test]
fn passwords_and_failing_streams_have_their_effects(rt: HostRuntime) -> Result<(), Fail> {
    are_made(&rt, rt.alloc(), passwords_and_failures())
}

/// Adds a part so many times.
fn push_times(text: &mut Text, part: &str, times: u32) -> Result<(), Fail> {
    for _ in 0..times {
        text.push_str(part)?;
    }
    Ok(())
}

/// The JSON of a payload of so many levels.
fn nested(alloc: Global, levels: u32) -> Result<Text, Fail> {
    let mut json = Text::new(alloc);
    push_times(&mut json, "{\"tag\":\"RequestPayload\",\"value\":[", levels)?;
    push_times(&mut json, "]}", levels)?;
    Ok(json)
}

/// That an Encrypt of a payload of so many levels does what the row says.
fn is_made_nested(rt: &impl Abort, alloc: Global, levels: u32, row: &Row) -> Result<(), Fail> {
    let json = nested(alloc, levels)?;
    is_made_of(rt, alloc, &["operation", "Encrypt", json.as_str()], row)
}

#[test]
fn a_request_has_at_most_64_levels(rt: HostRuntime) -> Result<(), Fail> {
    // the payload is the third level of its message
    is_made_nested(&rt, rt.alloc(), 62, &DEEPEST)?;
    is_made_nested(&rt, rt.alloc(), 63, &TOO_DEEP)?;
    is_made_nested(&rt, rt.alloc(), 64, &TOO_DEEP)
}

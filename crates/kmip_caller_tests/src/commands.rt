//! Which command words are, and what the help and the grammar print.
use crate::support::commanded;
use kmip_caller::{Command, grammar_json, help_text, operations_text};
use kmip_wire::Text;
use kmip_words::{calls, push_form};
use std::alloc::Global;
use std::test::Fail;

/// What these words ask for.
fn asked(alloc: Global, words: &[&str]) -> Result<&'static str, Fail> {
    let command = commanded(alloc, words, None)?;
    let name = match &command {
        Some(Command::Help) => "help",
        Some(Command::Version) => "version",
        Some(Command::Grammar) => "grammar",
        Some(Command::Operations) => "operations",
        Some(Command::Make(_)) => "a call",
        None => "nothing",
    };
    drop(command);
    Ok(name)
}

#[test]
fn help_and_version_are_commands_only_where_they_stand_alone(rt: HostRuntime) -> Result<(), Fail> {
    let help = asked(rt.alloc(), &["--help"])?;
    let version = asked(rt.alloc(), &["--version"])?;
    let grammar = asked(rt.alloc(), &["--grammar"])?;
    let operations = asked(rt.alloc(), &["--operations"])?;
    let more = asked(rt.alloc(), &["--version", "query"])?;
    assert_eq!(rt;
        [help, version, grammar, operations, more],
        ["help", "version", "grammar", "operations", "a call"]
    );
    Ok(())
}

#[test]
fn the_help_and_the_grammar_have_all_calls(rt: HostRuntime) -> Result<(), Fail> {
    let help = help_text(rt.alloc())?;
    let grammar = grammar_json(rt.alloc())?;
    for line in help.as_str().lines() {
        assert!(rt; line.len() <= 80, "{line}");
    }
    for row in calls() {
        let mut form = Text::new(rt.alloc());
        push_form(row, &mut form)?;
        assert!(rt; help.as_str().contains(form.as_str()), "{}", row.name);
        assert!(rt; grammar.as_str().contains(form.as_str()), "{}", row.name);
    }
    assert!(rt;
        grammar.as_str().contains("{\"name\":\"hash=\",\"kind\":\"Hash\",\"is_needed\":false}")
    );
    Ok(())
}

#[test]
fn the_operations_have_their_words_and_what_they_ask_for(rt: HostRuntime) -> Result<(), Fail> {
    let text = operations_text(rt.alloc())?;
    let lines = "hash DATA hash=NAME\n    the hash of the data\n";
    assert!(rt; text.as_str().contains(lines));
    let lines = "validate ID [ID..]\n    whether these certificates are a valid chain\n";
    assert!(rt; text.as_str().contains(lines));
    let mut count = 0usize;
    for _ in text.as_str().lines() {
        count = count.saturating_add(1);
    }
    // two lines for each of the 24 calls
    assert_eq!(rt; count, 48);
    Ok(())
}

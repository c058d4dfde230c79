//! Laws over the definitions. Each function does nothing: its clause is the law.
ghost use Rattle.std.specs.Prelude.{◌≡◌, ℕ, List, Some, None, Ok, Err, IsSome};
ghost use Rattle.kmip_wire.specs.Tree.{Tree};
ghost use Rattle.kmip_wire.specs.Bytes.{HasRanges};
ghost use Rattle.kmip_client.specs.declared.error.Error.{Error as TheError};
ghost use Rattle.kmip_words.specs.JsonLines.{IsGrammarLine};
ghost use Rattle.kmip_client.specs.Operation.{TreeRequest, operation_bytes};
ghost use Rattle.kmip_client.specs.WholeMessage.{whole_bytes};
ghost use Rattle.kmip_words.specs.Exchange.{Settings as TheSettings};
ghost use Rattle.kmip_plain.specs.declared.payload.PayloadForm.{PayloadForm as TheForm};
ghost use Rattle.kmip_plain.specs.declared.payload.PayloadForm.TheVariants.{Tree as AsTree};
ghost use Rattle.kmip_operations.specs.Answers.{tree_line, outcome_line, outcome_ending};
ghost use Rattle.kmip_operations.specs.Answers.{operation_outcome, operation_json_line};
ghost use Rattle.kmip_operations.specs.Answers.{operation_ending, message_outcome};
ghost use Rattle.kmip_operations.specs.Answers.{message_json_line, message_ending};
ghost use Rattle.kmip_operations.specs.JsonLines.{answer_json, IsLineOf};

/// The line of JSON of an answer is a text of the grammar of RFC 8259 and a line feed. That of a
/// tree, whose numbers and texts are in their ranges, as those of every tree are that Rust can hold,
/// is an object with the tree's JSON in the form as its one member, `answer`; that of an error is
/// one, whatever message it shows.
pub fn lines_are_json()
    ensures tree { (form : TheForm) (tree : Tree) (first : List ℕ) → HasRanges tree →
        IsLineOf (answer_json form tree) (tree_line form (Ok tree) first) }
    ensures error { (form : TheForm) (error : TheError) (first : List ℕ) →
        IsGrammarLine (tree_line form (Err error) first) }
{
    kmip_words::lines_are_json();
    kmip_plain::payload_numbers();
}

/// Where the request of a call, or a message, has a wire form, what bytes answer to it is what a
/// client answers over a link that has these bytes to read.
pub fn responses_are_outcomes()
    ensures operation_line { (form : TheForm) (settings : TheSettings) (request : TreeRequest)
        (rest : List ℕ) → IsSome (operation_bytes request settings.credential) →
        outcome_line form (Some request) (operation_outcome settings request rest) rest ≡
        operation_json_line form settings request rest }
    ensures operation_ending { (settings : TheSettings) (request : TreeRequest) (rest : List ℕ) →
        IsSome (operation_bytes request settings.credential) →
        outcome_ending (Some request) (operation_outcome settings request rest) rest ≡
        operation_ending settings request rest }
    ensures message_line { (settings : TheSettings) (message : Tree) (rest : List ℕ) →
        IsSome (whole_bytes message) →
        outcome_line AsTree None (message_outcome settings message rest) rest ≡
        message_json_line settings rest }
    ensures message_ending { (settings : TheSettings) (message : Tree) (rest : List ℕ) →
        IsSome (whole_bytes message) →
        outcome_ending None (message_outcome settings message rest) rest ≡
        message_ending settings rest }
{}

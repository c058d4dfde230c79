//! Laws over the definitions. Each function does nothing: its clause is the law.
ghost use Rattle.std.specs.Prelude.{◌≡◌, ℕ, List, Some, IsUtf8};
ghost use Rattle.hex.specs.Hex.{IsBytes};
ghost use Rattle.kmip_request_words.specs.Values.{bytes_of, word_text};
ghost use Rattle.kmip_calls.specs.Written.{data_word, text_word};

/// The word that stands for a text is read as that text, whatever it is.
pub fn text_words()
    ensures { (text : List ℕ) → IsUtf8 text → word_text (text_word text) ≡ Some text }
{}

/// The word that stands for data is read as these bytes.
pub fn data_words()
    ensures { («data» : List ℕ) → IsBytes «data» → bytes_of (data_word «data») ≡ Some «data» }
{}

//! Words as rows of tests give them.
use kmip_calls::Word;
use std::alloc::Global;
use std::test::Fail;

/// A word in a row.
#[derive(Clone, Copy)]
pub enum Given {
    /// A text.
    Text(&'static str),
    /// Data.
    Data(&'static [u8]),
    /// Bytes that are to be a text, and are none.
    NoText(&'static [u8]),
}

/// The words that a row gives.
pub fn words_of(alloc: Global, row: &[Given]) -> Result<Vec<Word<'static>>, Fail> {
    let mut words = Vec::new(alloc);
    for given in row {
        let (bytes, is_data) = match *given {
            Given::Text(text) => (text.as_bytes(), false),
            Given::Data(bytes) => (bytes, true),
            Given::NoText(bytes) => (bytes, false),
        };
        words.push(Word { bytes, is_data })?;
    }
    Ok(words)
}

/// The texts of a line, with one space between two.
pub fn texts_in(alloc: Global, line: &'static str) -> Result<Vec<Word<'static>>, Fail> {
    let mut words = Vec::new(alloc);
    for word in line.split(' ') {
        let bytes = word.as_bytes();
        words.push(Word {
            bytes,
            is_data: false,
        })?;
    }
    Ok(words)
}

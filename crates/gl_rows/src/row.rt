use crate::notation;
use std::alloc::{AllocError, Global};

/// A row's words, of which the first is its subject.
#[derive(Drop)]
pub struct Row {
    words: Vec<Vec<u8>>,
}

impl Row {
    /// The words of a line, parted by tabs. Those of a `script` stand for themselves, since a script has escapes of its own.
    pub fn read(alloc: Global, line: &str) -> Result<Row, AllocError> {
        let line = notation::expanded(alloc, line)?;
        let is_script = line.as_str().starts_with("script\t");
        let mut words = Vec::new(alloc);
        for word in line.as_str().split('\t') {
            words.push(notation::bytes_of(alloc, word, is_script)?)?;
        }
        Ok(Row { words })
    }

    /// The bytes of a word, or none where the row is shorter.
    pub fn bytes(&self, index: usize) -> &[u8] {
        match self.words.get(index) {
            Some(word) => word.as_slice(),
            None => &[],
        }
    }

    /// The text of a word, or `?` where its bytes aren't UTF-8.
    pub fn text(&self, index: usize) -> &str {
        str::from_utf8(self.bytes(index)).unwrap_or("?")
    }

    /// The number that a word writes, or 0.
    pub fn number(&self, index: usize) -> u64 {
        notation::number(self.text(index))
    }

    /// The whole number that a word writes, or 0.
    pub fn whole(&self, index: usize) -> i64 {
        notation::whole(self.text(index))
    }

    /// How many words the row has.
    pub fn len(&self) -> usize {
        self.words.len()
    }
}

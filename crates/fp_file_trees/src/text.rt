//! The pieces of which the output is made.

use fp_term::Name;
use std::alloc::{AllocError, Global};

/// The output, at whose end each piece is put.
#[derive(Drop)]
pub struct Text {
    alloc: Global,
    bytes: Vec<u8>,
}

impl Text {
    pub fn new(alloc: Global) -> Text {
        Text {
            alloc,
            bytes: Vec::new(alloc),
        }
    }

    pub fn into_bytes(self) -> Vec<u8> {
        let Text { bytes, .. } = self;
        bytes
    }

    pub fn put(&mut self, piece: &str) -> Result<(), AllocError> {
        self.bytes.extend_from_slice(piece.as_bytes())
    }

    /// The name behind a space.
    pub fn put_name(&mut self, name: &Name) -> Result<(), AllocError> {
        self.put(" ")?;
        self.bytes.extend_from_slice(name.as_slice())
    }

    /// The number behind the sign.
    pub fn put_number(&mut self, sign: &str, number: u32) -> Result<(), AllocError> {
        let word = format!(in self.alloc; "{sign}{number}")?;
        self.put(word.as_str())
    }

    /// The place, and what closes a node.
    pub fn put_end(&mut self, at: u32) -> Result<(), AllocError> {
        self.put_number(" @", at)?;
        self.put(")")
    }
}

//! Names, and the form that they have.
ghost use Rattle.std.specs.Prelude.{◌≡◌, ◌≤◌, ◌↔◌, ◌+◌, ◌*◌, ◌%◌, true, false, IsTrue, IfOk, OnOk, OnErr, MatchResult, MatchOption, length, ◌++◌};
ghost use Rattle.std.specs.List.{list_all};
ghost use Rattle.std.specs.Str.{bytes_eq};
ghost use Rattle.fp_term.specs.Names.{is_name, is_start_byte, is_part_byte, function, truth, equality, name_hash, mixed, numbered};

use std::alloc::{AllocError, Global};
use std::marker::Model;
use std::sync::Arc;

/// A text of 1 to 160 bytes: a letter or `_`, then letters, digits, `_` and `'`. A copy shares the text.
pub struct Name {
    cell: Arc<Cell>,
}

#[derive(Drop)]
struct Cell {
    hash: u32,
    bytes: Vec<u8>,
}

impl Drop for Name {
    fn drop(self) {
        let Name { cell } = self;
        drop(cell);
    }
}

impl Model for Name {
    ghost use Rattle.std.specs.Prelude.{◌≡◌, List, ℕ, IsTrue};
    ghost use Rattle.fp_term.specs.Names.{is_name, is_start_byte, is_part_byte, function, truth, equality, name_hash};

    ghost Value = { List ℕ };

    ghost view = { λ n. n.cell.value.bytes.items };

    ghost invariant = { λ n. IsTrue (is_name n.cell.value.bytes.items) × (n.cell.value.hash ≡ name_hash n.cell.value.bytes.items) };
}

fn is_start(byte: u8) -> bool
    ensures { result ≡ is_start_byte byte }
{
    byte.is_ascii_alphabetic() || byte == b'_'
}

fn is_part(byte: u8) -> bool
    ensures { result ≡ is_part_byte byte }
{
    byte.is_ascii_alphanumeric() || byte == b'_' || byte == b'\''
}

fn all_parts(bytes: &[u8]) -> bool
    ensures { result ≡ list_all is_part_byte bytes.now }
{
    bytes.iter().all(|byte| is_part(*byte))
}

/// Have the bytes the form of a name: from 1 to 160 of them, a letter or `_`, then letters, digits, `_` and `'`?
#[tactic(auto, unfolding(crate::specs::Names::is_name))]
pub fn is_name(bytes: &[u8]) -> bool
    ensures { result ≡ is_name bytes.now }
{
    !bytes.is_empty() && bytes.len() < 161 && is_start(bytes[0]) && all_parts(bytes)
}

// The hash of a longer text, from that of the text before the byte.
fn hashed_on(hash: u32, byte: u8) -> u32
    ensures { result ≡ (hash * 131 + byte) % 4294967296 }
{
    ((u64::from(hash) * 131 + u64::from(byte)) % 4294967296) as u32
}

fn hash_of(bytes: &[u8]) -> u32
    ensures { result ≡ name_hash bytes.now }
{
    let mut hash = 1;
    for byte in bytes {
        hash = hashed_on(hash, *byte);
    }
    hash
}

/// A number in which unequal values with two parts mostly differ, by those of the parts.
pub(crate) fn mixed_hash(kind: u32, a: u32, b: u32) -> u32
    ensures { result ≡ mixed kind a b }
{
    let sum = u64::from(a) * 2654435761 + u64::from(b) * 40503 + u64::from(kind);
    (sum % 4294967296) as u32
}

impl Name {
    /// The name of these bytes, if they have its form.
    pub fn new(alloc: Global, bytes: &[u8]) -> Result<Option<Name>, AllocError>
        ensures { IfOk result (λ o. MatchOption o (is_name bytes.now ≡ false) (λ n. (n ≡ bytes.now) × (is_name bytes.now ≡ true))) }
    {
        if !is_name(bytes) {
            return Ok(None);
        }
        Ok(Some(Name::of(alloc, bytes)?))
    }

    /// The name of bytes that have its form.
    pub fn of(alloc: Global, bytes: &[u8]) -> Result<Name, AllocError>
        requires { IsTrue (is_name bytes.now) }
        ensures { IfOk result (λ n. n ≡ bytes.now) }
    {
        let bytes = Vec::from_slice(alloc, bytes)?;
        let hash = hash_of(bytes.as_slice());
        Ok(Name {
            cell: Arc::new(alloc, Cell { hash, bytes })?,
        })
    }

    pub fn as_slice(&self) -> &[u8]
        ensures value { result.now ≡ self.now }
        ensures form { is_name self.now ≡ true }
    {
        self.cell.bytes.as_slice()
    }

    pub(crate) fn hash(&self) -> u32
        ensures { result ≡ name_hash self.now }
    {
        self.cell.hash
    }

    /// An equal name.
    pub fn copy(&self) -> Result<Name, AllocError>
        ensures { IfOk result (λ n. n ≡ self.now) }
    {
        Ok(Name {
            cell: Arc::try_clone(&self.cell)?,
        })
    }

    pub fn is_equality(&self) -> bool
        ensures { result ≡ bytes_eq self.now equality }
    {
        self.cell.bytes.as_slice() == b"eq".as_slice()
    }

    pub fn is_function(&self) -> bool
        ensures { result ≡ bytes_eq self.now function }
    {
        self.cell.bytes.as_slice() == b"fun".as_slice()
    }

    pub fn is_truth(&self) -> bool
        ensures { result ≡ bytes_eq self.now truth }
    {
        self.cell.bytes.as_slice() == b"bool".as_slice()
    }

    #[tactic(auto, using(crate::proofs::Apart::names_apart))]
    pub fn equals(&self, other: &Name) -> bool
        ensures { result ≡ bytes_eq self.now other.now }
    {
        self.cell.hash == other.cell.hash
            && self.cell.bytes.as_slice() == other.cell.bytes.as_slice()
    }
}

/// The name of the type of truth values.
#[tactic(auto, unfolding(crate::specs::Names::is_name))]
pub fn truth_name(alloc: Global) -> Result<Name, AllocError>
    ensures { IfOk result (λ n. n ≡ truth) }
{
    Name::of(alloc, b"bool")
}

/// The name of equality.
#[tactic(auto, unfolding(crate::specs::Names::is_name))]
pub fn equality_name(alloc: Global) -> Result<Name, AllocError>
    ensures { IfOk result (λ n. n ≡ equality) }
{
    Name::of(alloc, b"eq")
}

/// The name of the constructor of functions.
#[tactic(auto, unfolding(crate::specs::Names::is_name))]
pub fn function_name(alloc: Global) -> Result<Name, AllocError>
    ensures { IfOk result (λ n. n ≡ function) }
{
    Name::of(alloc, b"fun")
}

// The bytes with the number's digits after them.
fn numbered_bytes(alloc: Global, stem: &[u8], number: u32) -> Result<Vec<u8>, AllocError>
    ensures { IfOk result (λ bytes. bytes.items ≡ numbered stem.now number) }
{
    let mut bytes = Vec::from_slice(alloc, stem)?;
    let digits = number.to_string(alloc)?;
    bytes.extend_from_slice(digits.as_bytes())?;
    Ok(bytes)
}

/// The stem with the number's digits after it, as `w1` and `w12`. Different numbers give different names: the lemma
/// `numbered_apart`.
pub fn numbered(alloc: Global, stem: &Name, number: u32) -> Result<Name, AllocError>
    requires { length stem.now ≤ 150 }
    ensures { IfOk result (λ n. n ≡ numbered stem.now number) }
{
    let bytes = numbered_bytes(alloc, stem.as_slice(), number)?;
    Name::of(alloc, bytes.as_slice())
}

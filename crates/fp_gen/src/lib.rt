//! Large theories made up to measure the program: files of many small recursive functions.
#![tactic(auto)]

ghost use Rattle.std.specs.Prelude.{◌≡◌, ◌++◌, ◌<◌, IfOk, OnOk};
ghost use Rattle.std.specs.String.{string_bytes};
ghost use Rattle.fp_gen.specs.Generated.{next_word, kind_of, template, filled, function, line_of, large_theory};

use std::alloc::{AllocError, Global};

// The next word of the sequence.
fn next_word(word: u64) -> u64
    ensures { result ≡ next_word word }
{
    word.wrapping_mul(6364136223846793005)
        .wrapping_add(1442695040888963407)
}

// The function that the word stands for, with `%` for its name.
fn template(word: u64) -> &'static str
    ensures { result.now ≡ template (kind_of word) }
{
    match word / 8589934592 % 4 {
        0 =>
            "fun % :: \"nat => nat => nat\" where \"% 0 y = y\" | \"% (Suc x) 0 = % x 1\" | \"% (Suc x) (Suc y) = % x (% (Suc x) y)\"",
        1 => "fun % :: \"nat => nat => nat\" where \"% (Suc x) (Suc y) = % y x\"",
        2 =>
            "fun % :: \"nat => nat\" where \"% 0 = 0\" | \"% (Suc 0) = 0\" | \"% (Suc (Suc x)) = Suc (% x)\"",
        _ =>
            "fun % :: \"nat => nat => nat\" where \"% x y = (if y = 0 then x else % y (mod x y))\"",
    }
}

// Puts the text at the end, with the name in place of each `%`.
fn push_filled(text: &mut Vec<u8>, name: &str, template: &str) -> Result<(), AllocError>
    ensures { OnOk result (text.new.items ≡ text.old.items ++ filled name.now template.now) }
{
    for byte in template.as_bytes() {
        if *byte == b'%' {
            text.extend_from_slice(name.as_bytes())?;
        } else {
            text.push(*byte)?;
        }
    }
    Ok(())
}

// Puts the line of the i-th function at the end, whose word this is.
fn push_line(alloc: Global, text: &mut Vec<u8>, word: u64, i: u32) -> Result<(), AllocError>
    ensures { OnOk result (text.new.items ≡ text.old.items ++ line_of word i) }
{
    let name = format!(in alloc; "f{i}")?;
    push_filled(text, name.as_str(), template(word))?;
    text.push(b'\n')?;
    Ok(())
}

/// The text of `n` functions `f1`, `f2` and so on, a line each: Ackermann's, one that swaps its arguments, halving, and the
/// greatest common divisor, in an order that the seed determines (the high bits of the words of a linear congruence).
pub fn large_theory(alloc: Global, n: u32, seed: u64) -> Result<Vec<u8>, AllocError>
    ensures { IfOk result (λ text. text.items ≡ large_theory n seed) }
{
    let mut text = Vec::new(alloc);
    let mut word = seed;
    let mut i = 0;
    let mut left = n;
    while left > 0 {
        left -= 1;
        i += 1;
        word = next_word(word);
        push_line(alloc, &mut text, word, i)?;
    }
    Ok(text)
}

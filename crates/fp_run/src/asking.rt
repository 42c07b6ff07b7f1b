//! The words of the program.
ghost use Rattle.std.specs.Prelude.{◌≡◌, ◌≤◌, ◌<◌, ◌∷◌, length, drop, map, codes, Some, None, true, false, IfSome, MatchOption};
ghost use Rattle.std.specs.List.{list_all};
ghost use Rattle.std.specs.String.{string_bytes};
ghost use Rattle.fp_run.specs.Words.{asked, asked_of_run, are_file_names, is_file_name};

use crate::asked::Words;

/// What the words ask for, where they are well formed: `run FILE ..` or `run --full FILE ..` with 1 to 64 files.
pub fn words(words: &[String]) -> Option<Words<'_>>
    ensures { MatchOption result (asked (map string_bytes words.now) ≡ None) (λ w. asked (map string_bytes words.now) ≡ Some (w.full, map string_bytes w.names.now)) }
{
    match words {
        [run, rest @ ..] if run.as_str() == "run" => words_of_run(rest),
        _ => None,
    }
}

// What the words after `run` ask for.
fn words_of_run(words: &[String]) -> Option<Words<'_>>
    ensures { MatchOption result (asked_of_run (map string_bytes words.now) ≡ None) (λ w. asked_of_run (map string_bytes words.now) ≡ Some (w.full, map string_bytes w.names.now)) }
{
    match words {
        [full, names @ ..] if full.as_str() == "--full" => words_of_files(true, names),
        names => words_of_files(false, names),
    }
}

// What is asked of files, where they can be called so.
fn words_of_files(full: bool, names: &[String]) -> Option<Words<'_>>
    ensures { MatchOption result (are_file_names (map string_bytes names.now) ≡ false) (λ w. (are_file_names (map string_bytes names.now) ≡ true) × (w.full ≡ full) × (w.names.now ≡ names.now)) }
{
    if !names.is_empty() && names.len() <= 64 && can_name_files(names) {
        Some(Words { full, names })
    } else {
        None
    }
}

fn can_name_files(names: &[String]) -> bool
    ensures { result ≡ list_all is_file_name (map string_bytes names.now) }
{
    match names {
        [] => true,
        [name, rest @ ..] => can_name_file(name.as_str()) && can_name_files(rest),
    }
}

fn can_name_file(name: &str) -> bool
    ensures { result ≡ is_file_name name.now }
{
    match name.as_bytes() {
        [] => false,
        [first, ..] => *first != b'-' && name.len() <= 255,
    }
}

//! Names that may be printed.

ghost use Rattle.std.specs.Prelude.{◌≡◌, ◌==◌, is_some, position};
ghost use Rattle.dw_cprint.specs.Declarations.{parts_of, word_of, words_of};
ghost use Rattle.dw_cprint.specs.Shapes.{view_name};
ghost use Rattle.dw_cprint.specs.Wrong.{is_base_name, lacks_name};

use crate::words::{Name, Text, is_one_of};

/// Whether a name is absent, or no identifier.
pub fn lacks_name(name: Name<'_>) -> bool
    ensures { result ≡ lacks_name (view_name name.entry) }
{
    match name {
        None => true,
        Some(name) => !name.is_name(),
    }
}

/// The words of which names of base types are made. This project's choice.
const TYPE_WORDS: [&str; 10] = [
    "char", "short", "int", "long", "signed", "unsigned", "float", "double", "_Bool", "_Complex",
];

/// Whether the text is one of the type words.
fn is_type_word(word: &[u8]) -> bool
    ensures { result ≡ is_some (word_of word.now) }
{
    is_one_of(word, &TYPE_WORDS)
}

/// The index of the first space, if there is one.
fn first_space(name: &[u8]) -> Option<usize>
    ensures { result ≡ position (λ byte. byte == 32) name.now }
{
    name.iter().position(|b| *b == b' ')
}

/// Whether the name is type words, at most so many, separated by one space each.
fn are_type_words(name: &[u8], most: u8) -> bool
    ensures { result ≡ is_some (words_of most (parts_of name.now)) }
{
    if most == 0 {
        return false;
    }
    match first_space(name) {
        None => is_type_word(name),
        Some(end) => is_type_word(&name[..end]) && are_type_words(&name[end + 1..], most - 1),
    }
}

/// The most bytes of 4 type words, each with a space.
const MOST_BYTES: usize = 36;

/// Whether the name is one for a base type: an identifier, or 1 to 4 type words separated by one space each.
#[tactic(auto, using(crate::proofs::NameLemmas::no_words))]
pub fn is_base_name(name: Text<'_>) -> bool
    ensures { result ≡ is_base_name name.entry.bytes.now }
{
    name.is_name() || name.bytes.len() <= MOST_BYTES && are_type_words(name.bytes, 4)
}

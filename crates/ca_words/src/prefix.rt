//! The words in front of a command, which name the file of a strength table.
ghost use Rattle.std.specs.Prelude.{◌≡◌, ◌≤◌, ◌↔◌, ℕ, List, length, map, codes, slice_index_or, IsTrue};
ghost use Rattle.std.specs.Option.{option_copied};
ghost use Rattle.std.specs.String.{string_bytes};
ghost use Rattle.ca_words.specs.Words.{table_word, command_words};
ghost use Rattle.ca_words.specs.code.Prefix.{NamesTable};

// Whether the words begin with those of a table.
fn names_table(words: &[String]) -> bool
    ensures { IsTrue result ↔ NamesTable (map string_bytes words.now) }
{
    words.len() >= 2 && words[0].as_str() == "strengths"
}

/// The name of the file of the strength table, where the words begin with it.
pub(crate) fn table_word(words: &[String]) -> Option<&str>
    ensures { option_copied result ≡ table_word (map string_bytes words.now) }
{
    if names_table(words) {
        Some(words[1].as_str())
    } else {
        None
    }
}

/// The words of the command itself.
pub(crate) fn command_words(words: &[String]) -> &[String]
    ensures { map string_bytes result.now ≡ command_words (map string_bytes words.now) }
{
    if names_table(words) {
        &words[2..]
    } else {
        words
    }
}

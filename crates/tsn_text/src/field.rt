//! A field in quotes.
ghost use Rattle.std.specs.Prelude.{◌≡◌, ◌++◌, OnOk, string_bytes};
ghost use Rattle.std.specs.List.{flat_map};
ghost use Rattle.std.specs.Str.{chars};
ghost use Rattle.tsn_text.specs.Field.{quoted_character, quoted_field};

use std::alloc::AllocError;

/// Writes a field in quotes, in which a quote stands twice. The error says that there was no memory; then a part may be written.
#[tactic(auto, unfolding(crate::specs::Field::quoted_field))]
pub fn write_quoted(text: &mut String, field: &str) -> Result<(), AllocError>
    ensures { OnOk result (string_bytes text.new ≡ string_bytes text.old ++ quoted_field field.now) }
{
    text.push('"')?;
    write_characters(text, field)?;
    text.push('"')
}

// Writes the characters within quotes.
fn write_characters(text: &mut String, field: &str) -> Result<(), AllocError>
    ensures { OnOk result (string_bytes text.new ≡ string_bytes text.old ++ flat_map quoted_character (chars field.now)) }
{
    for character in field.chars() {
        write_character(text, character)?;
    }
    Ok(())
}

// Writes a character within quotes.
fn write_character(text: &mut String, character: char) -> Result<(), AllocError>
    ensures { OnOk result (string_bytes text.new ≡ string_bytes text.old ++ quoted_character character) }
{
    if character == '"' {
        text.push_str("\"\"")
    } else {
        text.push(character)
    }
}

//! Laws of reading, of numbers and of strings, each the contract of a function that does nothing.

ghost use Rattle.std.specs.Prelude.{◌≡◌, ◌≤◌, ◌<◌, ◌⊎◌, ◌+◌, ◌^◌, ℕ, List, ◌++◌, length, decimal, Option, Some, None, Ok, Err};
ghost use Rattle.mt_rows.specs.{Rows.Columns, Changes.{Named, IsChange, indexed, changed}, Stamps.{Stamped, columns_in}};
ghost use Rattle.mt_resp.specs.{Commands.command_at, Grammar.{Bytes, IsSpelling}, Arguments.number_of, Laws.{IsExact, IsSpelled}, declared.stop.Fault.Fault, Strings.{columns_of, value_of}};
ghost use Rattle.mt_resp.specs.{Numbers.{IsNumber, signed_of, spelling, sum_of, ups, downs}, Edits.edited_of, declared.arguments.Amount.{Amount}, declared.told.Told.{Told}};
ghost use Rattle.mt_resp.specs.declared.stop.Stop.TheVariants as stops;
ghost use Rattle.mt_resp.specs.declared.asked.Edit.TheVariants as edits;
ghost use Rattle.mt_resp.specs.declared.edits.Edited.TheVariants as edited;

/// A command that was read is what a text at the front spells, and is read again from that text, whatever follows. So a stream
/// that comes in pieces is read as the whole is.
pub fn a_command_is_its_text()
    ensures { IsExact command_at }
{}

/// What spells a command is read as its words, whatever follows.
pub fn a_spelling_is_read()
    ensures { (text rest : Bytes) (words : List Bytes) → IsSpelling text words → command_at (text ++ rest) ≡ Ok (words, rest) }
{}

/// Nothing else is read: what was read stands there in a spelling.
pub fn what_is_read_is_spelled()
    ensures { (bytes rest : Bytes) (words : List Bytes) → command_at bytes ≡ Ok (words, rest) → IsSpelled bytes words rest }
{}

/// Bytes that are refused begin no command, however they go on.
pub fn what_is_refused_begins_no_command()
    ensures { (bytes more text rest : Bytes) (words : List Bytes) (fault : Fault) → command_at bytes ≡ Err (stops.Bad fault) → IsSpelling text words → bytes ++ more ≡ text ++ rest → ⊥ }
{}

/// A number among the words has one spelling, and is read from it.
pub fn a_number_has_one_spelling()
    ensures read { (most n : ℕ) → most < 2 ^ 64 → n ≤ most → number_of most (decimal n) ≡ Some n }
    ensures spelled { (most n : ℕ) (word : Bytes) → most < 2 ^ 64 → number_of most word ≡ Some n → word ≡ decimal n }
{}

/// What is set as a string is got, whatever row stood there.
pub fn what_is_set_is_got()
    ensures { (value : Bytes) (old : Columns) → value_of (changed (indexed 0 (columns_of value)) old) ≡ value }
{}

/// Columns after those of a string play no part in it.
pub fn later_columns_play_no_part()
    ensures { (value : Bytes) (more : Columns) → value_of (columns_of value ++ more) ≡ value }
{}

/// A string of at most 15,359 bytes is what a put may write, and leaves the last column of a row.
pub fn a_string_is_a_change()
    ensures { (value : Bytes) → length value ≤ 15359 → IsChange (indexed 0 (columns_of value)) × (length (columns_of value) ≤ 15) }
{}

/// A number of 64 bits has one spelling, and is read from it.
pub fn a_signed_number_has_one_spelling()
    ensures read { (number : Amount) → IsNumber number → signed_of (spelling number) ≡ Some number }
    ensures spelled { (column : Bytes) (number : Amount) → 0 < length column → signed_of column ≡ Some number → IsNumber number × (column ≡ spelling number) }
{}

/// A sum is the sum of the two numbers; there is none if that has over 64 bits.
pub fn a_sum_is_the_sum()
    ensures sum { (a b sum : Amount) → sum_of a b ≡ Some sum → ups a + ups b + downs sum ≡ downs a + downs b + ups sum }
    ensures none { (a b : Amount) → sum_of a b ≡ None → (downs a + downs b + 2 ^ 63 ≤ ups a + ups b) ⊎ (ups a + ups b + 2 ^ 63 < downs a + downs b) }
{}

/// A string that was appended to is got with the word at its end.
pub fn what_is_appended_is_got()
    ensures { (word : Bytes) (found : Option Stamped) (change : Named) (told : Told) → edited_of (edits.Append word) found ≡ edited.Put change told → value_of (changed change (columns_in found)) ≡ value_of (columns_in found) ++ word }
{}

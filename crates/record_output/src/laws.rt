//! What the definitions say in the words of the formats.
ghost use Rattle.std.specs.Prelude.{◌≡◌, ◌≤◌, ℕ, List, ◌++◌, ◌∷◌, [], length};
ghost use Rattle.text_view.specs.JsonString.{SpellsString};
ghost use Rattle.text_view.specs.QuotedField.{StandsFor};
ghost use Rattle.json_text.specs.Grammar.{Json};
ghost use Rattle.json_text.specs.Nodes.{Spells};
ghost use Rattle.json_text.specs.Compact.{compact};
ghost use Rattle.sql_value.specs.declared.value.Value.TheVariants.{Node};
ghost use Rattle.select_request.specs.declared.request.CsvOutput.{CsvOutput};
ghost use Rattle.select_request.specs.declared.request.Output.{Output};
ghost use Rattle.record_output.specs.CsvFields.{escaped_text};
ghost use Rattle.record_output.specs.JsonStrings.{spelled_text};
ghost use Rattle.record_output.specs.Values.{csv_text, json_value, tree_text};
ghost use Rattle.record_output.specs.Records.{Field, record_text};

/// A JSON value's text by its tree: in JSON its tokens without blanks between them, and in CSV the same, but for a null, which is
/// empty, and a string, which is its characters.
pub fn json_values_by_tree()
    ensures json { (bytes : List ℕ) (tree : Json) → Spells bytes tree → json_value (Node bytes) ≡ compact tree }
    ensures csv { (bytes : List ℕ) (tree : Json) → Spells bytes tree → csv_text (Node bytes) ≡ tree_text tree }
{}

/// What is written behind the first quote of a field, with the quote that closes it, stands for the field's text, as a reader of
/// quoted fields takes it.
pub fn quoted_fields_are_read()
    ensures { (csv : CsvOutput) (text : List ℕ) → StandsFor csv.quote csv.escape (escaped_text csv text ++ csv.quote ∷ []) text }
{}

/// What stands between the quotation marks of a JSON string spells its text.
pub fn json_strings_are_read()
    ensures { (text : List ℕ) → SpellsString (spelled_text text) text }
{}

/// A record of more fields is no shorter: one that is over the limit stays so.
pub fn more_fields_are_no_shorter()
    ensures { (output : Output) (fields more : List Field) → length (record_text output fields) ≤ length (record_text output (fields ++ more)) }
{}

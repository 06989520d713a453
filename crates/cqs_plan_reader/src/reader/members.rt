//! What a table has at its keys.
ghost use Rattle.std.specs.Prelude.{◌≡◌, map, string_bytes};
ghost use Rattle.std.specs.BTreeMap.{keys};
ghost use Rattle.std.specs.List.{list_all, list_any};
ghost use Rattle.std.specs.Str.{bytes_eq};
ghost use Rattle.toml.specs.Data.{get_member};
ghost use Rattle.toml.specs.View.{table_view};
ghost use Rattle.cqs_plan_reader.specs.FaultRules.{has_only};
ghost use Rattle.cqs_plan_reader.specs.Reading.{data_in};

use toml::{Table, Value};

/// The value at a key, if the table has the key.
pub fn member<'a>(table: &'a Table, key: &str) -> Option<&'a Value>
    ensures { data_in result ≡ get_member key.now (table_view table.now) }
{
    table.get(key)
}

fn is_among(key: &str, known: &[&str]) -> bool
    ensures { result ≡ list_any (λ word. bytes_eq key.now word.now) known.now }
{
    known.iter().any(|word| key == *word)
}

fn keys_are_among(known: &[&str], table: &Table) -> bool
    ensures { result ≡ list_all
        (λ key. list_any (λ word. bytes_eq (string_bytes key) word.now) known.now)
        (keys table.now) }
{
    table.keys().all(|key| is_among(key.as_str(), known))
}

/// Whether a table has no keys but these.
pub fn has_only(known: &[&str], table: &Table) -> bool
    ensures { result ≡ has_only (map (λ word. word.now) known.now) (table_view table.now) }
{
    keys_are_among(known, table)
}

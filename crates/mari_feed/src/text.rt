//! The JSON text of values, appended to a text: strings, lists, and objects member by member.

ghost use Rattle.std.specs.Prelude.{◌≡◌, ◌++◌, ◌∷◌, [], true, OnOk};
ghost use Rattle.std.specs.List.{All};
ghost use Rattle.json.specs.Print.{quoted};
ghost use Rattle.serde_json.specs.Written.{compact_text};
ghost use Rattle.mari_feed.specs.Plain.{is_plain_text};
ghost use Rattle.mari_feed.specs.Values.{list_of};

use crate::form::Printed;
use mari_units::{Memory, put};

/// Appends a string that needs no escape.
pub fn put_string(text: &mut Vec<u8>, string: &[u8]) -> Result<(), Memory>
    requires { is_plain_text string.now ≡ true }
    ensures { OnOk result (text.new.items ≡ text.old.items ++ quoted string.now) }
{
    put(text, b"\"")?;
    put(text, string)?;
    put(text, b"\"")
}

/// Appends a list.
pub fn put_list<F: Printed>(text: &mut Vec<u8>, items: &[F::Item]) -> Result<(), Memory>
    requires { All F.InItsRange items.now }
    ensures { OnOk result (text.new.items ≡ text.old.items ++ compact_text (list_of F.written items.now)) }
{
    put(text, b"[")?;
    let mut later = false;
    for item in items {
        if later {
            put(text, b",")?;
        }
        F::put(text, item)?;
        later = true;
    }
    put(text, b"]")
}

/// Appends the key of a member.
fn put_key(text: &mut Vec<u8>, key: &str) -> Result<(), Memory>
    requires { is_plain_text key.now ≡ true }
    ensures { OnOk result (text.new.items ≡ text.old.items ++ (quoted key.now ++ 58 ∷ [])) }
{
    put_string(text, key.as_bytes())?;
    put(text, b":")
}

/// Appends the beginning of an object, and its first member.
pub fn put_first<F: Printed>(text: &mut Vec<u8>, key: &str, item: &F::Item) -> Result<(), Memory>
    requires key { is_plain_text key.now ≡ true }
    requires item { F.InItsRange item.now }
    ensures { OnOk result (text.new.items ≡ text.old.items ++ 123 ∷ (quoted key.now ++ 58 ∷ compact_text (F.written item.now))) }
{
    put(text, b"{")?;
    put_key(text, key)?;
    F::put(text, item)
}

/// The same where it is a list.
pub fn put_first_list<F: Printed>(
    text: &mut Vec<u8>,
    key: &str,
    items: &[F::Item],
) -> Result<(), Memory>
    requires key { is_plain_text key.now ≡ true }
    requires items { All F.InItsRange items.now }
    ensures { OnOk result (text.new.items ≡ text.old.items ++ 123 ∷ (quoted key.now ++ 58 ∷ compact_text (list_of F.written items.now))) }
{
    put(text, b"{")?;
    put_key(text, key)?;
    put_list::<F>(text, items)
}

/// Appends a further member.
pub fn put_next<F: Printed>(text: &mut Vec<u8>, key: &str, item: &F::Item) -> Result<(), Memory>
    requires key { is_plain_text key.now ≡ true }
    requires item { F.InItsRange item.now }
    ensures { OnOk result (text.new.items ≡ text.old.items ++ 44 ∷ (quoted key.now ++ 58 ∷ compact_text (F.written item.now))) }
{
    put(text, b",")?;
    put_key(text, key)?;
    F::put(text, item)
}

/// The same where it is a list.
pub fn put_next_list<F: Printed>(
    text: &mut Vec<u8>,
    key: &str,
    items: &[F::Item],
) -> Result<(), Memory>
    requires key { is_plain_text key.now ≡ true }
    requires items { All F.InItsRange items.now }
    ensures { OnOk result (text.new.items ≡ text.old.items ++ 44 ∷ (quoted key.now ++ 58 ∷ compact_text (list_of F.written items.now))) }
{
    put(text, b",")?;
    put_key(text, key)?;
    put_list::<F>(text, items)
}

/// Appends the end of an object.
pub fn put_end(text: &mut Vec<u8>) -> Result<(), Memory>
    ensures { OnOk result (text.new.items ≡ text.old.items ++ 125 ∷ []) }
{
    put(text, b"}")
}

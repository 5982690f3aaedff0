//! Looking names up.

ghost use Rattle.std.specs.Prelude.{◌≡◌};
ghost use Rattle.std.specs.Option.{option_map};
ghost use Rattle.cilk_model.specs.Scopes.{global, function, local_named as local_found};
ghost use Rattle.std.specs.Map.{lookup};
ghost use Rattle.std.specs.Str.{bytes_eq};
ghost use Rattle.cilk_types.specs.Shown.{local_of, global_of, written_of, meaning_of, bare, global_known, file_of, scopes_of, names_of};

use crate::scopes::{FileNames, GlobalWord, Local, Meaning, Scopes};

fn local_named(scopes: &Scopes<'_, '_>, name: &[u8]) -> Option<Local>
    ensures { option_map local_of result ≡ local_found name.now (scopes_of scopes.now).around }
{
    let mut open = scopes.around.len();
    while open > 0 {
        open -= 1;
        if let Some(local) = scopes.around.at(open).get(name) {
            return Some(*local);
        }
    }
    None
}

/// The function of a name.
fn function_named<'s>(file: &'s FileNames<'_>, name: &[u8]) -> Option<Meaning<'s>>
    ensures { option_map meaning_of result ≡ option_map (λ w. function (written_of w)) (lookup (bytes_eq name.now) (bare file.now.functions.entries)) }
{
    match file.functions.get(name) {
        Some(written) => Some(Meaning::Function(written)),
        None => None,
    }
}

/// What stands in a map of what is declared before.
fn global_in(entry: &Option<GlobalWord>) -> Option<Meaning<'_>>
    ensures { option_map meaning_of result ≡ option_map (λ g. global (global_of g)) entry.now }
{
    match entry {
        Some(word) => Some(Meaning::Global(*word)),
        None => None,
    }
}

/// The global of a name that is declared before and first.
fn global_named<'s>(file: &'s FileNames<'_>, name: &[u8]) -> Option<Meaning<'s>>
    ensures { option_map meaning_of result ≡ global_known (lookup (bytes_eq name.now) (bare file.now.before.entries)) }
{
    match file.before.get(name) {
        Some(entry) => global_in(entry),
        None => None,
    }
}

/// What the file knows of a name.
fn file_meaning<'s>(file: &'s FileNames<'_>, name: &[u8]) -> Option<Meaning<'s>>
    ensures { option_map meaning_of result ≡ file_of file.now name.now }
{
    match global_named(file, name) {
        Some(global) => Some(global),
        None => function_named(file, name),
    }
}

/// What a name stands for, if it is declared.
pub fn meaning<'s>(scopes: &'s Scopes<'_, '_>, name: &[u8]) -> Option<Meaning<'s>>
    ensures { option_map meaning_of result ≡ names_of scopes.now name.now }
{
    match local_named(scopes, name) {
        Some(local) => Some(Meaning::Local(local)),
        None => file_meaning(scopes.file, name),
    }
}

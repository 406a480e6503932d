ghost use Rattle.std.specs.Prelude.{◌≡◌, ℕ, ◌∷◌, ◌++◌, ◌==◌, [], List, None, Some, IfOk, IfSome, IsTrue, OnOk};
ghost use Rattle.std.specs.Prelude.{if◌then◌else◌, nat_eq, slice_get};
ghost use Rattle.id_names.specs.FirstMatch.{first_id, first_name};
ghost use Rattle.id_names.specs.Index.{IsIndex, kept_lines, name_list};
ghost use Rattle.id_names.specs.NamesFile.{is_name};
ghost use Rattle.std.specs.HashMap.{get};
ghost use Rattle.std.specs.Map.{lookup};
ghost use Rattle.std.specs.Option.{option_copied, option_or};
ghost use Rattle.std.specs.Str.{bytes_eq};

use crate::line::Line;
use indexmap::IndexMap;
use std::alloc::{AllocError, Global};
use std::collections::HashMap;

/// A line of names, whose name is kept elsewhere.
#[derive(Clone, Copy)]
struct Row {
    /// The place of the name among the names.
    name: usize,
    /// The identifier.
    id: u32,
}

/// Lines of names, with the first line of each name and of each identifier at hand. A name is kept once.
#[derive(Drop)]
pub(crate) struct Index {
    /// The names, in the order of their first lines, each with the identifier of that line.
    names: IndexMap<Vec<u8>, u32>,
    /// The lines, in the file's order.
    rows: Vec<Row>,
    /// The place among the lines of each identifier's first line.
    first_rows: HashMap<u32, usize>,
}

impl Index {
    /// No lines.
    pub(crate) fn new(alloc: Global) -> Self
        ensures lines { kept_lines result ≡ [] }
        ensures index { IsIndex result }
    {
        Index {
            names: IndexMap::new(alloc),
            rows: Vec::new(alloc),
            first_rows: HashMap::new(alloc),
        }
    }

    /// Adds a line behind the others.
    pub(crate) fn add(&mut self, alloc: Global, line: Line<'_>) -> Result<(), AllocError>
        requires index { IsIndex self.old }
        requires name { IsTrue (is_name line.name.now) }
        ensures lines { OnOk result
            (kept_lines self.new
            ≡ kept_lines self.old ++ record { name = line.entry.name.now; id = line.entry.id } ∷ []) }
        ensures index { OnOk result (IsIndex self.new) }
    {
        let name = place_of(&mut self.names, alloc, line.name, line.id)?;
        let row = self.rows.len();
        self.rows.push(Row { name, id: line.id })?;
        note_row(&mut self.first_rows, line.id, row)?;
        Ok(())
    }

    /// The identifier of the first line with this name.
    pub(crate) fn id_of(&self, name: &[u8]) -> Option<u32>
        requires { IsIndex self.now }
        ensures { result ≡ first_id (kept_lines self.now) name.now }
    {
        self.names.get(name).copied()
    }

    /// The name of the first line with this identifier.
    pub(crate) fn name_of(&self, id: u32) -> Option<&[u8]>
        requires { IsIndex self.now }
        ensures found { option_copied result ≡ first_name (kept_lines self.now) id }
        ensures name { IfSome result (λ name. IsTrue (is_name name.now)) }
    {
        let row = self.first_rows.get(&id)?;
        let row = self.rows.get(*row)?;
        let (name, _first_id) = self.names.get_index(row.name)?;
        Some(name.as_slice())
    }
}

/// Notes the row of an identifier, where none is noted.
fn note_row(first_rows: &mut HashMap<u32, usize>, id: u32, row: usize) -> Result<(), AllocError>
    ensures { OnOk result
        ((other : ℕ) → get nat_eq first_rows.new other
        ≡ option_or (get nat_eq first_rows.old other) (if id == other then Some row else None)) }
{
    if !first_rows.contains_key(&id) {
        first_rows.insert(id, row)?;
    }
    Ok(())
}

/// The place of a name among the names; where it is a new one, it is added behind the others, with this identifier.
fn place_of(
    names: &mut IndexMap<Vec<u8>, u32>,
    alloc: Global,
    name: &[u8],
    id: u32,
) -> Result<usize, AllocError>
    ensures place { IfOk result (λ place. slice_get (name_list names.new.entries) place ≡ Some name.now) }
    ensures others { OnOk result
        ((place : ℕ) (other : List ℕ) → slice_get (name_list names.old.entries) place ≡ Some other
        → slice_get (name_list names.new.entries) place ≡ Some other) }
    ensures ids { OnOk result
        ((other : List ℕ)
        → lookup (λ key. bytes_eq other key.items) names.new.entries
        ≡ option_or (lookup (λ key. bytes_eq other key.items) names.old.entries)
        (if bytes_eq other name.now then Some id else None)) }
{
    if let Some((place, _name, _id)) = names.get_full(name) {
        return Ok(place);
    }
    let place = names.len();
    names.insert(name.to_vec(alloc)?, id)?;
    Ok(place)
}

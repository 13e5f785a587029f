//! Portable trees.
ghost use Rattle.std.specs.Prelude.{◌≡◌, ◌<◌, ◌≤◌, [], ◌∷◌, ◌++◌, length, IfOk, OnOk, OnErr, IsTrue, insert, slice_set, option_map, if◌then◌else◌};
ghost use Rattle.asm_portable.specs.Ports as spec;
ghost use Rattle.asm_portable.specs.declared.port.Field.{Field as Fields};

use asm_value::{List, Text};
use std::alloc::{AllocError, Global};
use std::cmp::Ordering;

/// A portable tree: what JSON says, with integers and without floats.
#[derive(Debug, Drop)]
#[cycle(port)]
pub enum Port {
    Null,
    Bool(bool),
    Int(i128),
    Text(Text),
    List(List<Port>),
    /// Ascending by key, without repeats.
    Fields(List<Field>),
}

/// A tree under its key.
#[derive(Debug, Drop)]
#[cycle(port)]
pub struct Field {
    pub key: Text,
    pub tree: Port,
}

impl Port {
    /// A text as a tree.
    pub fn from_text(alloc: Global, text: &str) -> Result<Port, AllocError>
        ensures { IfOk result (λ port. port ≡ spec.text text.now) }
    {
        Ok(Port::Text(Text::from_str(alloc, text)?))
    }

    /// A natural number as a tree. Takes no memory.
    pub fn from_number(number: u64) -> Port
        ensures { result ≡ spec.number number }
    {
        Port::Int(i128::from(number))
    }

    /// Its bytes where it is a text. Takes no memory.
    #[tactic(auto, using(crate::proofs::PortLaws::tree_steps))]
    pub fn as_text(&self) -> Option<&str>
        ensures { option_map (λ text. text.now) result ≡ spec.as_text self.now }
    {
        match self {
            Port::Text(text) => Some(text.as_str()),
            Port::Null | Port::Bool(_) | Port::Int(_) | Port::List(_) | Port::Fields(_) => None,
        }
    }

    /// Its fields, none where it is no object. Takes no memory.
    #[tactic(auto, using(crate::proofs::PortLaws::tree_steps))]
    pub fn fields(&self) -> &[Field]
        ensures { result.now ≡ spec.fields_of self.now }
    {
        match self {
            Port::Fields(fields) => fields.as_slice(),
            Port::Null | Port::Bool(_) | Port::Int(_) | Port::Text(_) | Port::List(_) => &[],
        }
    }

    /// Its items where it is a list. Takes no memory.
    #[tactic(auto, using(crate::proofs::PortLaws::tree_steps))]
    pub fn items(&self) -> Option<&[Port]>
        ensures { option_map (λ items. items.now) result ≡ spec.as_list self.now }
    {
        match self {
            Port::List(trees) => Some(trees.as_slice()),
            Port::Null | Port::Bool(_) | Port::Int(_) | Port::Text(_) | Port::Fields(_) => None,
        }
    }

    /// Whether it stands for undef. Takes no memory.
    #[tactic(auto, using(crate::proofs::PortLaws::tree_steps))]
    pub fn is_null(&self) -> bool
        ensures { result ≡ spec.is_null self.now }
    {
        match self {
            Port::Null => true,
            Port::Bool(_) | Port::Int(_) | Port::Text(_) | Port::List(_) | Port::Fields(_) => false,
        }
    }

    /// An equal tree.
    #[cycle(copy)]
    #[tactic(auto, using(crate::proofs::PortLaws::tree_steps))]
    pub fn copy(&self, alloc: Global) -> Result<Port, AllocError>
        ensures { IfOk result (λ port. port ≡ self.now) }
    {
        match self {
            Port::Null => Ok(Port::Null),
            Port::Bool(truth) => Ok(Port::Bool(*truth)),
            Port::Int(number) => Ok(Port::Int(*number)),
            Port::Text(text) => Ok(Port::Text(text.copy(alloc)?)),
            Port::List(trees) => Ok(Port::List(copy_trees(alloc, trees.as_slice())?)),
            Port::Fields(fields) => Ok(Port::Fields(copy_fields(alloc, fields.as_slice())?)),
        }
    }
}

#[cycle(copy)]
fn copy_trees(alloc: Global, trees: &[Port]) -> Result<List<Port>, AllocError>
    ensures { IfOk result (λ copies. copies ≡ trees.now) }
{
    let mut copies = List::new(alloc);
    for tree in trees {
        copies.push(tree.copy(alloc)?)?;
    }
    Ok(copies)
}

#[cycle(copy)]
fn copy_fields(alloc: Global, fields: &[Field]) -> Result<List<Field>, AllocError>
    ensures { IfOk result (λ copies. copies ≡ fields.now) }
{
    let mut copies = List::new(alloc);
    for field in fields {
        copies.push(Field {
            key: field.key.copy(alloc)?,
            tree: field.tree.copy(alloc)?,
        })?;
    }
    Ok(copies)
}

impl Field {
    /// A tree under a copy of the key.
    pub fn new(alloc: Global, key: &str, tree: Port) -> Result<Field, AllocError>
        ensures { IfOk result (λ field. field ≡ spec.field key.now tree) }
    {
        Ok(Field {
            key: Text::from_str(alloc, key)?,
            tree,
        })
    }
}

/// Puts a tree under a copy of the key after the fields. On an error they are as they were.
pub fn push_field(
    alloc: Global,
    fields: &mut List<Field>,
    key: &str,
    tree: Port,
) -> Result<(), AllocError>
    ensures ok { OnOk result (fields.new ≡ fields.old ++ spec.field key.now tree ∷ []) }
    ensures err { OnErr result (fields.new ≡ fields.old) }
{
    fields.push(Field::new(alloc, key, tree)?)
}

/// Where a key is, or belongs, among fields that ascend by key.
fn position_of(fields: &[Field], key: &Text) -> (usize, bool)
    ensures within { result.0 ≤ length fields.now }
    ensures there { IsTrue result.1 → result.0 < length fields.now }
    ensures at { (f : Fields) → f.key ≡ key.now → spec.put_field f fields.now
        ≡ (if result.1 then slice_set fields.now result.0 f else insert fields.now result.0 f) }
{
    for (at, field) in fields.iter().enumerate() {
        match key.cmp(&field.key) {
            Ordering::Less => return (at, false),
            Ordering::Equal => return (at, true),
            Ordering::Greater => {}
        }
    }
    (fields.len(), false)
}

/// Puts a field among fields that ascend by key, in place of one with its key.
pub fn put_field(fields: &mut Vec<Field>, field: Field) -> Result<(), AllocError>
    ensures { OnOk result (fields.new.items ≡ spec.put_field field fields.old.items) }
{
    let (at, there) = position_of(fields.as_slice(), &field.key);
    if there {
        fields[at] = field;
    } else {
        fields.insert(at, field)?;
    }
    Ok(())
}

//! What is given for one function.
ghost use Rattle.std.specs.Prelude.{◌≡◌, [], ◌∷◌, Some, slice_get, option_map, option_and_then, IfOk};
ghost use Rattle.asm_board.specs.Kinds as kinds;
ghost use Rattle.asm_board.specs.Inputs as spec;

use crate::values::{Present, update_in};
use asm_portable::Port;
use asm_program::{FunctionInfo, FunctionKind};
use asm_value::{List, Update};
use std::alloc::{AllocError, Global};

/// Whether the environment may set a function.
pub(crate) fn is_input(kind: FunctionKind) -> bool
    ensures { result ≡ kinds.is_input kind }
{
    match kind {
        FunctionKind::Monitored | FunctionKind::Shared => true,
        FunctionKind::Static
        | FunctionKind::Derived
        | FunctionKind::Controlled
        | FunctionKind::Out
        | FunctionKind::Constant => false,
    }
}

/// Whether one of the updates is of the location of another.
fn has_location(update: &Update, updates: &[Update]) -> bool
    ensures { result ≡ spec.is_set_by update.now updates.now }
{
    for other in updates {
        if update.location.compare(&other.location).is_eq() {
            return true;
        }
    }
    false
}

/// Whether some location stands there twice.
fn repeats(updates: &[Update]) -> bool
    ensures { result ≡ spec.repeats updates.now }
{
    for (at, update) in updates.iter().enumerate() {
        if has_location(update, &updates[at + 1..]) {
            return true;
        }
    }
    false
}

/// The update for which the arguments and a tree stand, where the arguments are a list.
fn pair_of(
    alloc: Global,
    present: &Present<'_>,
    function: u16,
    info: &FunctionInfo,
    args: &Port,
    tree: &Port,
) -> Result<Option<Update>, AllocError>
    ensures { IfOk result (λ update. update ≡ spec.pair_in
        present.now.content.now function info.now (Some (args.now ∷ tree.now ∷ []))) }
{
    match args.items() {
        Some(args) => update_in(alloc, present, function, info, args, tree),
        None => Ok(None),
    }
}

/// The update for which some items stand: two, the list of the arguments and the value.
fn items_in(
    alloc: Global,
    present: &Present<'_>,
    function: u16,
    info: &FunctionInfo,
    items: &[Port],
) -> Result<Option<Update>, AllocError>
    ensures { IfOk result (λ update. update ≡ spec.pair_in
        present.now.content.now function info.now (Some items.now)) }
{
    match items {
        [args, tree] => pair_of(alloc, present, function, info, args, tree),
        [] | [_] | [_, _, _, ..] => Ok(None),
    }
}

/// The update for which a pair stands: a list of two, the list of the arguments and the value.
fn pair_in(
    alloc: Global,
    present: &Present<'_>,
    function: u16,
    info: &FunctionInfo,
    pair: &Port,
) -> Result<Option<Update>, AllocError>
    ensures { IfOk result (λ update. update ≡ spec.pair_of
        present.now.content.now function info.now pair.now) }
{
    match pair.items() {
        Some(items) => items_in(alloc, present, function, info, items),
        None => Ok(None),
    }
}

/// The updates for which a list of pairs stands.
fn pairs_in(
    alloc: Global,
    present: &Present<'_>,
    function: u16,
    info: &FunctionInfo,
    pairs: &[Port],
) -> Result<Option<List<Update>>, AllocError>
    ensures { IfOk result (λ updates. updates ≡ spec.pairs_in
        present.now.content.now function info.now pairs.now) }
{
    let mut updates = List::new(alloc);
    for pair in pairs {
        match pair_in(alloc, present, function, info, pair)? {
            Some(update) => updates.push(update)?,
            None => return Ok(None),
        }
    }
    Ok(Some(updates))
}

/// The updates for which a list of pairs stands, if no location stands there twice.
fn once_each(
    alloc: Global,
    present: &Present<'_>,
    function: u16,
    info: &FunctionInfo,
    pairs: &[Port],
) -> Result<Option<List<Update>>, AllocError>
    ensures { IfOk result (λ updates. updates ≡ option_and_then spec.once_each (spec.pairs_in
        present.now.content.now function info.now pairs.now)) }
{
    match pairs_in(alloc, present, function, info, pairs)? {
        Some(updates) => {
            if repeats(updates.as_slice()) {
                return Ok(None);
            }
            Ok(Some(updates))
        }
        None => Ok(None),
    }
}

/// The updates of a function with arguments.
fn listed_in(
    alloc: Global,
    present: &Present<'_>,
    function: u16,
    info: &FunctionInfo,
    tree: &Port,
) -> Result<Option<List<Update>>, AllocError>
    ensures { IfOk result (λ updates. updates ≡ spec.listed_in
        present.now.content.now function info.now tree.now) }
{
    match tree.items() {
        Some(pairs) => once_each(alloc, present, function, info, pairs),
        None => Ok(None),
    }
}

/// The update of a function without arguments, as a list.
fn single_in(
    alloc: Global,
    present: &Present<'_>,
    function: u16,
    info: &FunctionInfo,
    tree: &Port,
) -> Result<Option<List<Update>>, AllocError>
    ensures { IfOk result (λ updates. updates ≡ option_map (λ u. u ∷ [])
        (spec.update_in present.now.content.now function info.now [] tree.now)) }
{
    match update_in(alloc, present, function, info, &[], tree)? {
        Some(update) => Ok(Some(List::only(alloc, update)?)),
        None => Ok(None),
    }
}

/// The updates of a function.
fn updates_in(
    alloc: Global,
    present: &Present<'_>,
    function: u16,
    info: &FunctionInfo,
    tree: &Port,
) -> Result<Option<List<Update>>, AllocError>
    ensures { IfOk result (λ updates. updates ≡ spec.updates_in
        present.now.content.now function info.now info.now.args tree.now) }
{
    match info.args.as_slice() {
        [] => single_in(alloc, present, function, info, tree),
        [_, ..] => listed_in(alloc, present, function, info, tree),
    }
}

/// The updates of a function, if it may be set and the tree fits.
fn input_of(
    alloc: Global,
    present: &Present<'_>,
    function: u16,
    info: &FunctionInfo,
    tree: &Port,
) -> Result<Option<List<Update>>, AllocError>
    ensures { IfOk result (λ updates. updates ≡ spec.input_in present.now.content.now function
        (Some info.now) tree.now) }
{
    if is_input(info.kind) {
        updates_in(alloc, present, function, info, tree)
    } else {
        Ok(None)
    }
}

/// The updates of a function of the content, if it may be set and the tree fits.
fn input_in(
    alloc: Global,
    present: &Present<'_>,
    function: u16,
    tree: &Port,
) -> Result<Option<List<Update>>, AllocError>
    ensures { IfOk result (λ updates. updates ≡ spec.input_in present.now.content.now function
        (slice_get present.now.content.now.program.functions function) tree.now) }
{
    let functions = present.program().functions.as_slice();
    match functions.get(usize::from(function)) {
        Some(info) => input_of(alloc, present, function, info, tree),
        None => Ok(None),
    }
}

/// The updates for which a tree stands that is given for the function of a name, which has to be a
/// monitored or a shared one.
pub(crate) fn function_in(
    alloc: Global,
    present: &Present<'_>,
    name: &str,
    tree: &Port,
) -> Result<Option<List<Update>>, AllocError>
    ensures { IfOk result (λ updates. updates
        ≡ spec.function_in present.now.content.now name.now tree.now) }
{
    match present.program().function(name) {
        Some(function) => input_in(alloc, present, function, tree),
        None => Ok(None),
    }
}

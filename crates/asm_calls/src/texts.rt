//! The definitions of a text that call one another.
ghost use Rattle.std.specs.Prelude.{◌≡◌, ◌<◌, ◌++◌, [], ◌∷◌, length, map, IfOk, OnOk};
ghost use Rattle.std.specs.HashMap.{get_by_text};
ghost use Rattle.asm_program.specs.Calls as program;
ghost use Rattle.asm_program.specs.Checks.{Checks};
ghost use Rattle.asm_items.specs.Views.{item_of};
ghost use Rattle.asm_calls.specs.Orders.{IsOrder};
ghost use Rattle.asm_calls.specs.Texts as spec;
ghost use Rattle.asm_calls.specs.TextRefusals.{IsRefusalAt};

use crate::graph::{first_recursive, order};
use asm_base::{List, Text};
use asm_items::{Item, Items, rule_items, term_items, text_of};
use asm_program::TypeRefusal;
use asm_syntax::{DefTree, ModelTree, RuleTree, TermTree, Token};
use indexmap::IndexMap;
use std::alloc::{AllocError, Global};

/// The numbers of definitions by their names: of functions, and of macro rules. Of two with one
/// name the first has it.
#[derive(Drop)]
struct Index {
    functions: IndexMap<String, usize>,
    rules: IndexMap<String, usize>,
}

/// A definition of a function or a macro rule, with what it is made of.
#[derive(Drop)]
struct Definition<'a> {
    name: &'a Token,
    is_rule: bool,
    items: Items<'a>,
}

#[tactic(auto, unfolding(asm_items::specs::Views::with_items))]
fn function_definition<'a>(
    alloc: Global,
    name: &'a Token,
    term: &'a TermTree,
) -> Result<Definition<'a>, AllocError>
    ensures { IfOk result (λ d. spec.defined_as d ≡ spec.function_of name.now term.now) }
{
    let mut items = Items::new(alloc);
    term_items(&mut items, term)?;
    Ok(Definition {
        name,
        is_rule: false,
        items,
    })
}

#[tactic(auto, unfolding(asm_items::specs::Views::with_items))]
fn rule_definition<'a>(
    alloc: Global,
    name: &'a Token,
    body: &'a RuleTree,
) -> Result<Definition<'a>, AllocError>
    ensures { IfOk result (λ d. spec.defined_as d ≡ spec.rule_of name.now body.now) }
{
    let mut items = Items::new(alloc);
    rule_items(&mut items, body)?;
    Ok(Definition {
        name,
        is_rule: true,
        items,
    })
}

fn push_definition<'a>(
    all: &mut List<Definition<'a>>,
    definition: Definition<'a>,
) -> Result<(), AllocError>
    ensures { OnOk result (spec.all_defined all.new
        ≡ spec.all_defined all.old ++ spec.defined_as definition.entry ∷ []) }
{
    all.push(definition)?;
    Ok(())
}

/// Adds a definition, where it is one of a function or a macro rule.
fn add_definition<'a>(
    alloc: Global,
    all: &mut List<Definition<'a>>,
    tree: &'a DefTree,
) -> Result<(), AllocError>
    ensures { OnOk result (spec.all_defined all.new
        ≡ spec.with_defined (spec.all_defined all.old) tree.now) }
{
    match tree {
        DefTree::Function(name, _, term, _) => {
            push_definition(all, function_definition(alloc, name, term.get())?)
        }
        DefTree::Rule(name, _, body, _) => {
            push_definition(all, rule_definition(alloc, name, body.get())?)
        }
        DefTree::Interval(_, _, _, _)
        | DefTree::Integers(_, _, _, _)
        | DefTree::Invariant(_, _, _, _, _) => Ok(()),
    }
}

/// The definitions among these trees, in text order.
#[tactic(auto, unfolding(crate::specs::Texts::defined_from))]
fn definitions_in<'a>(
    alloc: Global,
    trees: &'a [DefTree],
) -> Result<List<Definition<'a>>, AllocError>
    ensures { IfOk result (λ all. spec.all_defined all ≡ spec.defined_from [] trees.now) }
{
    let mut all = List::new(alloc);
    for tree in trees {
        add_definition(alloc, &mut all, tree)?;
    }
    Ok(all)
}

/// The definitions of a text in text order, the main rule last.
#[tactic(auto, using(crate::proofs::TextSteps::definitions_steps))]
fn definitions<'a>(alloc: Global, tree: &'a ModelTree) -> Result<List<Definition<'a>>, AllocError>
    ensures { IfOk result (λ all. spec.all_defined all ≡ program.definitions tree.now) }
{
    let mut all = definitions_in(alloc, tree.defs.as_slice())?;
    push_definition(
        &mut all,
        rule_definition(alloc, &tree.rule_name, tree.rule.get())?,
    )?;
    Ok(all)
}

fn is_of(rules: bool, is_rule: bool) -> bool
    ensures { result ≡ spec.is_of rules is_rule }
{
    if rules { is_rule } else { !is_rule }
}

/// Sets a definition's name to its number, where it is of the kind.
#[tactic(auto, using(crate::proofs::TextSteps::numbering), unfolding(crate::specs::Texts::Adds),)]
fn add_number(
    alloc: Global,
    numbers: &mut IndexMap<String, usize>,
    rules: bool,
    definition: &Definition,
    at: usize,
) -> Result<(), AllocError>
    ensures { OnOk result
        (spec.Adds rules at (spec.defined_as definition.now) numbers.old numbers.new) }
{
    if is_of(rules, definition.is_rule) {
        let name = String::from_str(alloc, text_of(definition.name))?;
        numbers.insert(name, at)?;
    }
    Ok(())
}

/// The numbers of the definitions of a kind by their names. They are added from the last to the
/// first, so that of two with one name the first has it.
fn numbers_of(
    alloc: Global,
    all: &[Definition],
    rules: bool,
) -> Result<IndexMap<String, usize>, AllocError>
    ensures { IfOk result (λ numbers. spec.Numbers rules 0 (spec.all_defined all.now) numbers) }
{
    let mut numbers = IndexMap::new(alloc);
    for past in 0..all.len() {
        let at = all.len() - 1 - past;
        add_number(alloc, &mut numbers, rules, &all[at], at)?;
    }
    Ok(numbers)
}

fn index_of(alloc: Global, all: &[Definition]) -> Result<Index, AllocError>
    ensures { IfOk result (λ index. spec.IsIndex index (spec.all_defined all.now)) }
{
    let functions = numbers_of(alloc, all, false)?;
    let rules = numbers_of(alloc, all, true)?;
    Ok(Index { functions, rules })
}

fn number_in(numbers: &IndexMap<String, usize>, name: &str) -> Option<usize>
    ensures { result ≡ get_by_text numbers.now name.now }
{
    match numbers.get(name) {
        Some(number) => Some(*number),
        None => None,
    }
}

/// The number of the definition that an item calls.
fn callee(index: &Index, item: &Item) -> Option<usize>
    ensures { result ≡ spec.callee_in index.now (item_of item.now) }
{
    match item {
        Item::NamesFunction(name) => number_in(&index.functions, text_of(name)),
        Item::NamesMacro(name) => number_in(&index.rules, text_of(name)),
        Item::Counts(_, _)
        | Item::Declares(_)
        | Item::DeclaresInvariant(_, _)
        | Item::Exceeds(_, _, _)
        | Item::Repeats(_)
        | Item::NamesDomain(_)
        | Item::NeedsIntegers(_, _)
        | Item::GivesInterval(_, _, _)
        | Item::GivesIntegers(_, _, _) => None,
    }
}

fn push_call(calls: &mut List<usize>, call: Option<usize>) -> Result<(), AllocError>
    ensures { OnOk result (calls.new ≡ spec.with_call calls.old call) }
{
    match call {
        Some(number) => calls.push(number),
        None => Ok(()),
    }
}

#[tactic(auto, unfolding(crate::specs::Texts::calls_from, crate::specs::Texts::calls_in))]
fn calls_in(alloc: Global, index: &Index, items: &[Item]) -> Result<List<usize>, AllocError>
    ensures { IfOk result (λ calls. calls ≡ spec.calls_in index.now (map item_of items.now)) }
{
    let mut calls = List::new(alloc);
    for item in items {
        push_call(&mut calls, callee(index, item))?;
    }
    Ok(calls)
}

fn calls_of(
    alloc: Global,
    index: &Index,
    definition: &Definition,
) -> Result<List<usize>, AllocError>
    ensures { IfOk result
        (λ calls. calls ≡ spec.calls_in index.now (spec.defined_as definition.now).items) }
{
    calls_in(alloc, index, definition.items.as_slice())
}

fn graph_of(
    alloc: Global,
    index: &Index,
    all: &[Definition],
) -> Result<List<List<usize>>, AllocError>
    ensures { IfOk result (λ graph. graph ≡ spec.graph_in index.now (spec.all_defined all.now)) }
{
    let mut graph = List::new(alloc);
    for one in all {
        graph.push(calls_of(alloc, index, one)?)?;
    }
    Ok(graph)
}

/// For each definition those that it calls.
#[tactic(auto, using(crate::proofs::TextSteps::graph_is))]
fn call_graph(alloc: Global, all: &[Definition]) -> Result<List<List<usize>>, AllocError>
    ensures { IfOk result (λ graph. graph ≡ program.call_graph (spec.all_defined all.now)) }
{
    let index = index_of(alloc, all)?;
    graph_of(alloc, &index, all)
}

/// The refusal of the definition with this number.
fn refusal(alloc: Global, all: &[Definition], at: usize) -> TypeRefusal
    requires { at < length all.now }
    ensures { IsRefusalAt (spec.all_defined all.now) at result }
{
    let name = all[at].name;
    match Text::from_str(alloc, text_of(name)) {
        Ok(text) => TypeRefusal::Recursive(text, name.span),
        Err(_) => TypeRefusal::NoMemory,
    }
}

/// An order of the definitions with this graph. Or the first one that reaches itself.
fn ordered(
    alloc: Global,
    all: &[Definition],
    graph: &[List<usize>],
) -> Result<List<usize>, TypeRefusal>
    requires { graph.now ≡ program.call_graph (spec.all_defined all.now) }
    ensures { Checks result (program.recursive_from graph.now 0 (spec.all_defined all.now))
        (IsOrder graph.now) }
{
    match first_recursive(alloc, graph)? {
        Some(at) => Err(refusal(alloc, all, at)),
        None => Ok(order(alloc, graph)?),
    }
}

/// An order of the definitions of a text in which each comes after those that it calls, by their
/// numbers from 0 in text order, the main rule's being the last. Or the first one that reaches
/// itself.
#[tactic(auto, using(crate::proofs::TextRefusals::of_definitions))]
pub fn calls_checked(alloc: Global, tree: &ModelTree) -> Result<List<usize>, TypeRefusal>
    ensures { Checks result (program.calls_refused tree.now)
        (IsOrder (program.call_graph (program.definitions tree.now))) }
{
    let all = definitions(alloc, tree)?;
    let graph = call_graph(alloc, all.as_slice())?;
    ordered(alloc, all.as_slice(), graph.as_slice())
}

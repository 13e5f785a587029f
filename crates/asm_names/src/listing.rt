//! The names of a text in their order.
ghost use Rattle.std.specs.Prelude.{◌≡◌, ◌≤◌, ◌∷◌, [], length, OnOk, IfOk};
ghost use Rattle.asm_program.specs.Signatures.{named_as, names_of};
ghost use Rattle.asm_names.specs.Numbers.{AreFew, IsSmall, with_names, names_in};
ghost use Rattle.asm_names.specs.Numbers.{literals_named, decls_named, macro_in, macros_named, macros_after};
ghost use Rattle.asm_names.specs.Numbers as numbers;

use asm_base::{List, Text};
use asm_items::text_of;
use asm_program::Named;
use asm_syntax::{DeclTree, DefTree, ModelTree, Token};
use std::alloc::{AllocError, Global};

/// Names in text order, of which the last may still come.
pub(crate) type Listing = List<(Text, Named)>;

#[tactic(auto, using(crate::proofs::NameSteps::pushed_as))]
fn add(alloc: Global, names: &mut Listing, name: &Token, named: Named) -> Result<(), AllocError>
    ensures { OnOk result (names.new ≡ with_names names.old (named_as name.now named ∷ [])) }
{
    names.push((Text::from_str(alloc, text_of(name))?, named))?;
    Ok(())
}

#[tactic(auto, using(crate::proofs::NameSteps::literals_steps))]
fn add_literals(
    alloc: Global,
    names: &mut Listing,
    domain: u16,
    first: &Token,
    others: &[Token],
) -> Result<(), AllocError>
    requires { length others.now ≤ 255 }
    ensures { OnOk result
        (names.new ≡ with_names names.old
        (literals_named domain 0 (first.now ∷ others.now))) }
{
    add(alloc, names, first, Named::Literal { domain, index: 0 })?;
    for (at, name) in others.iter().enumerate() {
        let index = at as u16 + 1;
        add(alloc, names, name, Named::Literal { domain, index })?;
    }
    Ok(())
}

/// The names of a declaration, where these are the numbers of the next domain and function.
#[tactic(auto, using(crate::proofs::NameSteps::decl_steps))]
fn add_decl(
    alloc: Global,
    names: &mut Listing,
    domain: u16,
    function: u16,
    decl: &DeclTree,
) -> Result<(), AllocError>
    requires { IsSmall decl.now }
    ensures { OnOk result
        (names.new ≡ with_names names.old (names_in domain function decl.now)) }
{
    match decl {
        DeclTree::Enum(name, first, others, _) => {
            add(alloc, names, name, Named::Enum(domain))?;
            add_literals(alloc, names, domain, first, others.as_slice())
        }
        DeclTree::Abstract(name, _) => add(alloc, names, name, Named::Abstract(domain)),
        DeclTree::Subset(name, _, _) => add(alloc, names, name, Named::Subset(domain)),
        DeclTree::Defined(_, name, _, _, _) | DeclTree::Dynamic(_, name, _, _, _) => {
            add(alloc, names, name, Named::Function(function))
        }
    }
}

/// Whether a domain is declared, and not a function.
pub(crate) fn is_domain(decl: &DeclTree) -> bool
    ensures { result ≡ numbers.is_domain decl.now }
{
    match decl {
        DeclTree::Enum(_, _, _, _) | DeclTree::Abstract(_, _) | DeclTree::Subset(_, _, _) => true,
        DeclTree::Defined(_, _, _, _, _) | DeclTree::Dynamic(_, _, _, _, _) => false,
    }
}

/// The number of the next domain after a declaration.
pub(crate) fn domain_after(domain: u16, decl: &DeclTree) -> u16
    requires { domain ≤ 256 }
    ensures { result ≡ numbers.domain_after domain decl.now }
{
    if is_domain(decl) { domain + 1 } else { domain }
}

/// The number of the next function after a declaration.
fn function_after(function: u16, decl: &DeclTree) -> u16
    requires { function ≤ 256 }
    ensures { result ≡ numbers.function_after function decl.now }
{
    if is_domain(decl) {
        function
    } else {
        function + 1
    }
}

/// The number of the next macro rule after a definition.
fn macro_after(number: u16, def: &DefTree) -> u16
    requires { number ≤ 256 }
    ensures { result ≡ numbers.macro_after number def.now }
{
    if is_macro(def) { number + 1 } else { number }
}

#[tactic(auto, using(crate::proofs::NameSteps::decls_steps))]
fn add_decls(alloc: Global, names: &mut Listing, decls: &[DeclTree]) -> Result<(), AllocError>
    requires { AreFew 0 0 decls.now }
    ensures { OnOk result (names.new ≡ with_names names.old (decls_named 0 0 decls.now)) }
{
    let mut domain = 0u16;
    let mut function = 0u16;
    for decl in decls {
        add_decl(alloc, names, domain, function, decl)?;
        domain = domain_after(domain, decl);
        function = function_after(function, decl);
    }
    Ok(())
}

#[tactic(auto, using(crate::proofs::NameSteps::macros_steps))]
fn add_macros(alloc: Global, names: &mut Listing, defs: &[DefTree]) -> Result<(), AllocError>
    requires { macros_after 0 defs.now ≤ 256 }
    ensures { OnOk result (names.new ≡ with_names names.old (macros_named 0 defs.now)) }
{
    let mut number = 0u16;
    for def in defs {
        add_macro(alloc, names, number, def)?;
        number = macro_after(number, def);
    }
    Ok(())
}

/// The name of a macro rule, where this is the number of the next one.
#[tactic(auto, using(crate::proofs::NameSteps::macro_steps))]
fn add_macro(
    alloc: Global,
    names: &mut Listing,
    number: u16,
    def: &DefTree,
) -> Result<(), AllocError>
    ensures { OnOk result (names.new ≡ with_names names.old (macro_in number def.now)) }
{
    match def {
        DefTree::Rule(name, _, _, _) => add(alloc, names, name, Named::Macro(number)),
        DefTree::Interval(_, _, _, _)
        | DefTree::Integers(_, _, _, _)
        | DefTree::Function(_, _, _, _)
        | DefTree::Invariant(_, _, _, _, _) => Ok(()),
    }
}

/// Whether a definition is of a macro rule.
fn is_macro(def: &DefTree) -> bool
    ensures { result ≡ numbers.is_macro def.now }
{
    match def {
        DefTree::Rule(_, _, _, _) => true,
        DefTree::Interval(_, _, _, _)
        | DefTree::Integers(_, _, _, _)
        | DefTree::Function(_, _, _, _)
        | DefTree::Invariant(_, _, _, _, _) => false,
    }
}

/// The names of a text.
#[tactic(auto, using(crate::proofs::NameSteps::names_steps))]
pub(crate) fn names_of(alloc: Global, tree: &ModelTree) -> Result<Listing, AllocError>
    requires few { AreFew 0 0 tree.now.decls }
    requires few_macros { macros_after 0 tree.now.defs ≤ 256 }
    ensures { IfOk result (λ names. names ≡ names_of tree.now) }
{
    let mut names = List::new(alloc);
    add_decls(alloc, &mut names, tree.decls.as_slice())?;
    add_macros(alloc, &mut names, tree.defs.as_slice())?;
    add(alloc, &mut names, &tree.rule_name, Named::Main)?;
    Ok(names)
}

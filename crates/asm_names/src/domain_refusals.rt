//! The second pass over a text: each domain that is named is declared, and each declared subset has
//! its integers.
ghost use Rattle.std.specs.Prelude.{◌≡◌, ◌∷◌, ◌++◌, [], ◌<ℤ◌, map, IfOk, OnOk};
ghost use Rattle.asm_items.specs.Views.{item_of};
ghost use Rattle.asm_program.specs.Signatures.{find};
ghost use Rattle.asm_names.specs.Passes.{given_with, subset_refused, domain_refused_at, done_after};
ghost use Rattle.asm_names.specs.Alike.{Alike};
ghost use Rattle.asm_syntax.specs.Marks.{text_of};
ghost use Rattle.asm_program.specs.Checks.{Checks};
ghost use Rattle.asm_program.specs.DomainsPass as pass;

use crate::integers::{IntSet, MAX_MEMBERS, int_of, interval_size};
use crate::refusals::{duplicate, missing, unknown};
use asm_items::{Item, Items, NameSet, text_of};
use asm_program::{Limited, Named, TypeRefusal};
use asm_scope::Names;
use asm_syntax::{DeclTree, IntTree, Span, Token};
use std::alloc::{AllocError, Global};

// ---- integers

/// Whether the declared subset is one of Natural. Takes no memory.
fn of_natural(decls: &[DeclTree], name: &str) -> bool
    ensures { result ≡ pass.of_natural decls.now name.now }
{
    for decl in decls {
        match decl {
            DeclTree::Subset(subset, base, _) => {
                if text_of(subset) == name {
                    return base.as_str() == "Natural";
                }
            }
            DeclTree::Enum(_, _, _, _)
            | DeclTree::Abstract(_, _)
            | DeclTree::Defined(_, _, _, _, _)
            | DeclTree::Dynamic(_, _, _, _, _) => {}
        }
    }
    false
}

/// A written integer. Want of memory is told for one that no text spells.
fn number_of(tree: &IntTree) -> Result<i128, TypeRefusal>
    ensures { Checks result [] (λ n. (n ≡ pass.int_of tree.now) × (i128.MIN <ℤ n)) }
{
    match int_of(tree) {
        Some(number) => Ok(number),
        None => Err(TypeRefusal::NoMemory),
    }
}

/// A negative integer isn't in a subset of Natural.
fn in_base(natural: bool, tree: &IntTree) -> Result<i128, TypeRefusal>
    ensures { Checks result (pass.mismatched natural tree.now)
        (λ n. (n ≡ pass.int_of tree.now) × (i128.MIN <ℤ n)) }
{
    let number = number_of(tree)?;
    if natural && number < 0 {
        Err(TypeRefusal::Mismatch(tree.span))
    } else {
        Ok(number)
    }
}

/// As many integers as a subset may have.
fn few_members(size: u128, last: &IntTree) -> Result<(), TypeRefusal>
    ensures { Checks result (pass.too_many size last.now) (λ _. Unit {0}) }
{
    if size > MAX_MEMBERS {
        Err(TypeRefusal::Limit(Limited::Members, size, last.span))
    } else {
        Ok(())
    }
}

fn interval_checked(natural: bool, from: &IntTree, to: &IntTree) -> Result<(), TypeRefusal>
    ensures { Checks result (pass.interval_refused natural from.now to.now) (λ _. Unit {0}) }
{
    let first = in_base(natural, from)?;
    let size = interval_size(first, number_of(to)?);
    few_members(size, to)?;
    in_base(natural, to)?;
    Ok(())
}

/// One more integer of a subset after these different ones.
fn integer_checked(natural: bool, seen: &mut IntSet, tree: &IntTree) -> Result<(), TypeRefusal>
    ensures { Checks result
        (pass.one_more seen.old tree.now ++ pass.mismatched natural tree.now)
        (λ _. seen.new ≡ pass.with_int seen.old (pass.int_of tree.now)) }
{
    add_integer(seen, tree)?;
    in_base(natural, tree)?;
    Ok(())
}

/// One more integer, if a subset may have so many.
fn add_integer(seen: &mut IntSet, tree: &IntTree) -> Result<(), TypeRefusal>
    ensures { Checks result (pass.one_more seen.old tree.now)
        (λ _. seen.new ≡ pass.with_int seen.old (pass.int_of tree.now)) }
{
    let number = number_of(tree)?;
    let count = seen.len();
    let new = seen.insert(number)?;
    if new && count == 4096 {
        Err(TypeRefusal::Limit(Limited::Members, 4097, tree.span))
    } else {
        Ok(())
    }
}

fn integers_checked(
    alloc: Global,
    natural: bool,
    first: &IntTree,
    others: &[IntTree],
) -> Result<(), TypeRefusal>
    ensures { Checks result (pass.integers_refused natural [] (first.now ∷ others.now))
        (λ _. Unit {0}) }
{
    let mut seen = IntSet::new(alloc);
    integer_checked(natural, &mut seen, first)?;
    more_integers_checked(natural, &mut seen, others)
}

#[tactic(auto, using(crate::proofs::Passes::integers_steps))]
fn more_integers_checked(
    natural: bool,
    seen: &mut IntSet,
    trees: &[IntTree],
) -> Result<(), TypeRefusal>
    ensures { Checks result (pass.integers_refused natural seen.old trees.now) (λ _. Unit {0}) }
{
    for tree in trees {
        match integer_checked(natural, seen, tree) {
            Ok(()) => {}
            Err(refusal) => return Err(refusal),
        }
    }
    Ok(())
}

// ---- the pass

/// The subsets that have integers given.
fn given_names(alloc: Global, items: &[Item]) -> Result<NameSet, AllocError>
    ensures { IfOk result (λ names. Alike names (pass.given (map item_of items.now))) }
{
    let mut names = NameSet::new(alloc);
    for item in items {
        match add_given(&mut names, item) {
            Ok(()) => {}
            Err(fault) => return Err(fault),
        }
    }
    Ok(names)
}

/// The subset that an item gives its integers.
fn add_given(names: &mut NameSet, item: &Item) -> Result<(), AllocError>
    ensures { OnOk result (names.new ≡ given_with names.old (item_of item.now)) }
{
    match item {
        Item::GivesInterval(name, _, _) | Item::GivesIntegers(name, _, _) => {
            let _new = names.insert(text_of(name))?;
            Ok(())
        }
        Item::Counts(_, _)
        | Item::Declares(_)
        | Item::DeclaresInvariant(_, _)
        | Item::Exceeds(_, _, _)
        | Item::Repeats(_)
        | Item::NamesDomain(_)
        | Item::NeedsIntegers(_, _)
        | Item::NamesFunction(_)
        | Item::NamesMacro(_) => Ok(()),
    }
}

/// What the pass looks names up in.
#[derive(Drop)]
struct Known<'a> {
    alloc: Global,
    decls: &'a [DeclTree],
    names: &'a Names,
    given: &'a NameSet,
}

impl<'a> Known<'a> {
    /// A name of a domain is declared as one.
    fn domain_known(&self, name: &Token) -> Result<(), TypeRefusal>
        ensures { Checks result (pass.unknown_domain [] self.now.names.now [] name.now)
            (λ _. Unit {0}) }
    {
        match self.names.find(text_of(name)) {
            Some(Named::Enum(_)) | Some(Named::Abstract(_)) | Some(Named::Subset(_)) => Ok(()),
            Some(Named::Literal { .. })
            | Some(Named::Function(_))
            | Some(Named::Macro(_))
            | Some(Named::Main)
            | None => Err(unknown(self.alloc, name)),
        }
    }

    /// A subset has integers given.
    fn has_integers(&self, name: &Token, span: Span) -> Result<(), TypeRefusal>
        ensures { Checks result (pass.missing [] [] self.now.given.now name.now span)
            (λ _. Unit {0}) }
    {
        if self.given.contains(text_of(name)) {
            Ok(())
        } else {
            Err(missing(self.alloc, name, span))
        }
    }

    /// Integers are given once, and of a declared subset: whether it is one of Natural.
    #[tactic(auto, using(crate::proofs::SetSteps::subset_steps))]
    fn subset_known(&self, done: &mut NameSet, name: &Token) -> Result<bool, TypeRefusal>
        ensures { Checks result
            (subset_refused self.now.decls.now self.now.names.now done.old name.now)
            (λ natural. (natural ≡ pass.of_natural self.now.decls.now (text_of name.now))
            × (done.new ≡ text_of name.now ∷ done.old)) }
    {
        if !done.insert(text_of(name))? {
            return Err(duplicate(self.alloc, text_of(name), name.span));
        }
        match self.names.find(text_of(name)) {
            Some(Named::Subset(_)) => Ok(of_natural(self.decls, text_of(name))),
            Some(Named::Enum(_))
            | Some(Named::Abstract(_))
            | Some(Named::Literal { .. })
            | Some(Named::Function(_))
            | Some(Named::Macro(_))
            | Some(Named::Main)
            | None => Err(unknown(self.alloc, name)),
        }
    }

    /// An item, where these subsets have their integers already.
    fn look(&self, done: &mut NameSet, item: &Item) -> Result<(), TypeRefusal>
        ensures { Checks result
            (domain_refused_at self.now.decls.now self.now.names.now self.now.given.now done.old
            (item_of item.now))
            (λ _. done.new ≡ done_after done.old (item_of item.now)) }
    {
        match item {
            Item::NamesDomain(name) => self.domain_known(name),
            Item::NeedsIntegers(name, span) => self.has_integers(name, *span),
            Item::GivesInterval(name, from, to) => {
                let natural = self.subset_known(done, name)?;
                interval_checked(natural, from, to)
            }
            Item::GivesIntegers(name, first, others) => {
                let natural = self.subset_known(done, name)?;
                integers_checked(self.alloc, natural, first, others)
            }
            Item::Counts(_, _)
            | Item::Declares(_)
            | Item::DeclaresInvariant(_, _)
            | Item::Exceeds(_, _, _)
            | Item::Repeats(_)
            | Item::NamesFunction(_)
            | Item::NamesMacro(_) => Ok(()),
        }
    }
}

#[tactic(auto, using(crate::proofs::Passes::domains_steps))]
fn all_known(known: &Known, items: &[Item]) -> Result<(), TypeRefusal>
    ensures { Checks result
        (pass.domains_refused_from known.now.decls.now known.now.names.now known.now.given.now []
        (map item_of items.now))
        (λ _. Unit {0}) }
{
    let mut done = NameSet::new(known.alloc);
    for item in items {
        match known.look(&mut done, item) {
            Ok(()) => {}
            Err(refusal) => return Err(refusal),
        }
    }
    Ok(())
}

#[tactic(auto, using(crate::proofs::ScopeSteps::listed_steps))]
fn listed_checked(
    alloc: Global,
    decls: &[DeclTree],
    names: &Names,
    items: &[Item],
) -> Result<(), TypeRefusal>
    ensures { Checks result (pass.domains_refused decls.now names.now (map item_of items.now))
        (λ _. Unit {0}) }
{
    let given = given_names(alloc, items)?;
    let known = Known {
        alloc,
        decls,
        names,
        given: &given,
    };
    all_known(&known, items)?;
    Ok(())
}

/// The first refusal of the second pass.
pub(crate) fn domains_checked(
    alloc: Global,
    decls: &[DeclTree],
    names: &Names,
    items: &Items,
) -> Result<(), TypeRefusal>
    ensures { Checks result (pass.domains_refused decls.now names.now items.now)
        (λ _. Unit {0}) }
{
    listed_checked(alloc, decls, names, items.as_slice())
}

//! Declarations of the signature, each a line.
ghost use Rattle.std.specs.Prelude.{◌≡◌, [], ◌∷◌, codes, map, OnOk};
ghost use Rattle.asm_syntax.specs.Written.{word_of};
ghost use Rattle.asm_syntax.specs.Canonical.{typed_words};
ghost use Rattle.asm_print_terms.specs.Lines.{with_words, with_lines};
ghost use Rattle.asm_print.specs.LineParts.{enum_words, decl_line};

use asm_print_terms::{Writer, put_domain, put_more_tokens};
use asm_syntax::{Boxed, DeclTree, DomainTree, Token};
use std::alloc::AllocError;

/// ID ":" domain ["->" domain]
#[tactic(auto, using(crate::proofs::LineSteps::typed_steps))]
fn put_typed(
    out: &mut Writer,
    name: &Token,
    first: &DomainTree,
    next: &Option<Boxed<DomainTree>>,
) -> Result<(), AllocError>
    ensures { OnOk result (out.new ≡ with_words out.old (typed_words name.now first.now next.now)) }
{
    out.put_token(name)?;
    out.put(":")?;
    put_domain(out, first)?;
    match next {
        Some(next) => {
            out.put("->")?;
            put_domain(out, next.get())
        }
        None => Ok(()),
    }
}

/// "domain" ID "=" "{"
pub(crate) fn open_domain(out: &mut Writer, name: &Token) -> Result<(), AllocError>
    ensures { OnOk result (out.new ≡ with_words out.old
        (codes "domain" ∷ word_of name.now ∷ codes "=" ∷ codes "{" ∷ [])) }
{
    out.put("domain")?;
    out.put_token(name)?;
    out.put("=")?;
    out.put("{")
}

/// "enum" "domain" ID "=" "{" ID {"|" ID} "}"
#[tactic(auto, using(crate::proofs::LineSteps::enum_steps))]
fn put_enum(
    out: &mut Writer,
    name: &Token,
    first: &Token,
    others: &[Token],
) -> Result<(), AllocError>
    ensures { OnOk result
        (out.new ≡ with_words out.old (enum_words name.now first.now others.now)) }
{
    out.put("enum")?;
    open_domain(out, name)?;
    out.put_token(first)?;
    put_more_tokens(out, "|", others)?;
    out.put("}")
}

/// A declaration, without its `dynamic`.
#[tactic(auto, unfolding(crate::specs::LineParts::enum_words, crate::specs::LineParts::decl_line))]
fn put_decl(out: &mut Writer, decl: &DeclTree) -> Result<(), AllocError>
    ensures { OnOk result (out.new ≡ with_words out.old (decl_line decl.now)) }
{
    match decl {
        DeclTree::Enum(name, first, others, _) => put_enum(out, name, first, others.as_slice()),
        DeclTree::Abstract(name, _) => {
            out.put("abstract")?;
            out.put("domain")?;
            out.put_token(name)
        }
        DeclTree::Subset(name, base, _) => {
            out.put("domain")?;
            out.put_token(name)?;
            out.put("subsetof")?;
            out.put(base.as_str())
        }
        DeclTree::Defined(kind, name, first, next, _) => {
            out.put(kind.as_str())?;
            put_typed(out, name, first.get(), next)
        }
        DeclTree::Dynamic(kind, name, first, next, _) => {
            out.put(kind.as_str())?;
            put_typed(out, name, first.get(), next)
        }
    }
}

/// Declarations, a line for each.
#[tactic(auto, using(asm_print_terms::proofs::Texts::line_steps))]
pub(crate) fn put_decls(out: &mut Writer, decls: &[DeclTree]) -> Result<(), AllocError>
    ensures { OnOk result (out.new ≡ with_lines out.old (map decl_line decls.now)) }
{
    for decl in decls {
        put_decl(out, decl)?;
        out.end_line()?;
    }
    Ok(())
}

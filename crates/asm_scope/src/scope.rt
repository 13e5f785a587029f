//! What a text declares, as far as terms and rules see it.
ghost use Rattle.std.specs.Prelude.{◌≡◌, slice_get, IfOk};
ghost use Rattle.std.specs.Option.{option_map};
ghost use Rattle.asm_program.specs.Signatures.{find, domain_of, param_domains};

use crate::domains::{domain_of, param_domains};
use crate::headers::Header;
use crate::names::Names;
use asm_base::{Boxed, List};
use asm_program::Named;
use asm_syntax::{DomainTree, ParamsTree};
use asm_value::{Domain, Domains};
use std::alloc::{AllocError, Global};
use std::marker::Model;

/// What a text declares.
#[derive(Drop)]
pub struct Scope {
    names: Names,
    /// The declared domains, in text order.
    pub domains: Domains,
    /// The functions, in text order.
    pub functions: List<Header>,
    /// The domains of the parameters of each macro rule, in text order.
    pub macros: List<List<Domain>>,
}

impl Model for Scope {
    ghost use Rattle.asm_program.specs.TypedTerms.{Scope as TextScope};
    ghost use Rattle.asm_value.specs.contracts.domain.Domain as domain;
    ghost use Rattle.std.specs.Coded.{codes};

    ghost Value = { TextScope };

    ghost coded = { Prim.hlevel (codes, domain.the_row.coded) };

    ghost view = { λ s. record {
      names = s.names;
      domains = s.domains;
      functions = s.functions;
      macros = s.macros;
    } };
}

impl Scope {
    /// The scope of these names, domains, functions and parameters of macro rules. Takes no memory.
    pub fn new(
        names: Names,
        domains: Domains,
        functions: List<Header>,
        macros: List<List<Domain>>,
    ) -> Scope
        ensures { result ≡ record {
          names = names;
          domains = domains;
          functions = functions;
          macros = macros;
        } }
    {
        Scope {
            names,
            domains,
            functions,
            macros,
        }
    }

    /// What a name stands for; None where it isn't declared. Takes no memory.
    pub fn find(&self, name: &str) -> Option<Named>
        ensures { result ≡ find self.now.names name.now }
    {
        self.names.find(name)
    }

    /// The names. Takes no memory.
    pub fn names(&self) -> &Names
        ensures { result.now ≡ self.now.names }
    {
        &self.names
    }

    /// The declared domains. Takes no memory.
    pub fn domains(&self) -> &Domains
        ensures { result.now ≡ self.now.domains }
    {
        &self.domains
    }

    /// Takes the declared domains out of the scope, which is at its end.
    pub fn into_domains(self) -> Domains
        ensures { result ≡ self.domains }
    {
        let Scope { domains, .. } = self;
        domains
    }

    /// The functions, in text order. Takes no memory.
    pub fn functions(&self) -> &[Header]
        ensures { result.now ≡ self.now.functions }
    {
        self.functions.as_slice()
    }

    /// What is said of a function. Takes no memory.
    pub fn header(&self, function: u16) -> Option<&Header>
        ensures { option_map (λ h. h.now) result ≡ slice_get self.now.functions function }
    {
        self.functions.as_slice().get(usize::from(function))
    }

    /// The domains of a macro rule's parameters. Takes no memory.
    pub fn params(&self, number: u16) -> Option<&List<Domain>>
        ensures { option_map (λ ds. ds.now) result ≡ slice_get self.now.macros number }
    {
        self.macros.as_slice().get(usize::from(number))
    }

    /// The domain that a tree spells. `AllocError` is want of memory.
    pub fn domain_of(&self, alloc: Global, tree: &DomainTree) -> Result<Boxed<Domain>, AllocError>
        ensures { IfOk result (λ d. d ≡ domain_of self.now.names tree.now) }
    {
        domain_of(alloc, &self.names, tree)
    }

    /// The domains of parameters. `AllocError` is want of memory.
    pub fn param_domains(
        &self,
        alloc: Global,
        params: &Option<ParamsTree>,
    ) -> Result<List<Domain>, AllocError>
        ensures { IfOk result (λ ds. ds ≡ param_domains self.now.names params.now) }
    {
        param_domains(alloc, &self.names, params)
    }
}

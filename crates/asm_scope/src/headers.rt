//! What declarations say of functions.
ghost use Rattle.std.specs.Prelude.{◌≡◌};

use asm_base::List;
use asm_program::FunctionKind;
use asm_value::Domain;
use std::marker::Model;

/// What a declaration says of a function.
#[derive(Drop)]
pub struct Header {
    /// What the function is.
    pub kind: FunctionKind,
    /// The domains of its arguments.
    pub args: List<Domain>,
    /// The domain of its values.
    pub result: Domain,
}

impl Model for Header {
    ghost use Rattle.asm_program.specs.Signatures.{Header as FunctionHeader};
    ghost use Rattle.asm_value.specs.contracts.domain.Domain as domain;
    ghost use Rattle.std.specs.Coded.{codes};

    ghost Value = { FunctionHeader };

    ghost coded = { Prim.hlevel (codes, domain.the_row.coded) };

    ghost view = { λ h. record { kind = h.kind; args = h.args; result = h.result } };
}

impl Header {
    /// What is said of a function of this kind, with these domains. Takes no memory.
    pub fn new(kind: FunctionKind, args: List<Domain>, codomain: Domain) -> Header
        ensures { result ≡ record { kind = kind; args = args; result = codomain } }
    {
        Header {
            kind,
            args,
            result: codomain,
        }
    }

    /// What the function is. Takes no memory.
    pub fn kind(&self) -> FunctionKind
        ensures { result ≡ self.now.kind }
    {
        self.kind
    }

    /// The domains of its arguments. Takes no memory.
    pub fn args(&self) -> &[Domain]
        ensures { result.now ≡ self.now.args }
    {
        self.args.as_slice()
    }

    /// The domain of its values. Takes no memory.
    pub fn result(&self) -> &Domain
        ensures { result.now ≡ self.now.result }
    {
        &self.result
    }
}

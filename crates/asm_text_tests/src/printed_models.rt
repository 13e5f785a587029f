//! A model with its canonical text.
use asm_parse::parse_model;
use asm_print::print_model;
use asm_syntax::ModelTree;
use std::alloc::{AllocError, Global};
use std::test::Fail;

const LAMP: &str = "asm Lamp // a lamp
import ../StandardLibrary
signature:
    enum domain Light = {RED | GREEN}
    abstract domain Car
    domain Count subsetof Integer
    static limit: Light -> Integer
    dynamic monitored on: Boolean
    dynamic controlled n: Count
    out cars: Powerset(Car)
definitions:
    domain Count = {0..9}
    function limit($l in Light) = if ($l = RED) then 1 else 2 endif
    macro rule r_a($c in Car) = skip
    rule r_b = seq n := 1 n := (n + 1) endseq
    invariant inv over n, on: n >= -1
    main rule r_M = par
        if on then r_b[] endif
        forall $c in Car with true do r_a[$c]
        choose $c in Car do r_a[$c] ifnone skip
        let ($x = 1) in n := $x endlet
        switch n case 0: skip otherwise r_b[] endswitch
        extend Car with $c, $d do r_a[$d]
    endpar
default init s0:
    function n = 0
    function limit($l in Light) = 3
";

const CANONICAL: &str = "asm Lamp
signature :
enum domain Light = { RED | GREEN }
abstract domain Car
domain Count subsetof Integer
static limit : Light -> Integer
monitored on : Boolean
controlled n : Count
out cars : Powerset ( Car )
definitions :
domain Count = { 0 .. 9 }
function limit ( $l in Light ) = if $l = RED then 1 else 2 endif
rule r_a ( $c in Car ) = skip
rule r_b = seq n := 1 n := n + 1 endseq
invariant inv over n , on : n >= - 1
main rule r_M = par if on then r_b [ ] endif forall $c in Car with true do r_a [ $c ] choose $c in Car do r_a [ $c ] ifnone skip let ( $x = 1 ) in n := $x endlet switch n case 0 : skip otherwise r_b [ ] endswitch extend Car with $c , $d do r_a [ $d ] endpar
default init s0 :
function n = 0
function limit ( $l in Light ) = 3
";

fn has_text(alloc: Global, tree: &ModelTree, want: &str) -> Result<bool, AllocError> {
    let text = print_model(alloc, tree)?;
    Ok(text.as_str() == want)
}

/// Whether the model of the text is printed so.
fn is_printed(alloc: Global, text: &str, want: &str) -> Result<bool, AllocError> {
    match parse_model(alloc, text) {
        Ok(tree) => has_text(alloc, &tree, want),
        Err(_) => Ok(false),
    }
}

#[test]
fn a_model_has_a_line_for_each_part(rt: HostRuntime) -> Result<(), Fail> {
    assert!(rt; is_printed(rt.alloc(), LAMP, CANONICAL)?);
    Ok(())
}

#[test]
fn a_canonical_text_is_printed_as_itself(rt: HostRuntime) -> Result<(), Fail> {
    assert!(rt; is_printed(rt.alloc(), CANONICAL, CANONICAL)?);
    Ok(())
}

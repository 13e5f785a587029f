//! What counts tell. Each function does nothing.
ghost use Rattle.asm_counts.specs.CountLaws.{RulesAreTold, TermsAreTold};

/// Where the counts of each function are its depth and its work, each told as 2^32 where it is
/// more, so are those of each term.
pub fn counts_tell_of_terms()
    ensures { TermsAreTold }
{}

/// Where those of terms are, and the counts of each macro rule are its depth and its work, so are
/// those of each rule.
pub fn counts_tell_of_rules()
    ensures { RulesAreTold }
{}

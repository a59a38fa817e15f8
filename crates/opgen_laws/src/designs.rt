//! The law on designs: sound, or with a first rule that fails.
ghost use Rattle.opgen_laws.specs.Verdict.{EachIsSoundOrFails};

/// No design is neither sound nor has a first rule that fails: that it has no verdict is impossible. Which of the two holds is not
/// said, since nothing here decides it.
pub fn has_verdict()
    ensures { EachIsSoundOrFails }
{}

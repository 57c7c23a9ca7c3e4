//! Theorems about the meaning of a run.
ghost use Rattle.kb_vm.specs.Meaning.{RunsByStep};
ghost use Rattle.kb_vm.specs.Plain.{PlainSteps};

/// A run is one instruction followed by a run. So the bound on steps in the definition is never
/// reached.
pub fn runs_by_step()
    ensures { RunsByStep }
{}

/// Code without `Repeat` and `End` runs as in version 1: a jump may go to each later place.
pub fn plain_steps()
    ensures { PlainSteps }
{}

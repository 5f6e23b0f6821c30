// The worked examples of the format: proved of its definition by computing.
ghost use Rattle.file.specs.Examples.{Numbers, Files};

#[tactic(auto, using(crate::proofs::Worked::numbers, crate::proofs::Worked::files))]
pub fn stand()
    ensures numbers { Numbers }
    ensures files { Files }
{}

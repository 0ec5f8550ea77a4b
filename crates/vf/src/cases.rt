// Worked files: what the rule of VF files comes to on a small file and on broken ones.
ghost use Rattle.vf.specs.Cases.{WorkedFiles};

#[tactic(auto, unfolding(crate::specs::Files::walk, crate::specs::Files::vf_of, shelf::specs::Names::found_in))]
pub fn worked_files()
    ensures { WorkedFiles }
{}

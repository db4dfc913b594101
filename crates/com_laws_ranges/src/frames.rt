//! The frames of bodies in every legal history, stated on a function that does nothing.
ghost use Rattle.std.specs.Prelude.{◌≡◌, ℕ, Some};
ghost use Rattle.com_body.specs.declared.frame.Job.{Job};
ghost use Rattle.com_runtime.specs.Standings.{Reached};
ghost use Rattle.com_runtime.specs.Jobs.{job_of};
ghost use Rattle.com_model.specs.declared.scenario.Scenario.{Scenario};
ghost use Rattle.com_model.specs.State.{State, scene_in};
ghost use Rattle.com_laws_ranges.specs.Shapes.{HasShape};

/// In every state to which a legal history of a formed scenario comes, the frame of each body has 16
/// registers and 8 slots (`bodies`), and so has that of each lane's job (`jobs`).
pub fn frames_have_shape()
    ensures bodies { (s : Scenario) (st : State) (c : ℕ) → Reached s st → HasShape ((scene_in st).bodies c) }
    ensures jobs { (s : Scenario) (st : State) (l : ℕ) (job : Job) → Reached s st
        → job_of s st l ≡ Some job → HasShape job.frame }
{}

//! What a threaded driver needs to know of jobs, stated on functions that do nothing.

ghost use Rattle.std.specs.Prelude.{◌≡◌, ◌∷◌, ℕ, List, Some};
ghost use Rattle.com_body.specs.declared.frame.Job.{Job};
ghost use Rattle.com_runtime.specs.Standings.{Reached};
ghost use Rattle.com_runtime.specs.Turns.{IsNext};
ghost use Rattle.com_runtime.specs.Jobs.{Fits, job_of, kept_in};
ghost use Rattle.com_model.specs.declared.deeds.Entry.{Entry};
ghost use Rattle.com_model.specs.declared.scenario.Scenario.{Scenario};
ghost use Rattle.com_model.specs.Formed.{Formed};
ghost use Rattle.com_model.specs.Frames.{outcome};
ghost use Rattle.com_model.specs.Rules.{legal};
ghost use Rattle.com_model.specs.State.{State, StandsFor, actor_of, class_in, issue_in, scene_in};
ghost use Rattle.com_servant.specs.Steps.{IsOfItsClass, job_step};

/// A job that was taken from a lane fits that lane, is of its class, and has the object's cells, as long as
/// nothing has changed.
pub fn taken_jobs_fit()
    ensures fits { (s : Scenario) (st : State) (l : ℕ) (job : Job) → job_of s st l ≡ Some job
        → Fits s st l job }
    ensures fresh { (s : Scenario) (st : State) (l : ℕ) (job : Job) → job_of s st l ≡ Some job
        → job.cells ≡ kept_in st l }
    ensures class { (s : Scenario) (st : State) (l : ℕ) (job : Job) → job_of s st l ≡ Some job
        → IsOfItsClass s.classes job }
{}

/// Where a job fits a lane and has the object's cells, it is the job of the lane, whatever happened since it
/// was taken: its step is that of whoever acts there.
pub fn fitting_jobs_step()
    ensures job { (s : Scenario) (st : State) (l : ℕ) (job : Job) → Fits s st l job
        → job.cells ≡ kept_in st l → job_of s st l ≡ Some job }
    ensures step { (s : Scenario) (st : State) (l : ℕ) (job : Job) → job_of s st l ≡ Some job
        → outcome s (class_in st) (issue_in st) (scene_in st) (actor_of s st l)
        ≡ Some (job_step s.classes job) }
{}

/// A state that stands for a legal history of a formed scenario is one of which a runtime answers. After the
/// next entry of a lane the history with that entry is legal, and the new state stands for it.
pub fn histories_go_on()
    ensures reached { (s : Scenario) (st : State) (h : List Entry) → Formed s → StandsFor s st h
        → Reached s st }
    ensures legal { (s : Scenario) (st new : State) (h : List Entry) (l : ℕ) (e : Entry)
        → StandsFor s st h → IsNext s st l e new → legal s (e ∷ h) }
    ensures stands { (s : Scenario) (st new : State) (h : List Entry) (l : ℕ) (e : Entry) → Formed s
        → StandsFor s st h → IsNext s st l e new → StandsFor s new (e ∷ h) }
{}

//! What the entries of other lanes leave of a job that was taken, stated on functions that do nothing.
#![tactic(auto)]

ghost use Rattle.std.specs.Prelude.{◌≡◌, ℕ, ◌++◌, false, List, Some, true};
ghost use Rattle.com_body.specs.declared.frame.Job.{Job};
ghost use Rattle.com_laws_jobs.specs.Fresh.{AreOfOthers};
ghost use Rattle.com_runtime.specs.Jobs.{Fits, job_of, kept_in};
ghost use Rattle.com_model.specs.declared.deeds.Entry.{Entry};
ghost use Rattle.com_model.specs.declared.keeps.Opener.TheVariants.{Enters};
ghost use Rattle.com_model.specs.declared.scenario.Scenario.{Scenario};
ghost use Rattle.com_model.specs.Apartments.{is_sta};
ghost use Rattle.com_model.specs.Formed.{Formed};
ghost use Rattle.com_model.specs.Lists.{first};
ghost use Rattle.com_model.specs.Objects.{agile, named};
ghost use Rattle.com_model.specs.Openers.{openers};
ghost use Rattle.com_model.specs.State.{State, StandsFor};

/// A job that was taken from a lane after a history still fits the lane after more entries, if all of these
/// are of other lanes.
pub fn stays_fitting()
    ensures { (s : Scenario) (st later : State) (h more : List Entry) (l : ℕ) (job : Job) → Formed s
        → StandsFor s st h → StandsFor s later (more ++ h) → AreOfOthers l more → job_of s st l ≡ Some job
        → Fits s later l job }
{}

/// If moreover the object is not agile, and its owner is an STA, the job still has the object's cells: a
/// commit is not refused as stale. For all bodies that are open in an STA stand in the one lane that serves
/// it.
pub fn sta_stays_fresh()
    ensures { (s : Scenario) (st later : State) (h more : List Entry) (l c o a : ℕ) (job : Job) → Formed s
        → StandsFor s st h → StandsFor s later (more ++ h) → AreOfOthers l more → job_of s st l ≡ Some job
        → first (openers h l) ≡ Some (Enters c o a) → agile s h o ≡ false → is_sta (named h o) ≡ true
        → job.cells ≡ kept_in later l }
{}

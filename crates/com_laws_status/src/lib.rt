//! The statuses 0 and 7 of `check` and `migrate` come exactly where a trace is the text and the report of a
//! legal history that has ended, and where it is not. Stated on functions that do nothing.
#![tactic(auto)]

ghost use Rattle.std.specs.Prelude.{◌≡◌, ◌↔◌, ℕ, List, drop};
ghost use Rattle.com_model.specs.Formed.{Formed};
ghost use Rattle.com_commands.specs.declared.inputs.Input.TheVariants as input;
ghost use Rattle.com_commands.specs.declared.statuses.Status.{Status};
ghost use Rattle.com_commands.specs.declared.statuses.Status.TheVariants as status;
ghost use Rattle.com_commands.specs.Responses.{Responds};
ghost use Rattle.com_commands.specs.Statuses.{Sides};
ghost use Rattle.com_command_migrate.specs.declared.inputs.Moving.{Moving};
ghost use Rattle.com_command_migrate.specs.Migrating.{IsMigrated, migrating};
ghost use Rattle.com_command_check.specs.declared.questions.Question.{Question};
ghost use Rattle.com_command_check.specs.Checking.{IsVerdict, question_input};
ghost use Rattle.com_laws_check.specs.Exact.{IsWhole};
ghost use Rattle.com_laws_status.specs.Exactly.{IsUndisturbed, TellsExactly};
ghost use Rattle.com_laws_status.specs.Whole.{IsWholeTrace};

/// What `check` answers for a formed scenario and a trace has status 0 exactly where the trace is the text and
/// the report of a legal history that has ended, and 7 exactly where it is not.
pub fn check_statuses()
    ensures done { (q : Question) (s : Status) (text : List ℕ) → Formed q.scenario → IsVerdict q s text
        → (s ≡ status.Done) ↔ IsWhole q.scenario (drop q.from q.text) }
    ensures differs { (q : Question) (s : Status) (text : List ℕ) → Formed q.scenario → IsVerdict q s text
        → (s ≡ status.Differs) ↔ (IsWhole q.scenario (drop q.from q.text) → ⊥) }
{}

/// What `migrate` answers for a formed scenario has status 0 exactly where there is no trace or it is the text
/// and the report of a legal history that has ended, and 7 exactly where it is not.
pub fn migrate_statuses()
    ensures done { (m : Moving) (s : Status) (text : List ℕ) → Formed m.scenario → IsMigrated m s text
        → (s ≡ status.Done) ↔ IsWholeTrace m.scenario m.trace }
    ensures differs { (m : Moving) (s : Status) (text : List ℕ) → Formed m.scenario → IsMigrated m s text
        → (s ≡ status.Differs) ↔ (IsWholeTrace m.scenario m.trace → ⊥) }
{}

/// Where `check` responds to an input that is a scenario and a trace, the source tells its bytes and no count
/// of faults rose: the code is 0, and the trace is the text and the report of a legal history that has ended;
/// or it is 7, and the trace is not; or want of memory came.
pub fn check_is_exact()
    ensures { (code : ℕ) (sides : Sides) (bytes : List ℕ) (q : Question)
        → Responds question_input IsVerdict code sides → IsUndisturbed sides bytes
        → question_input bytes ≡ input.Reads q
        → TellsExactly code (IsWhole q.scenario (drop q.from q.text)) }
{}

/// Where `migrate` responds to an input that is a scenario, the source tells its bytes and no count of faults
/// rose: the code is 0, and there is no trace or it is the text and the report of a legal history that has
/// ended; or it is 7, and the trace is not; or want of memory came.
pub fn migrate_is_exact()
    ensures { (code : ℕ) (sides : Sides) (bytes : List ℕ) (m : Moving)
        → Responds migrating IsMigrated code sides → IsUndisturbed sides bytes
        → migrating bytes ≡ input.Reads m → TellsExactly code (IsWholeTrace m.scenario m.trace) }
{}

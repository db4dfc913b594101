//! Servants: what computes the steps of bodies. One of them interprets statements, and three compute the
//! built-in bodies by plain code.
#![tactic(auto)]

ghost use Rattle.std.specs.Prelude.{◌≡◌, ℕ, IfOk, OnOk, OnErr, map, slice_index, slice_set};
ghost use Rattle.com_body.specs.declared.frame.Native.{Native as AnyNative};
ghost use Rattle.com_servant.specs.Rows.{one_more, index_of, row};
ghost use Rattle.com_servant.specs.Steps.{IsOfItsClass, job_step};

mod built_ins;
mod crew;
mod interpreter;

pub use built_ins::{Counter, Latch, Relay};
pub use com_base::Memory;
use com_body::{Job, Native, Outcome};
use com_classes::Classes;
pub use crew::{ROWS, is_manned};
pub use interpreter::Interpreter;
use std::alloc::Global;

/// What computes the steps of the bodies of one kind of class.
///
/// The meaning of a servant is its kind and how many steps it has made.
pub trait Servant: Drop {
    // The kind of class whose bodies it steps.
    ghost kind_of: { Self → AnyNative };

    // How many steps were made; the greatest `u64` stands for that many or more.
    ghost stepped: { Self → ℕ };

    /// The kind of class whose bodies it steps.
    fn kind(&self) -> Native
        ensures { result ≡ kind_of self.now };

    /// How many steps it has made; the greatest `u64` stands for that many or more.
    fn steps(&self) -> u64
        ensures { result ≡ stepped self.now };

    /// The body step of the job, whose kind is that of the servant and of the job's class.
    ///
    /// The only error is want of memory, and then the count of steps is as before. No call changes the kind.
    fn step(&mut self, alloc: Global, classes: &Classes, job: &Job) -> Result<Outcome, Memory>
        requires own { job.now.kind ≡ kind_of self.old }
        requires class { IsOfItsClass classes.now job.now }
        ensures outcome { IfOk result (λ outcome. outcome ≡ job_step classes.now job.now) }
        ensures kind { kind_of self.new ≡ kind_of self.old }
        ensures counted { OnOk result (stepped self.new ≡ one_more (stepped self.old)) }
        ensures uncounted { OnErr result (stepped self.new ≡ stepped self.old) };
}

// The index of a kind in a row of servants.
fn index_of(kind: Native) -> usize
    ensures { result ≡ index_of kind }
{
    match kind {
        Native::Bodies => 0,
        Native::Counter => 1,
        Native::Relay => 2,
        Native::Latch => 3,
    }
}

// A step of one servant behind its box.
fn step_one(
    alloc: Global,
    servant: &mut Box<dyn Servant + Send>,
    classes: &Classes,
    job: &Job,
) -> Result<Outcome, Memory>
    requires own { job.now.kind ≡ kind_of servant.old }
    requires class { IsOfItsClass classes.now job.now }
    ensures outcome { IfOk result (λ outcome. outcome ≡ job_step classes.now job.now) }
    ensures kind { kind_of servant.new ≡ kind_of servant.old }
    ensures counted { OnOk result (stepped servant.new ≡ one_more (stepped servant.old)) }
    ensures uncounted { OnErr result (stepped servant.new ≡ stepped servant.old) }
{
    servant.step(alloc, classes, job)
}

/// Has the servant of the job's kind compute its body step. The row has one servant of each kind, in the
/// order of the kinds.
///
/// At Ok the count of that servant rose by one, or stays at its greatest value, and the others' stay. The
/// only error is want of memory, and then every count is as before.
#[tactic(auto, using(crate::proofs::Maps::map_set, crate::proofs::Maps::get_map))]
pub fn serve(
    alloc: Global,
    servants: &mut Vec<Box<dyn Servant + Send>>,
    classes: &Classes,
    job: &Job,
) -> Result<Outcome, Memory>
    requires row { map kind_of servants.old.items ≡ row }
    requires class { IsOfItsClass classes.now job.now }
    ensures outcome { IfOk result (λ outcome. outcome ≡ job_step classes.now job.now) }
    ensures row { map kind_of servants.new.items ≡ row }
    ensures counted { OnOk result (map stepped servants.new.items
        ≡ slice_set (map stepped servants.old.items) (index_of job.now.kind)
        (one_more (slice_index (map stepped servants.old.items) (index_of job.now.kind)))) }
    ensures uncounted { OnErr result (map stepped servants.new.items ≡ map stepped servants.old.items) }
{
    let at = index_of(job.kind);
    step_one(alloc, &mut servants[at], classes, job)
}

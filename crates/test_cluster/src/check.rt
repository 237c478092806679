//! What is found of lists of steps.

ghost use Rattle.std.specs.Prelude.{◌≡◌, ◌+◌, ◌++◌, ◌∷◌, ℕ, List, [], IfOk, length};
ghost use Rattle.cl_machine.specs.Cluster.{Cluster, IsStep};
ghost use Rattle.cl_machine.specs.Steps.{Step as StepView};
ghost use Rattle.cl_check.specs.declared.checking.Verdict.TheVariants as verdict;
ghost use Rattle.test_cluster.specs.Checks.{ComesNext, EndsWith, HasAnotherReply, Idles, MissesFull};
ghost use Rattle.test_cluster.specs.Checks.{TakesAtAnother, TakesNothing};

use cl_check::{Verdict, check};
use cl_machine::Step;
use rv_image_types::Image;
use std::alloc::{AllocError, Global};

/// No steps are good, of every image.
pub fn no_steps_are_good(alloc: Global, image: &Image) -> Result<Verdict, AllocError>
    ensures { IfOk result (λ found. found ≡ verdict.Good) }
{
    check(alloc, image, &[])
}

/// A step that doesn't come after the one before it is bad, also where the machine has it there.
pub fn an_early_step_is_bad(
    alloc: Global,
    image: &Image,
    steps: &[Step],
) -> Result<Verdict, AllocError>
    ensures { (front : List StepView) (cluster : Cluster) (e : StepView)
        → EndsWith image.now steps.now front cluster e → ¬ ComesNext front e
        → IfOk result (λ found. found ≡ verdict.BadAt (length front)) }
{
    check(alloc, image, steps)
}

/// Of two steps of one rank and one stamp, one behind the other, the second is bad.
pub fn a_stamp_twice_is_bad(
    alloc: Global,
    image: &Image,
    steps: &[Step],
) -> Result<Verdict, AllocError>
    ensures { (front : List StepView) (cluster : Cluster) (one two : StepView)
        → EndsWith image.now steps.now (front ++ one ∷ []) cluster two → two.stamp ≡ one.stamp → two.rank ≡ one.rank
        → IfOk result (λ found. found ≡ verdict.BadAt (length front + 1)) }
{
    check(alloc, image, steps)
}

/// The last step is checked too: where the machine has no such step, it is bad.
pub fn the_last_step_counts(
    alloc: Global,
    image: &Image,
    steps: &[Step],
) -> Result<Verdict, AllocError>
    ensures { (front : List StepView) (cluster : Cluster) (e : StepView)
        → EndsWith image.now steps.now front cluster e → ((next : Cluster) → ¬ IsStep cluster e next)
        → IfOk result (λ found. found ≡ verdict.BadAt (length front)) }
{
    check(alloc, image, steps)
}

/// A Take that comes before its Ready is bad, whatever its stamp.
pub fn a_take_before_its_ready_is_bad(
    alloc: Global,
    image: &Image,
    steps: &[Step],
) -> Result<Verdict, AllocError>
    ensures { (front : List StepView) (cluster : Cluster) (e : StepView)
        → EndsWith image.now steps.now front cluster e → TakesNothing cluster e
        → IfOk result (λ found. found ≡ verdict.BadAt (length front)) }
{
    check(alloc, image, steps)
}

/// A Take is bad whose stamp leaves out the box's.
pub fn a_take_at_another_stamp_is_bad(
    alloc: Global,
    image: &Image,
    steps: &[Step],
) -> Result<Verdict, AllocError>
    ensures { (front : List StepView) (cluster : Cluster) (e : StepView)
        → EndsWith image.now steps.now front cluster e → TakesAtAnother cluster e
        → IfOk result (λ found. found ≡ verdict.BadAt (length front)) }
{
    check(alloc, image, steps)
}

/// A call with a reply that isn't the hub's is bad.
pub fn another_reply_is_bad(
    alloc: Global,
    image: &Image,
    steps: &[Step],
) -> Result<Verdict, AllocError>
    ensures { (front : List StepView) (cluster : Cluster) (e : StepView)
        → EndsWith image.now steps.now front cluster e → HasAnotherReply cluster e
        → IfOk result (λ found. found ≡ verdict.BadAt (length front)) }
{
    check(alloc, image, steps)
}

/// A turn of a stopped hart is good, also where all harts of its rank are stopped.
pub fn an_idle_turn_is_good(
    alloc: Global,
    image: &Image,
    steps: &[Step],
) -> Result<Verdict, AllocError>
    ensures { (front : List StepView) (cluster : Cluster) (e : StepView)
        → EndsWith image.now steps.now front cluster e → ComesNext front e → Idles cluster e
        → IfOk result (λ found. found ≡ verdict.Good) }
{
    check(alloc, image, steps)
}

/// A look in vain is good, though the box is full.
pub fn a_miss_of_a_full_box_is_good(
    alloc: Global,
    image: &Image,
    steps: &[Step],
) -> Result<Verdict, AllocError>
    ensures { (front : List StepView) (cluster : Cluster) (e : StepView)
        → EndsWith image.now steps.now front cluster e → ComesNext front e → MissesFull cluster e
        → IfOk result (λ found. found ≡ verdict.Good) }
{
    check(alloc, image, steps)
}

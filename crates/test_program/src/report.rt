//! The faults, the status of a run, the verdict on a record, and the input.

ghost use Rattle.std.specs.Prelude.{◌≡◌, ◌≢◌, ◌<◌, [], ◌∷◌, Err, IfOk, IsErr, codes, false, length, map};
ghost use Rattle.std.specs.Prelude.{None, Some, string_bytes, true};
ghost use Rattle.std.specs.List.{list_any};
ghost use Rattle.cl_rank.specs.declared.stops.Stop.{Stop};
ghost use Rattle.cl_rank.specs.declared.stops.Stop.TheVariants.{AllEnded, Budget, Memory, ClockFull, Calls};
ghost use Rattle.cl_state.specs.declared.state.RankState.{RankState};
ghost use Rattle.cl_trace.specs.Traces.{TraceView};
ghost use Rattle.rvmc_report.specs.Report.{ends_of, has_trapped, is_cut_short, stop_line, wants_memory};
ghost use Rattle.rvmc_report.specs.WholeRecord.{HasEachRank};
ghost use Rattle.rvmc_report.specs.declared.faults.Fault.TheVariants as faults;
ghost use Rattle.rvmc_report.specs.declared.faults.PlaceFault.TheVariants.{PastEnd};
ghost use Rattle.rvmc_report.specs.declared.input.InputFault.TheVariants as input;

use cl_check::Verdict;
use cl_replay::ReplayFault;
use cl_run::{Record, RunFault};
use cl_text::RecordFault;
use rv_asm::{AsmFault, AsmFaultKind};
use rv_image::ImageFault;
use rvmc_report::faults::Fault;
use rvmc_report::input::{InputFault, read_input};
use rvmc_report::report::status;
use rvmc_views::verdicts::{verdict_status, verdict_text};
use std::alloc::{AllocError, Global};

/// A wrong plan is a fault of the input.
pub fn wrong_plans_end_with_1() -> u8
    ensures { result ≡ 1 }
{
    Fault::Plans.status()
}

/// Want of memory ends with 5.
pub fn want_of_memory_ends_with_5() -> u8
    ensures { result ≡ 5 }
{
    Fault::Memory.status()
}

/// A read that fails ends with 6, and not with 5.
pub fn failed_read_ends_with_6() -> u8
    ensures { result ≡ 6 }
{
    Fault::Read.status()
}

/// A write that fails ends with 6.
pub fn failed_write_ends_with_6() -> u8
    ensures { result ≡ 6 }
{
    Fault::Write.status()
}

/// A thread that is refused ends with 5.
pub fn refused_thread_ends_with_5() -> u8
    ensures { result ≡ 5 }
{
    Fault::from(RunFault::Spawn).status()
}

/// Threads that left what doesn't fit together are a fault of the input, whatever rank and place are told: 1, and
/// neither want of memory nor a stream that failed.
pub fn unlike_threads_end_with_1(rank: u8, place: u64) -> u8
    ensures { result ≡ 1 }
{
    Fault::from(RunFault::Unlike { rank, place }).status()
}

/// Plans that a run refuses are told as plans, and not as want of memory.
pub fn refused_plans_are_plans() -> Fault
    ensures { result ≡ faults.Plans }
{
    Fault::from(RunFault::Plans)
}

/// Want of memory in a source is no fault of the source.
pub fn want_of_memory_is_no_fault_of_a_source(line: u64) -> Fault
    ensures { result ≡ faults.Memory }
{
    Fault::from(AsmFault {
        line,
        kind: AsmFaultKind::Memory,
    })
}

/// Nor of an image.
pub fn want_of_memory_is_no_fault_of_an_image() -> Fault
    ensures { result ≡ faults.Memory }
{
    Fault::from(ImageFault::Memory)
}

/// Nor of a record.
pub fn want_of_memory_is_no_fault_of_a_record() -> Fault
    ensures { result ≡ faults.Memory }
{
    Fault::from(RecordFault::Memory)
}

/// Nor of steps that are done again.
pub fn want_of_memory_is_no_fault_of_a_place() -> Fault
    ensures { result ≡ faults.Memory }
{
    Fault::from(ReplayFault::Memory)
}

/// A place behind the end is told with the number of steps.
pub fn place_behind_the_end_is_named(steps: u64) -> Fault
    ensures { result ≡ faults.Why (PastEnd steps) }
{
    Fault::from(ReplayFault::PastEnd(steps))
}

/// A step before a place that is none is a fault of the input.
pub fn wrong_step_before_a_place_ends_with_1(n: u64) -> u8
    ensures { result ≡ 1 }
{
    Fault::from(ReplayFault::Step(n)).status()
}

/// A fault of a record is a fault of the input.
pub fn wrong_record_ends_with_1() -> u8
    ensures { result ≡ 1 }
{
    Fault::from(RecordFault::Short(247)).status()
}

/// So is a bad step.
pub fn bad_step_ends_with_1(n: u64) -> u8
    ensures { result ≡ 1 }
{
    verdict_status(Verdict::BadAt(n))
}

/// Good steps are told with their number.
pub fn good_steps_are_counted(alloc: Global) -> Result<String, AllocError>
    ensures { IfOk result (λ text. string_bytes text ≡ codes "good 10\n") }
{
    verdict_text(alloc, Verdict::Good, 10)
}

/// A bad step is told by its number, whatever the number of steps.
pub fn bad_step_is_named(alloc: Global, count: usize) -> Result<String, AllocError>
    ensures { IfOk result (λ text. string_bytes text ≡ codes "bad 3\n") }
{
    verdict_text(alloc, Verdict::BadAt(3), count)
}

/// Want of memory for a rank outweighs a trap and a budget.
#[tactic(auto, using(rvmc_report::proofs::Ends::status_by_lists))]
pub fn want_of_memory_outweighs_all(left: &Record) -> u8
    requires { HasEachRank left.now }
    ensures { list_any (λ stop. wants_memory (Some stop)) left.now.stops.items ≡ true → result ≡ 5 }
{
    status(left)
}

/// A trap, of whatever rank, outweighs a budget.
#[tactic(auto, using(rvmc_report::proofs::Ends::status_by_lists))]
pub fn trap_outweighs_a_budget(left: &Record) -> u8
    requires { HasEachRank left.now }
    ensures { list_any (λ stop. wants_memory (Some stop)) left.now.stops.items ≡ false
        → list_any (λ state. has_trapped state.harts.items) left.now.ranks.items ≡ true → result ≡ 3 }
{
    status(left)
}

/// Where no rank was cut short, none wanted memory and no hart trapped, all is well.
#[tactic(auto, using(rvmc_report::proofs::Ends::status_by_lists))]
pub fn all_is_well(left: &Record) -> u8
    requires { HasEachRank left.now }
    ensures { list_any (λ stop. wants_memory (Some stop)) left.now.stops.items ≡ false
        → list_any (λ state. has_trapped state.harts.items) left.now.ranks.items ≡ false
        → list_any (λ stop. is_cut_short (Some stop)) left.now.stops.items ≡ false → result ≡ 0 }
{
    status(left)
}

/// A rank that is cut short, where none wanted memory and no hart trapped, ends with 4.
#[tactic(auto, using(rvmc_report::proofs::Ends::status_by_lists))]
pub fn cut_short_ends_with_4(left: &Record) -> u8
    requires { HasEachRank left.now }
    ensures { list_any (λ stop. wants_memory (Some stop)) left.now.stops.items ≡ false
        → list_any (λ state. has_trapped state.harts.items) left.now.ranks.items ≡ false
        → list_any (λ stop. is_cut_short (Some stop)) left.now.stops.items ≡ true → result ≡ 4 }
{
    status(left)
}

/// A full clock cuts a rank short, as a budget does.
pub fn full_clock_cuts_short(clock: u64)
    ensures { is_cut_short (Some (ClockFull clock)) ≡ true }
{}

/// So do too many calls.
pub fn too_many_calls_cut_short(count: u64)
    ensures { is_cut_short (Some (Calls count)) ≡ true }
{}

/// The line of a rank that stopped, for each reason: no guest that a test can wait for fills a clock.
pub fn each_stop_has_its_word()
    ensures { map (λ stop. stop_line 1 (Some stop) 9)
        (AllEnded ∷ Budget ∷ Memory ∷ ClockFull 4611686018427387903 ∷ Calls 1048576 ∷ [])
        ≡ codes "rank 1 stop all-ended turns 9\n" ∷ codes "rank 1 stop budget turns 9\n"
        ∷ codes "rank 1 stop memory turns 9\n" ∷ codes "rank 1 stop clock turns 9\n"
        ∷ codes "rank 1 stop calls turns 9\n" ∷ [] }
{}

/// So does what isn't known of a rank in a record.
pub fn unknown_stop_cuts_short()
    ensures { is_cut_short None ≡ true }
{}

/// A step of a record that is none is a fault of the input.
pub fn wrong_step_of_a_report_ends_with_1(n: u64) -> u8
    ensures { result ≡ 1 }
{
    Fault::Report(n).status()
}

/// The turns of a rank are those of its own trace.
pub fn each_rank_has_its_turns()
    ensures { (a b : RankState) (s t : TraceView) (p q : Stop)
        → map (λ end. end.turns) (ends_of (a ∷ b ∷ []) (s ∷ t ∷ []) (p ∷ q ∷ []))
        ≡ length s.events ∷ length t.events ∷ [] }
{}

/// A slice is read whole, or it is too long or memory is refused.
pub fn slice_is_read_whole(alloc: Global, input: &mut &[u8]) -> Result<Vec<u8>, InputFault>
    ensures { IfOk result (λ bytes. bytes.items ≡ input.old.now) }
{
    read_input(alloc, input)
}

/// One byte more than 67,108,864 is never taken for a whole input.
pub fn longer_input_is_refused(alloc: Global, input: &mut &[u8]) -> Result<Vec<u8>, InputFault>
    ensures { 67108864 < length input.old.now → IsErr result }
{
    read_input(alloc, input)
}

/// An empty input wants no memory.
pub fn empty_input_wants_no_memory(alloc: Global) -> Result<Vec<u8>, InputFault>
    ensures { result ≢ Err input.Memory }
{
    read_input(alloc, &mut [0u8; 0].as_slice())
}

//! What words are a command line, and what they ask for.

ghost use Rattle.std.specs.Prelude.{◌≡◌, [], ◌∷◌, IfErr, IfOk, IsErr, None, Ok, Some, false, true};
ghost use Rattle.clap.specs.declared.error.kind.ErrorKind.TheVariants.{DisplayVersion};
ghost use Rattle.rvmc_cli.specs.Meaning.{IsParseFault};
ghost use Rattle.rvmc_line.specs.declared.line.CommandLine.TheVariants.{OfImage, OfRecord};
ghost use Rattle.rvmc_line.specs.declared.line.ImageCommand.TheVariants.{Asm, Dis, One, OneUntilStuck, Run};
ghost use Rattle.rvmc_line.specs.declared.line.RecordCommand.TheVariants.{Check, Report, Why};
ghost use Rattle.rvmc_line.specs.declared.line.ParseFault.TheVariants as faults;
ghost use Rattle.rvmc_line.specs.declared.line.Written.TheVariants as written;

use rvmc_cli::parse;
use rvmc_line::{CommandLine, ParseFault};
use std::alloc::Global;

/// Without words a source is run, with a budget of 1,000,000 turns, and no memory is needed to say so.
pub fn no_words(alloc: Global) -> Result<CommandLine, ParseFault>
    ensures { result ≡ Ok (OfImage true (One 1000000 None None written.Report)) }
{
    parse(alloc, &[])
}

/// `dis` lists.
#[tactic(auto, unfolding(rvmc_cli::specs::Meaning::faults_in, rvmc_cli::specs::Meaning::command_in, rvmc_cli::specs::Commands::line_in, clap::proofs::OnLiterals::clap_on_literals))]
pub fn dis_lists(alloc: Global) -> Result<CommandLine, ParseFault>
    ensures { IfOk result (λ line. line ≡ OfImage false Dis) }
{
    parse(alloc, &["dis"])
}

/// `asm` makes an image.
#[tactic(auto, unfolding(rvmc_cli::specs::Meaning::faults_in, rvmc_cli::specs::Meaning::command_in, rvmc_cli::specs::Commands::line_in, clap::proofs::OnLiterals::clap_on_literals))]
pub fn asm_assembles(alloc: Global) -> Result<CommandLine, ParseFault>
    ensures { IfOk result (λ line. line ≡ OfImage true (Asm false)) }
{
    parse(alloc, &["asm"])
}

/// `--from` has it take an image.
#[tactic(auto, unfolding(rvmc_cli::specs::Meaning::faults_in, rvmc_cli::specs::Meaning::command_in, rvmc_cli::specs::Commands::line_in, clap::proofs::OnLiterals::clap_on_literals))]
pub fn from_takes_an_image(alloc: Global) -> Result<CommandLine, ParseFault>
    ensures { IfOk result (λ line. line ≡ OfImage false (Asm true)) }
{
    parse(alloc, &["asm", "--from"])
}

/// `one` runs an image, each rank for 1,000,000 turns at most.
#[tactic(auto, unfolding(rvmc_cli::specs::Meaning::faults_in, rvmc_cli::specs::Meaning::command_in, rvmc_cli::specs::Commands::line_in, clap::proofs::OnLiterals::clap_on_literals))]
pub fn one_runs_an_image(alloc: Global) -> Result<CommandLine, ParseFault>
    ensures { IfOk result (λ line. line ≡ OfImage false (One 1000000 None None written.Report)) }
{
    parse(alloc, &["one"])
}

/// `--source` has it run a source.
#[tactic(auto, unfolding(rvmc_cli::specs::Meaning::faults_in, rvmc_cli::specs::Meaning::command_in, rvmc_cli::specs::Commands::line_in, clap::proofs::OnLiterals::clap_on_literals))]
pub fn source_runs_a_source(alloc: Global) -> Result<CommandLine, ParseFault>
    ensures { IfOk result (λ line. line ≡ OfImage true (One 1000000 None None written.Report)) }
{
    parse(alloc, &["one", "--source"])
}

/// `--budget` bounds the turns, and nothing else.
#[tactic(auto, unfolding(rvmc_cli::specs::Meaning::faults_in, rvmc_cli::specs::Meaning::command_in, rvmc_cli::specs::Commands::line_in, clap::proofs::OnLiterals::clap_on_literals, rvmc_words::specs::Number::number_in))]
pub fn budget_is_heeded(alloc: Global) -> Result<CommandLine, ParseFault>
    ensures { IfOk result (λ line. line ≡ OfImage false (One 5 None None written.Report)) }
{
    parse(alloc, &["one", "--budget", "5"])
}

/// A budget of 0 is refused.
#[tactic(auto, unfolding(rvmc_cli::specs::Meaning::faults_in, rvmc_cli::specs::Meaning::command_in, rvmc_cli::specs::Commands::line_in, clap::proofs::OnLiterals::clap_on_literals, rvmc_words::specs::Number::number_in))]
pub fn budget_of_0_is_refused(alloc: Global) -> Result<CommandLine, ParseFault>
    ensures { IsErr result }
{
    parse(alloc, &["one", "--budget", "0"])
}

/// The greatest budget is taken.
#[tactic(auto, unfolding(rvmc_cli::specs::Meaning::faults_in, rvmc_cli::specs::Meaning::command_in, rvmc_cli::specs::Commands::line_in, clap::proofs::OnLiterals::clap_on_literals, rvmc_words::specs::Number::number_in))]
pub fn budget_of_16777216_is_heeded(alloc: Global) -> Result<CommandLine, ParseFault>
    ensures { IfOk result (λ line. line ≡ OfImage false (One 16777216 None None written.Report)) }
{
    parse(alloc, &["one", "--budget", "16777216"])
}

/// One more is refused.
#[tactic(auto, unfolding(rvmc_cli::specs::Meaning::faults_in, rvmc_cli::specs::Meaning::command_in, rvmc_cli::specs::Commands::line_in, clap::proofs::OnLiterals::clap_on_literals, rvmc_words::specs::Number::number_in))]
pub fn budget_of_16777217_is_refused(alloc: Global) -> Result<CommandLine, ParseFault>
    ensures { IsErr result }
{
    parse(alloc, &["one", "--budget", "16777217"])
}

/// Right words are refused for want of memory alone.
#[tactic(auto, unfolding(rvmc_cli::specs::Meaning::faults_in, rvmc_cli::specs::Meaning::command_in, rvmc_cli::specs::Commands::line_in, clap::proofs::OnLiterals::clap_on_literals))]
pub fn right_words_are_taken(alloc: Global) -> Result<CommandLine, ParseFault>
    ensures { IfErr result (λ fault. fault ≡ faults.Memory) }
{
    parse(alloc, &["one"])
}

/// Who asks for the version is told it, or that memory is wanting, and isn't refused.
#[tactic(auto, unfolding(rvmc_cli::specs::Meaning::faults_in, rvmc_cli::specs::Meaning::command_in, rvmc_cli::specs::Commands::line_in, clap::proofs::OnLiterals::clap_on_literals))]
pub fn version_is_no_refusal(alloc: Global) -> Result<CommandLine, ParseFault>
    ensures { IfErr result (IsParseFault DisplayVersion) }
{
    parse(alloc, &["--version"])
}

/// `--plan` lists harts.
#[tactic(auto, unfolding(rvmc_cli::specs::Meaning::faults_in, rvmc_cli::specs::Meaning::command_in, rvmc_cli::specs::Commands::line_in, clap::proofs::OnLiterals::clap_on_literals, rvmc_words::specs::Number::number_in, rvmc_words::specs::Number::numbers_in))]
pub fn plan_is_for_harts(alloc: Global) -> Result<CommandLine, ParseFault>
    ensures { IfOk result (λ line. line ≡ OfImage false (One 1000000 (Some (0 ∷ 1 ∷ [])) None written.Report)) }
{
    parse(alloc, &["one", "--plan", "0,1"])
}

/// `--order` lists ranks.
#[tactic(auto, unfolding(rvmc_cli::specs::Meaning::faults_in, rvmc_cli::specs::Meaning::command_in, rvmc_cli::specs::Commands::line_in, clap::proofs::OnLiterals::clap_on_literals, rvmc_words::specs::Number::number_in, rvmc_words::specs::Number::numbers_in))]
pub fn order_is_for_ranks(alloc: Global) -> Result<CommandLine, ParseFault>
    ensures { IfOk result (λ line. line ≡ OfImage false (One 1000000 None (Some (1 ∷ 0 ∷ [])) written.Report)) }
{
    parse(alloc, &["one", "--order", "1,0"])
}

/// A list that is none is refused, and not left out.
#[tactic(auto, unfolding(rvmc_cli::specs::Meaning::faults_in, rvmc_cli::specs::Meaning::command_in, rvmc_cli::specs::Commands::line_in, clap::proofs::OnLiterals::clap_on_literals, rvmc_words::specs::Number::number_in, rvmc_words::specs::Number::numbers_in))]
pub fn wrong_order_is_refused(alloc: Global) -> Result<CommandLine, ParseFault>
    ensures { IsErr result }
{
    parse(alloc, &["one", "--order", "0,"])
}

/// `run` runs an image with a lead of 64 turns.
#[tactic(auto, unfolding(rvmc_cli::specs::Meaning::faults_in, rvmc_cli::specs::Meaning::command_in, rvmc_cli::specs::Commands::line_in, clap::proofs::OnLiterals::clap_on_literals))]
pub fn run_leads_by_64(alloc: Global) -> Result<CommandLine, ParseFault>
    ensures { IfOk result (λ line. line ≡ OfImage false (Run 1000000 None 64 written.Report)) }
{
    parse(alloc, &["run"])
}

/// It takes a source, a budget and a plan as `one` does.
#[tactic(auto, unfolding(rvmc_cli::specs::Meaning::faults_in, rvmc_cli::specs::Meaning::command_in, rvmc_cli::specs::Commands::line_in, clap::proofs::OnLiterals::clap_on_literals, rvmc_words::specs::Number::number_in, rvmc_words::specs::Number::numbers_in))]
pub fn run_takes_what_one_takes(alloc: Global) -> Result<CommandLine, ParseFault>
    ensures { IfOk result (λ line. line ≡ OfImage true (Run 5 (Some (0 ∷ 1 ∷ [])) 64 written.Report)) }
{
    parse(
        alloc,
        &["run", "--source", "--budget", "5", "--plan", "0,1"],
    )
}

/// `--lead` bounds the lead, and nothing else.
#[tactic(auto, unfolding(rvmc_cli::specs::Meaning::faults_in, rvmc_cli::specs::Meaning::command_in, rvmc_cli::specs::Commands::line_in, clap::proofs::OnLiterals::clap_on_literals, rvmc_words::specs::Number::number_in))]
pub fn lead_of_1_is_heeded(alloc: Global) -> Result<CommandLine, ParseFault>
    ensures { IfOk result (λ line. line ≡ OfImage false (Run 1000000 None 1 written.Report)) }
{
    parse(alloc, &["run", "--lead", "1"])
}

/// It may stand behind an equals sign.
#[tactic(auto, unfolding(rvmc_cli::specs::Meaning::faults_in, rvmc_cli::specs::Meaning::command_in, rvmc_cli::specs::Commands::line_in, clap::proofs::OnLiterals::clap_on_literals, rvmc_words::specs::Number::number_in))]
pub fn lead_behind_an_equals_sign_is_heeded(alloc: Global) -> Result<CommandLine, ParseFault>
    ensures { IfOk result (λ line. line ≡ OfImage false (Run 1000000 None 5 written.Report)) }
{
    parse(alloc, &["run", "--lead=5"])
}

/// The greatest lead is taken.
#[tactic(auto, unfolding(rvmc_cli::specs::Meaning::faults_in, rvmc_cli::specs::Meaning::command_in, rvmc_cli::specs::Commands::line_in, clap::proofs::OnLiterals::clap_on_literals, rvmc_words::specs::Number::number_in))]
pub fn lead_of_65536_is_heeded(alloc: Global) -> Result<CommandLine, ParseFault>
    ensures { IfOk result (λ line. line ≡ OfImage false (Run 1000000 None 65536 written.Report)) }
{
    parse(alloc, &["run", "--lead", "65536"])
}

/// One more is refused.
#[tactic(auto, unfolding(rvmc_cli::specs::Meaning::faults_in, rvmc_cli::specs::Meaning::command_in, rvmc_cli::specs::Commands::line_in, clap::proofs::OnLiterals::clap_on_literals, rvmc_words::specs::Number::number_in))]
pub fn lead_of_65537_is_refused(alloc: Global) -> Result<CommandLine, ParseFault>
    ensures { IsErr result }
{
    parse(alloc, &["run", "--lead", "65537"])
}

/// A lead of 0 is refused.
#[tactic(auto, unfolding(rvmc_cli::specs::Meaning::faults_in, rvmc_cli::specs::Meaning::command_in, rvmc_cli::specs::Commands::line_in, clap::proofs::OnLiterals::clap_on_literals, rvmc_words::specs::Number::number_in))]
pub fn lead_of_0_is_refused(alloc: Global) -> Result<CommandLine, ParseFault>
    ensures { IsErr result }
{
    parse(alloc, &["run", "--lead", "0"])
}

/// A lead that is given twice is refused.
#[tactic(auto, unfolding(rvmc_cli::specs::Meaning::faults_in, rvmc_cli::specs::Meaning::command_in, rvmc_cli::specs::Commands::line_in, clap::proofs::OnLiterals::clap_on_literals, rvmc_words::specs::Number::number_in))]
pub fn lead_twice_is_refused(alloc: Global) -> Result<CommandLine, ParseFault>
    ensures { IsErr result }
{
    parse(alloc, &["run", "--lead", "5", "--lead", "5"])
}

/// `one` has no lead.
#[tactic(auto, unfolding(rvmc_cli::specs::Meaning::faults_in, rvmc_cli::specs::Meaning::command_in, rvmc_cli::specs::Commands::line_in, clap::proofs::OnLiterals::clap_on_literals, rvmc_words::specs::Number::number_in))]
pub fn lead_of_one_is_refused(alloc: Global) -> Result<CommandLine, ParseFault>
    ensures { IsErr result }
{
    parse(alloc, &["one", "--lead", "5"])
}

/// `run` has no order.
#[tactic(auto, unfolding(rvmc_cli::specs::Meaning::faults_in, rvmc_cli::specs::Meaning::command_in, rvmc_cli::specs::Commands::line_in, clap::proofs::OnLiterals::clap_on_literals, rvmc_words::specs::Number::number_in, rvmc_words::specs::Number::numbers_in))]
pub fn order_of_run_is_refused(alloc: Global) -> Result<CommandLine, ParseFault>
    ensures { IsErr result }
{
    parse(alloc, &["run", "--order", "1,0"])
}

/// `--record` asks for the record, and for nothing else.
#[tactic(auto, unfolding(rvmc_cli::specs::Meaning::faults_in, rvmc_cli::specs::Meaning::command_in, rvmc_cli::specs::Commands::line_in, clap::proofs::OnLiterals::clap_on_literals))]
pub fn record_of_run(alloc: Global) -> Result<CommandLine, ParseFault>
    ensures { IfOk result (λ line. line ≡ OfImage false (Run 1000000 None 64 written.Record)) }
{
    parse(alloc, &["run", "--record"])
}

/// The same of a run on one thread.
#[tactic(auto, unfolding(rvmc_cli::specs::Meaning::faults_in, rvmc_cli::specs::Meaning::command_in, rvmc_cli::specs::Commands::line_in, clap::proofs::OnLiterals::clap_on_literals))]
pub fn record_of_one(alloc: Global) -> Result<CommandLine, ParseFault>
    ensures { IfOk result (λ line. line ≡ OfImage false (One 1000000 None None written.Record)) }
{
    parse(alloc, &["one", "--record"])
}

/// A record is written of a source's run, too.
#[tactic(auto, unfolding(rvmc_cli::specs::Meaning::faults_in, rvmc_cli::specs::Meaning::command_in, rvmc_cli::specs::Commands::line_in, clap::proofs::OnLiterals::clap_on_literals))]
pub fn record_of_a_source(alloc: Global) -> Result<CommandLine, ParseFault>
    ensures { IfOk result (λ line. line ≡ OfImage true (One 1000000 None None written.Record)) }
{
    parse(alloc, &["one", "--record", "--source"])
}

/// A run on one thread may end at a deadlock.
#[tactic(auto, unfolding(rvmc_cli::specs::Meaning::faults_in, rvmc_cli::specs::Meaning::command_in, rvmc_cli::specs::Commands::line_in, clap::proofs::OnLiterals::clap_on_literals))]
pub fn one_until_stuck(alloc: Global) -> Result<CommandLine, ParseFault>
    ensures { IfOk result (λ line. line ≡ OfImage true (OneUntilStuck 1000000 None None written.Report)) }
{
    parse(alloc, &["one", "--source", "--until-stuck"])
}

/// `report` tells of a record.
#[tactic(auto, unfolding(rvmc_cli::specs::Meaning::faults_in, rvmc_cli::specs::Meaning::command_in, rvmc_cli::specs::Commands::line_in, clap::proofs::OnLiterals::clap_on_literals))]
pub fn report_tells_of_a_record(alloc: Global) -> Result<CommandLine, ParseFault>
    ensures { IfOk result (λ line. line ≡ OfRecord Report) }
{
    parse(alloc, &["report"])
}

/// `check` checks.
#[tactic(auto, unfolding(rvmc_cli::specs::Meaning::faults_in, rvmc_cli::specs::Meaning::command_in, rvmc_cli::specs::Commands::line_in, clap::proofs::OnLiterals::clap_on_literals))]
pub fn check_checks(alloc: Global) -> Result<CommandLine, ParseFault>
    ensures { IfOk result (λ line. line ≡ OfRecord Check) }
{
    parse(alloc, &["check"])
}

/// It writes no record.
#[tactic(auto, unfolding(rvmc_cli::specs::Meaning::faults_in, rvmc_cli::specs::Meaning::command_in, rvmc_cli::specs::Commands::line_in, clap::proofs::OnLiterals::clap_on_literals))]
pub fn record_of_a_check_is_refused(alloc: Global) -> Result<CommandLine, ParseFault>
    ensures { IsErr result }
{
    parse(alloc, &["check", "--record"])
}

/// `--why` asks for what harts wait for, behind the report.
#[tactic(auto, unfolding(rvmc_cli::specs::Meaning::faults_in, rvmc_cli::specs::Meaning::command_in, rvmc_cli::specs::Commands::line_in, clap::proofs::OnLiterals::clap_on_literals))]
pub fn why_of_one(alloc: Global) -> Result<CommandLine, ParseFault>
    ensures { IfOk result (λ line. line ≡ OfImage false (One 1000000 None None (written.Why false))) }
{
    parse(alloc, &["one", "--why"])
}

/// The same of a run with threads.
#[tactic(auto, unfolding(rvmc_cli::specs::Meaning::faults_in, rvmc_cli::specs::Meaning::command_in, rvmc_cli::specs::Commands::line_in, clap::proofs::OnLiterals::clap_on_literals))]
pub fn why_of_run(alloc: Global) -> Result<CommandLine, ParseFault>
    ensures { IfOk result (λ line. line ≡ OfImage false (Run 1000000 None 64 (written.Why false))) }
{
    parse(alloc, &["run", "--why"])
}

/// A record has no place for it.
#[tactic(auto, unfolding(rvmc_cli::specs::Meaning::faults_in, rvmc_cli::specs::Meaning::command_in, rvmc_cli::specs::Commands::line_in, clap::proofs::OnLiterals::clap_on_literals))]
pub fn why_and_record_are_refused(alloc: Global) -> Result<CommandLine, ParseFault>
    ensures { IsErr result }
{
    parse(alloc, &["one", "--why", "--record"])
}

/// In whatever order they stand.
#[tactic(auto, unfolding(rvmc_cli::specs::Meaning::faults_in, rvmc_cli::specs::Meaning::command_in, rvmc_cli::specs::Commands::line_in, clap::proofs::OnLiterals::clap_on_literals))]
pub fn record_and_why_are_refused(alloc: Global) -> Result<CommandLine, ParseFault>
    ensures { IsErr result }
{
    parse(alloc, &["run", "--record", "--why"])
}

/// `why` tells of a record's end.
#[tactic(auto, unfolding(rvmc_cli::specs::Meaning::faults_in, rvmc_cli::specs::Meaning::command_in, rvmc_cli::specs::Commands::line_in, clap::proofs::OnLiterals::clap_on_literals))]
pub fn why_tells_of_the_end(alloc: Global) -> Result<CommandLine, ParseFault>
    ensures { IfOk result (λ line. line ≡ OfRecord (Why None false)) }
{
    parse(alloc, &["why"])
}

/// With `--at` of the place with so many steps done, the start too.
#[tactic(auto, unfolding(rvmc_cli::specs::Meaning::faults_in, rvmc_cli::specs::Meaning::command_in, rvmc_cli::specs::Commands::line_in, clap::proofs::OnLiterals::clap_on_literals, rvmc_words::specs::Number::number_in))]
pub fn why_tells_of_the_start(alloc: Global) -> Result<CommandLine, ParseFault>
    ensures { IfOk result (λ line. line ≡ OfRecord (Why (Some 0) false)) }
{
    parse(alloc, &["why", "--at", "0"])
}

/// With `--frames` also of calls.
#[tactic(auto, unfolding(rvmc_cli::specs::Meaning::faults_in, rvmc_cli::specs::Meaning::command_in, rvmc_cli::specs::Commands::line_in, clap::proofs::OnLiterals::clap_on_literals))]
pub fn why_tells_of_calls(alloc: Global) -> Result<CommandLine, ParseFault>
    ensures { IfOk result (λ line. line ≡ OfRecord (Why None true)) }
{
    parse(alloc, &["why", "--frames"])
}

/// No record has more steps than a `u64` counts.
#[tactic(auto, unfolding(rvmc_cli::specs::Meaning::faults_in, rvmc_cli::specs::Meaning::command_in, rvmc_cli::specs::Commands::line_in, clap::proofs::OnLiterals::clap_on_literals, rvmc_words::specs::Number::number_in))]
pub fn place_of_65_bits_is_refused(alloc: Global) -> Result<CommandLine, ParseFault>
    ensures { IsErr result }
{
    parse(alloc, &["why", "--at", "18446744073709551616"])
}

/// No other word is a command.
#[tactic(auto, unfolding(rvmc_cli::specs::Meaning::faults_in, rvmc_cli::specs::Meaning::command_in, rvmc_cli::specs::Commands::line_in, clap::proofs::OnLiterals::clap_on_literals))]
pub fn other_commands_are_refused(alloc: Global) -> Result<CommandLine, ParseFault>
    ensures { IsErr result }
{
    parse(alloc, &["fly"])
}

/// A flag without its command is refused.
#[tactic(auto, unfolding(rvmc_cli::specs::Meaning::faults_in, rvmc_cli::specs::Meaning::command_in, rvmc_cli::specs::Commands::line_in, clap::proofs::OnLiterals::clap_on_literals))]
pub fn flag_alone_is_refused(alloc: Global) -> Result<CommandLine, ParseFault>
    ensures { IsErr result }
{
    parse(alloc, &["--source"])
}

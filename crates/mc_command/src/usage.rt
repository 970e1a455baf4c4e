//! The command line that `clap` reads: a command with one level of subcommands.
ghost use Rattle.std.specs.Prelude.{◌≡◌, IfOk, codes, false};
ghost use Rattle.clap.specs.declared.builder.command.Command.TheViews.{out-Command as fields_of};
ghost use Rattle.clap.specs.Words.{app_of, new_app, rule_of};
ghost use Rattle.mc_command.specs.Usage.{analyse_app, files_app, line_app, list_app, merge_app, mutate_app, option_rule, part_app, positional_rule, reduce_app, report_app, report_rules, run_app, selfload_app, source_app, watch_app, with_closing_commands, with_making_commands, with_other_commands, with_record_commands, with_rules, with_run_commands, with_tester_commands};

use clap::{Arg, Command};
use std::alloc::{AllocError, Global};

// A positional that has to be given.
fn positional<'w>(alloc: Global, name: &'w str) -> Arg<'w>
    ensures rule { rule_of result ≡ positional_rule name.entry.now }
    ensures local { result.global ≡ false }
{
    Arg::new(alloc, name).required(true)
}

// An option of one value.
fn option<'w>(alloc: Global, name: &'w str) -> Arg<'w>
    ensures rule { rule_of result ≡ option_rule name.entry.now }
    ensures local { result.global ≡ false }
{
    Arg::new(alloc, name).long(name)
}

// A command on the source and one more file: `NAME SOURCE OTHER`
fn on_files<'w>(alloc: Global, name: &'w str, other: &'w str) -> Result<Command<'w>, AllocError>
    ensures app { IfOk result (λ c. app_of c ≡ files_app name.entry.now other.entry.now) }
    ensures local { IfOk result (λ c. (fields_of c).has_globals ≡ false) }
{
    Command::new(alloc, name)
        .arg(positional(alloc, "source"))?
        .arg(positional(alloc, other))
}

// A command that runs the tests: `NAME SOURCE TESTS [--workers N] [--fuel N]`
fn run<'w>(alloc: Global, name: &'w str) -> Result<Command<'w>, AllocError>
    ensures app { IfOk result (λ c. app_of c ≡ run_app name.entry.now) }
    ensures local { IfOk result (λ c. (fields_of c).has_globals ≡ false) }
{
    let command = on_files(alloc, name, "tests")?;
    command
        .arg(option(alloc, "workers"))?
        .arg(option(alloc, "fuel"))
}

// `[--mode M] [--justify NAME] [--format F]`
fn with_report_options<'w>(alloc: Global, command: Command<'w>) -> Result<Command<'w>, AllocError>
    requires { (fields_of command).has_globals ≡ false }
    ensures app { IfOk result (λ c.
        app_of c ≡ with_rules (app_of command.entry) report_rules) }
    ensures local { IfOk result (λ c. (fields_of c).has_globals ≡ false) }
{
    command
        .arg(option(alloc, "mode"))?
        .arg(option(alloc, "justify"))?
        .arg(option(alloc, "format"))
}

fn report<'w>(alloc: Global) -> Result<Command<'w>, AllocError>
    ensures app { IfOk result (λ c. app_of c ≡ report_app) }
    ensures local { IfOk result (λ c. (fields_of c).has_globals ≡ false) }
{
    let command = run(alloc, "report")?;
    with_report_options(alloc, command)
}

fn vectors<'w>(alloc: Global) -> Result<Command<'w>, AllocError>
    ensures app { IfOk result (λ c. app_of c ≡ run_app (codes "vectors")) }
    ensures local { IfOk result (λ c. (fields_of c).has_globals ≡ false) }
{
    run(alloc, "vectors")
}

// `record SOURCE TESTS [--workers N] [--fuel N]`
fn recorded<'w>(alloc: Global) -> Result<Command<'w>, AllocError>
    ensures app { IfOk result (λ c. app_of c ≡ run_app (codes "record")) }
    ensures local { IfOk result (λ c. (fields_of c).has_globals ≡ false) }
{
    run(alloc, "record")
}

// `watch SOURCE TESTS [--workers N] [--fuel N] [--looks N]`
fn watch<'w>(alloc: Global) -> Result<Command<'w>, AllocError>
    ensures app { IfOk result (λ c. app_of c ≡ watch_app) }
    ensures local { IfOk result (λ c. (fields_of c).has_globals ≡ false) }
{
    let command = run(alloc, "watch")?;
    command.arg(option(alloc, "looks"))
}

// `reduce SOURCE TESTS [--workers N] [--fuel N] [--mode M]`
fn reduce<'w>(alloc: Global) -> Result<Command<'w>, AllocError>
    ensures app { IfOk result (λ c. app_of c ≡ reduce_app) }
    ensures local { IfOk result (λ c. (fields_of c).has_globals ≡ false) }
{
    let command = run(alloc, "reduce")?;
    command.arg(option(alloc, "mode"))
}

// `mutate SOURCE TESTS [--workers N] [--fuel N]`
fn mutate<'w>(alloc: Global) -> Result<Command<'w>, AllocError>
    ensures app { IfOk result (λ c. app_of c ≡ mutate_app) }
    ensures local { IfOk result (λ c. (fields_of c).has_globals ≡ false) }
{
    run(alloc, "mutate")
}

// `list SOURCE TESTS [--workers N] [--fuel N] [--mode M] [--justify NAME]`
fn list<'w>(alloc: Global) -> Result<Command<'w>, AllocError>
    ensures app { IfOk result (λ c. app_of c ≡ list_app) }
    ensures local { IfOk result (λ c. (fields_of c).has_globals ≡ false) }
{
    let command = run(alloc, "list")?;
    command
        .arg(option(alloc, "mode"))?
        .arg(option(alloc, "justify"))
}

// `NAME SOURCE TESTS [--workers N] [--fuel N] [--mode M] [--justify NAME] [--of NAME]`
fn on_part<'w>(alloc: Global, name: &'w str) -> Result<Command<'w>, AllocError>
    ensures app { IfOk result (λ c. app_of c ≡ part_app name.entry.now) }
    ensures local { IfOk result (λ c. (fields_of c).has_globals ≡ false) }
{
    let command = run(alloc, name)?;
    command
        .arg(option(alloc, "mode"))?
        .arg(option(alloc, "justify"))?
        .arg(option(alloc, "of"))
}

fn functions<'w>(alloc: Global) -> Result<Command<'w>, AllocError>
    ensures app { IfOk result (λ c. app_of c ≡ part_app (codes "functions")) }
    ensures local { IfOk result (λ c. (fields_of c).has_globals ≡ false) }
{
    on_part(alloc, "functions")
}

fn needs<'w>(alloc: Global) -> Result<Command<'w>, AllocError>
    ensures app { IfOk result (λ c. app_of c ≡ part_app (codes "needs")) }
    ensures local { IfOk result (λ c. (fields_of c).has_globals ≡ false) }
{
    on_part(alloc, "needs")
}

// `results SOURCE TESTS [--workers N] [--fuel N]`
fn results<'w>(alloc: Global) -> Result<Command<'w>, AllocError>
    ensures app { IfOk result (λ c. app_of c ≡ run_app (codes "results")) }
    ensures local { IfOk result (λ c. (fields_of c).has_globals ≡ false) }
{
    run(alloc, "results")
}

// A command on the source alone: `NAME SOURCE`
fn on_source<'w>(alloc: Global, name: &'w str) -> Result<Command<'w>, AllocError>
    ensures app { IfOk result (λ c. app_of c ≡ source_app name.entry.now) }
    ensures local { IfOk result (λ c. (fields_of c).has_globals ≡ false) }
{
    Command::new(alloc, name).arg(positional(alloc, "source"))
}

fn instrument<'w>(alloc: Global) -> Result<Command<'w>, AllocError>
    ensures app { IfOk result (λ c. app_of c ≡ source_app (codes "instrument")) }
    ensures local { IfOk result (λ c. (fields_of c).has_globals ≡ false) }
{
    on_source(alloc, "instrument")
}

fn adapt<'w>(alloc: Global) -> Result<Command<'w>, AllocError>
    ensures app { IfOk result (λ c. app_of c ≡ source_app (codes "adapt")) }
    ensures local { IfOk result (λ c. (fields_of c).has_globals ≡ false) }
{
    on_source(alloc, "adapt")
}

fn merge<'w>(alloc: Global) -> Result<Command<'w>, AllocError>
    ensures app { IfOk result (λ c. app_of c ≡ merge_app) }
    ensures local { IfOk result (λ c. (fields_of c).has_globals ≡ false) }
{
    let command = on_files(alloc, "merge", "left")?;
    command.arg(positional(alloc, "right"))
}

fn analyse<'w>(alloc: Global) -> Result<Command<'w>, AllocError>
    ensures app { IfOk result (λ c. app_of c ≡ analyse_app) }
    ensures local { IfOk result (λ c. (fields_of c).has_globals ≡ false) }
{
    let command = on_files(alloc, "analyse", "record")?;
    with_report_options(alloc, command)
}

fn selfload<'w>(alloc: Global) -> Result<Command<'w>, AllocError>
    ensures app { IfOk result (λ c. app_of c ≡ selfload_app) }
    ensures local { IfOk result (λ c. (fields_of c).has_globals ≡ false) }
{
    Command::new(alloc, "selfload")
        .arg(positional(alloc, "count"))?
        .arg(option(alloc, "workers"))
}

// The commands that run the tests of a source.
fn with_run_commands<'w>(alloc: Global, line: Command<'w>) -> Result<Command<'w>, AllocError>
    ensures { IfOk result (λ c. app_of c ≡ with_run_commands (app_of line.entry)) }
{
    let report = report(alloc)?;
    let vectors = vectors(alloc)?;
    let recorded = recorded(alloc)?;
    line.subcommand(report)?
        .subcommand(vectors)?
        .subcommand(recorded)
}

// The commands that run the tests of a source to look at them, to choose among them, and to try
// them on its mutants.
fn with_tester_commands<'w>(alloc: Global, line: Command<'w>) -> Result<Command<'w>, AllocError>
    ensures { IfOk result (λ c. app_of c ≡ with_tester_commands (app_of line.entry)) }
{
    let watch = watch(alloc)?;
    let reduce = reduce(alloc)?;
    let mutate = mutate(alloc)?;
    line.subcommand(watch)?
        .subcommand(reduce)?
        .subcommand(mutate)
}

// The commands on records.
fn with_record_commands<'w>(alloc: Global, line: Command<'w>) -> Result<Command<'w>, AllocError>
    ensures { IfOk result (λ c. app_of c ≡ with_record_commands (app_of line.entry)) }
{
    let merge = merge(alloc)?;
    let analyse = analyse(alloc)?;
    line.subcommand(merge)?.subcommand(analyse)
}

// The commands that write a source out, and the one on a source that the program makes itself.
fn with_other_commands<'w>(alloc: Global, line: Command<'w>) -> Result<Command<'w>, AllocError>
    ensures { IfOk result (λ c. app_of c ≡ with_other_commands (app_of line.entry)) }
{
    let list = list(alloc)?;
    let instrument = instrument(alloc)?;
    let selfload = selfload(alloc)?;
    line.subcommand(list)?
        .subcommand(instrument)?
        .subcommand(selfload)
}

// The commands that help to close a report.
fn with_closing_commands<'w>(alloc: Global, line: Command<'w>) -> Result<Command<'w>, AllocError>
    ensures { IfOk result (λ c. app_of c ≡ with_closing_commands (app_of line.entry)) }
{
    let functions = functions(alloc)?;
    let needs = needs(alloc)?;
    let results = results(alloc)?;
    line.subcommand(functions)?
        .subcommand(needs)?
        .subcommand(results)
}

// The command that makes a source of a preprocessed text.
fn with_making_commands<'w>(alloc: Global, line: Command<'w>) -> Result<Command<'w>, AllocError>
    ensures { IfOk result (λ c. app_of c ≡ with_making_commands (app_of line.entry)) }
{
    let adapt = adapt(alloc)?;
    line.subcommand(adapt)
}

/// The command line of the program.
pub fn line_command<'w>(alloc: Global) -> Result<Command<'w>, AllocError>
    ensures { IfOk result (λ c. app_of c ≡ line_app) }
{
    let line = with_run_commands(alloc, Command::new(alloc, "mcdc"))?;
    let line = with_tester_commands(alloc, line)?;
    let line = with_record_commands(alloc, line)?;
    let line = with_other_commands(alloc, line)?;
    let line = with_closing_commands(alloc, line)?;
    with_making_commands(alloc, line)
}

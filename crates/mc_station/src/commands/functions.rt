//! The command `functions`.
ghost use Rattle.std.specs.Prelude.{◌≡◌, IfOk, length, option_map};
ghost use Rattle.mc_functions.specs.Seen.{measured_of};
ghost use Rattle.mc_functions.specs.Status as functions;
ghost use Rattle.mc_functions.specs.Text.{function_lines};
ghost use Rattle.mc_report.specs.Report.{IsReport};
ghost use Rattle.mc_report.specs.Seen.{report_of};
ghost use Rattle.station_replies.specs.Reply.{written};
ghost use Rattle.mc_station.specs.Replied.{seen_reply};
ghost use Rattle.mc_station.specs.commands.Report.{measured, parts_measured};

use crate::reply::Reply;
use mc_functions::{Measured, function_lines, functions_status};
use mc_oblige::{Obligation, Verdict};
use mc_places::Places;
use mc_report::Report;
use mc_typed::TestState;
use std::alloc::{AllocError, Global};

/// The bytes of a name, where there is one.
pub fn bytes_in(name: Option<&str>) -> Option<&[u8]>
    ensures { option_map (λ bytes. bytes.now) result ≡ option_map (λ name. name.now) name.entry }
{
    match name {
        Some(name) => Some(name.as_bytes()),
        None => None,
    }
}

// The counts by function of what is measured, and their status.
fn counted<'a>(alloc: Global, measured: &Measured<'_>) -> Result<Reply<'a>, AllocError>
    requires { let m = measured_of measured.now in length m.verdicts ≡ length m.obligations }
    ensures { IfOk result (λ reply. let m = measured_of measured.now in
        seen_reply reply ≡ written (functions.status_of m) (function_lines m)) }
{
    let number = functions_status(measured);
    let lines = function_lines(alloc, measured)?;
    Ok(Reply::of_lines(alloc, number, lines))
}

// The same of the parts of a report.
fn of_parts<'a>(
    alloc: Global,
    places: &Places<'_>,
    obligations: &[Obligation],
    verdicts: &[Verdict],
    states: &[TestState],
    file: Option<&[u8]>,
) -> Result<Reply<'a>, AllocError>
    requires { length verdicts.now ≡ length obligations.now }
    ensures { IfOk result (λ reply. let m = parts_measured places.now.text.now obligations.now
        verdicts.now states.now (option_map (λ name. name.now) file.entry) in
        seen_reply reply ≡ written (functions.status_of m) (function_lines m)) }
{
    let measured = Measured {
        places,
        obligations,
        verdicts,
        states,
        file,
    };
    counted(alloc, &measured)
}

/// How many obligations of a report are met in each function, with the status of those that are
/// counted. `of` names the file of the source whose obligations alone are.
pub fn functions<'a>(
    alloc: Global,
    of: Option<&str>,
    report: &Report<'_>,
) -> Result<Reply<'a>, AllocError>
    requires { IsReport (report_of report.now) }
    ensures { IfOk result (λ reply.
        let m = measured (option_map (λ name. name.now) of.entry) (report_of report.now) in
        seen_reply reply ≡ written (functions.status_of m) (function_lines m)) }
{
    let places = Places::of(alloc, report.source)?;
    let file = bytes_in(of);
    of_parts(
        alloc,
        &places,
        &report.obligations,
        &report.verdicts,
        &report.states,
        file,
    )
}

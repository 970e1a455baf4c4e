//! The command `needs`.
ghost use Rattle.std.specs.Prelude.{◌≡◌, ◌∷◌, List, Ok, IfOk, length, option_map};
ghost use Rattle.std.specs.List.{concat};
ghost use Rattle.mc_functions.specs.Asked.{needs_sums};
ghost use Rattle.mc_functions.specs.Seen.{measured_of};
ghost use Rattle.mc_lex.specs.Tokens.{toks_of};
ghost use Rattle.mc_oblige.specs.Obligations.{obligations_of};
ghost use Rattle.mc_oblige.specs.Shown.{HasEvent};
ghost use Rattle.mc_oblige.specs.Verdicts.{AreVerdicts};
ghost use Rattle.mc_oblige.specs.declared.justification.Justification.{Justification};
ghost use Rattle.mc_port.specs.Lines.{bytes_of};
ghost use Rattle.mc_probe.specs.BitMaps.{map_of};
ghost use Rattle.mc_report.specs.Report.{IsReport};
ghost use Rattle.mc_report.specs.Seen.{report_of};
ghost use Rattle.needs_lines.specs.Report.{IsReport as CanBeTold};
ghost use Rattle.needs_lines.specs.Seen.{report_of as told_of};
ghost use Rattle.needs_lines.specs.Text.{needs_lines};
ghost use Rattle.mc_station.specs.Ran.{IsJudgedBy};
ghost use Rattle.mc_station.specs.Replied.{seen_reply};
ghost use Rattle.mc_station.specs.Seen.{HasTokens};
ghost use Rattle.mc_station.specs.Source.{Lexes};
ghost use Rattle.mc_station.specs.commands.Report.{NeedsIn, measured};

use crate::commands::functions::bytes_in;
use crate::commands::instrument::tokens_of;
use crate::reply::Reply;
use mc_core::Matrix;
use mc_functions::{Measured, asked, functions_status, push_needs_sums};
use mc_lex::Token;
use mc_needs::needs as needs_of_asked;
use mc_oblige::Mode;
use mc_places::Places;
use mc_probe::BitMap;
use mc_report::Report;
use mc_typed::Name;
use needs_lines::{NeedsReport, needs_lines};
use std::alloc::{AllocError, Global};

// The lines on what is needed as one text, and their sums.
fn lines_of(
    alloc: Global,
    told: &NeedsReport<'_>,
    measured: &Measured<'_>,
) -> Result<Vec<Vec<u8>>, AllocError>
    requires told { CanBeTold (told_of told.now) }
    requires many { let m = measured_of measured.now in length m.verdicts ≡ length m.obligations }
    ensures { IfOk result (λ pieces. let r = told_of told.now in bytes_of pieces.items
        ≡ concat (needs_lines r) ∷ needs_sums (measured_of measured.now)
        (length r.needs.wanted)) }
{
    let mut lines = Vec::new(alloc);
    lines.push(needs_lines(alloc, told)?)?;
    push_needs_sums(alloc, &mut lines, measured, told.needs.wanted.len())?;
    Ok(lines)
}

// The reply on what is needed, where the obligations are those of the map, with the verdicts of the
// events of the matrix.
fn told<'a>(
    alloc: Global,
    measured: &Measured<'_>,
    map: &BitMap,
    matrix: &Matrix,
    mode: Mode,
    names: &[Name],
    tokens: &[Token<'_>],
) -> Result<Reply<'a>, AllocError>
    requires many { let m = measured_of measured.now in length m.verdicts ≡ length m.obligations }
    requires shape { matrix.now.shape
        ≡ record { bits = (map_of map.now).bits; tests = length names.now } }
    requires tokens { Lexes (measured_of measured.now).source (Ok (toks_of tokens.now)) }
    requires obligations { (measured_of measured.now).obligations
        ≡ obligations_of (map_of map.now) }
    requires verdicts { (named : List Justification) × AreVerdicts
        (HasEvent (map_of map.now) matrix.now) (map_of map.now) mode named
        (measured_of measured.now).verdicts }
    ensures { IfOk result (λ reply. let m = map_of map.now in
        NeedsIn (HasEvent m matrix.now) m mode (measured_of measured.now) names.now
        (seen_reply reply)) }
{
    let asked = asked(alloc, measured)?;
    let needs = needs_of_asked(alloc, map, matrix, mode, &asked)?;
    let told = NeedsReport {
        places: measured.places,
        tokens,
        names,
        decisions: &map.decisions,
        obligations: measured.obligations,
        asked: &asked,
        needs: &needs,
    };
    let lines = lines_of(alloc, &told, measured)?;
    Ok(Reply::of_lines(alloc, functions_status(measured), lines))
}

// The same of a report, with the places of its source and its tokens.
fn of_report<'a>(
    alloc: Global,
    of: Option<&str>,
    report: &Report<'_>,
    matrix: &Matrix,
    places: &Places<'_>,
    tokens: &[Token<'_>],
) -> Result<Reply<'a>, AllocError>
    requires report { IsReport (report_of report.now) }
    requires judged { IsJudgedBy matrix.now (map_of report.now.map) (report_of report.now) }
    requires places { places.now.text.now ≡ report.now.source.now }
    requires tokens { Lexes report.now.source.now (Ok (toks_of tokens.now)) }
    ensures { IfOk result (λ reply. let m = map_of report.now.map in
        let r = report_of report.now in
        NeedsIn (HasEvent m matrix.now) m r.mode
        (measured (option_map (λ name. name.now) of.entry) r)
        r.names (seen_reply reply)) }
{
    let file = bytes_in(of);
    let measured = Measured {
        places,
        obligations: &report.obligations,
        verdicts: &report.verdicts,
        states: &report.states,
        file,
    };
    told(
        alloc,
        &measured,
        &report.map,
        matrix,
        report.mode,
        &report.names,
        tokens,
    )
}

/// Which vectors would show the obligations of a report that are missing, with the status of those
/// that are counted. `of` names the file of the source whose obligations alone are.
pub fn needs<'a>(
    alloc: Global,
    of: Option<&str>,
    report: &Report<'_>,
    matrix: &Matrix,
) -> Result<Reply<'a>, AllocError>
    requires report { IsReport (report_of report.now) }
    requires tokens { HasTokens report.now.source.now }
    requires judged { let m = map_of report.now.map in
        IsJudgedBy matrix.now m (report_of report.now) }
    ensures { IfOk result (λ reply. let m = map_of report.now.map in
        let r = report_of report.now in
        NeedsIn (HasEvent m matrix.now) m r.mode
        (measured (option_map (λ name. name.now) of.entry) r)
        r.names (seen_reply reply)) }
{
    let places = Places::of(alloc, report.source)?;
    let tokens = tokens_of(alloc, report.source)?;
    of_report(alloc, of, report, matrix, &places, &tokens)
}

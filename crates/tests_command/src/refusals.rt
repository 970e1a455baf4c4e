//! Lines that are not commands, by the definition. The functions do nothing: each has a law as its
//! contract.
#![tactic(auto, unfolding(mc_command::specs::Command::command_of, clap::proofs::OnLiterals::clap_on_literals))]

ghost use Rattle.std.specs.Prelude.{◌≡◌, ◌∷◌, [], None, codes};
ghost use Rattle.mc_command.specs.Command.{command_of};
ghost use Rattle.tests_command.specs.Lines.{AreNone};

/// A line begins with the name of a command, as it stands.
pub fn other_names()
    ensures no_words { command_of [] ≡ None }
    ensures unknown { AreNone (codes "run a.c a.csv" ∷ codes "Report a.c a.csv"
        ∷ codes "rep a.c a.csv" ∷ codes " a.c a.csv" ∷ codes "a.c a.csv report" ∷ []) }
    ensures options { AreNone (codes "--fuel 8 vectors a.c a.csv"
        ∷ codes "-- vectors a.c a.csv" ∷ codes "--" ∷ codes "-" ∷ []) }
{}

/// A wish for help or for a version is not a command.
pub fn wishes_for_help()
    ensures alone { AreNone (codes "--help" ∷ codes "-h" ∷ codes "help" ∷ codes "--version"
        ∷ codes "-V" ∷ codes "help report" ∷ codes "help none" ∷ []) }
    ensures after { AreNone (codes "report --help" ∷ codes "vectors a.c a.csv -h"
        ∷ codes "report a.c a.csv --help" ∷ codes "report a.c a.csv --version" ∷ []) }
{}

/// There are two files.
pub fn two_files()
    ensures fewer { AreNone (codes "report" ∷ codes "vectors a.c" ∷ codes "vectors --"
        ∷ codes "vectors a.c --" ∷ []) }
    ensures more { AreNone (codes "vectors a.c a.csv b.csv" ∷ codes "vectors a.c a.csv "
        ∷ codes "vectors a.c a.csv -" ∷ codes "vectors a.c a.csv -- --fuel 8" ∷ []) }
    ensures dash { AreNone (codes "vectors -a.c a.csv" ∷ codes "vectors a.c -a.csv" ∷ []) }
{}

/// An option stands once, with a value, under its whole name, and with the commands that have it.
pub fn options_that_are_none()
    ensures again { AreNone (codes "vectors a.c a.csv --fuel 5 --fuel 5"
        ∷ codes "vectors --fuel=5 a.c a.csv --fuel=5"
        ∷ codes "report a.c a.csv --mode unique --mode unique"
        ∷ codes "report a.c a.csv --justify a --justify a"
        ∷ codes "report a.c a.csv --format text --format text" ∷ []) }
    ensures no_value { AreNone (codes "vectors a.c a.csv --fuel"
        ∷ codes "report a.c a.csv --fuel --mode unique" ∷ codes "report a.c a.csv --mode"
        ∷ codes "report a.c a.csv --justify" ∷ codes "report a.c a.csv --format --" ∷ []) }
    ensures other { AreNone (codes "vectors a.c a.csv --mode unique"
        ∷ codes "vectors a.c a.csv --justify j.json" ∷ codes "vectors a.c a.csv --format text"
        ∷ codes "vectors a.c a.csv --worker 4" ∷ codes "report a.c a.csv --json" ∷ []) }
    ensures shortened { AreNone (codes "report a.c a.csv --mo unique"
        ∷ codes "report a.c a.csv --f 8" ∷ codes "report a.c a.csv -m unique"
        ∷ codes "report a.c a.csv -fuel 8" ∷ codes "report a.c a.csv ---fuel 8" ∷ []) }
{}

/// A mode, and a form, is one of those that exist.
pub fn other_values()
    ensures mode { AreNone (codes "report a.c a.csv --mode both"
        ∷ codes "report a.c a.csv --mode Unique" ∷ codes "report a.c a.csv --mode="
        ∷ codes "report a.c a.csv --mode=unique=masking" ∷ []) }
    ensures format { AreNone (codes "report a.c a.csv --format xml"
        ∷ codes "report a.c a.csv --format CSV" ∷ codes "report a.c a.csv --format=" ∷ []) }
{}

/// A number is decimal digits without sign or leading zero: from 1 to 64 workers, and a fuel from 1
/// to 100,000,000.
pub fn other_numbers()
    ensures workers { AreNone (codes "vectors a.c a.csv --workers 0"
        ∷ codes "vectors a.c a.csv --workers 65" ∷ codes "vectors a.c a.csv --workers 01"
        ∷ codes "vectors a.c a.csv --workers +4" ∷ codes "report a.c a.csv --workers="
        ∷ codes "vectors a.c a.csv --workers 2 --workers 2" ∷ []) }
    ensures small { AreNone (codes "vectors a.c a.csv --fuel 0"
        ∷ codes "vectors a.c a.csv --fuel 05" ∷ codes "vectors a.c a.csv --fuel=" ∷ []) }
    ensures sign { AreNone (codes "vectors a.c a.csv --fuel +5"
        ∷ codes "vectors a.c a.csv --fuel=-5" ∷ codes "vectors a.c a.csv --fuel -5" ∷ []) }
    ensures large { AreNone (codes "vectors a.c a.csv --fuel 100000001"
        ∷ codes "vectors a.c a.csv --fuel 4294967297"
        ∷ codes "vectors a.c a.csv --fuel 99999999999999999999" ∷ []) }
    ensures bytes { AreNone (codes "vectors a.c a.csv --fuel 8x"
        ∷ codes "vectors a.c a.csv --fuel 0x8" ∷ codes "vectors a.c a.csv --fuel 1_000"
        ∷ codes "vectors a.c a.csv --fuel=8=9" ∷ codes "vectors a.c a.csv --fuel= 8" ∷ []) }
{}

/// The other commands have their own files and options.
pub fn other_commands()
    ensures recorded { AreNone (codes "record a.c" ∷ codes "record a.c a.csv b.csv"
        ∷ codes "record a.c a.csv --mode unique" ∷ codes "record a.c a.csv --fuel 0" ∷ []) }
    ensures instrument { AreNone (codes "instrument" ∷ codes "instrument a.c a.csv"
        ∷ codes "instrument a.c --fuel 8" ∷ codes "instrument --workers=4 a.c"
        ∷ codes "instrument -a.c" ∷ codes "Instrument a.c" ∷ []) }
    ensures adapt { AreNone (codes "adapt" ∷ codes "adapt a.i b.i" ∷ codes "adapt a.i --fuel 8"
        ∷ codes "adapt -a.i" ∷ []) }
    ensures merge { AreNone (codes "merge a.c a.rec" ∷ codes "merge a.c a.rec b.rec c.rec"
        ∷ codes "merge a.c a.rec b.rec --fuel 8" ∷ codes "merge a.c a.rec b.rec --workers 4"
        ∷ []) }
    ensures analyse { AreNone (codes "analyse a.c" ∷ codes "analyse a.c a.rec b.rec"
        ∷ codes "analyse a.c a.rec --fuel 8" ∷ codes "analyse a.c a.rec --workers 4"
        ∷ codes "analyse a.c a.rec --mode both" ∷ []) }
    ensures watched { AreNone (codes "watch a.c" ∷ codes "watch a.c a.csv --looks 0"
        ∷ codes "watch a.c a.csv --looks 101" ∷ codes "watch a.c a.csv --looks 01"
        ∷ codes "watch a.c a.csv --workers 64" ∷ codes "watch a.c a.csv --mode unique"
        ∷ codes "watch a.c a.csv --looks 1 --looks 1" ∷ codes "vectors a.c a.csv --looks 1"
        ∷ []) }
    ensures reduced { AreNone (codes "reduce a.c" ∷ codes "reduce a.c a.csv --mode both"
        ∷ codes "reduce a.c a.csv --workers 65" ∷ codes "reduce a.c a.csv --justify j.json"
        ∷ []) }
    ensures mutated { AreNone (codes "mutate a.c" ∷ codes "mutate a.c a.csv b.csv"
        ∷ codes "mutate a.c a.csv --workers 0" ∷ codes "mutate a.c a.csv --workers 65"
        ∷ codes "mutate a.c a.csv --fuel 0" ∷ codes "mutate a.c a.csv --mode unique"
        ∷ codes "mutate a.c a.csv --looks 1" ∷ codes "mutants a.c a.csv" ∷ []) }
    ensures listed { AreNone (codes "list a.c" ∷ codes "list a.c a.csv --format text"
        ∷ codes "list a.c a.csv --workers 0" ∷ []) }
    ensures needed { AreNone (codes "needs a.c" ∷ codes "needs a.c a.csv --format text"
        ∷ codes "needs a.c a.csv --looks 1" ∷ []) }
    ensures traced { AreNone (codes "results a.c" ∷ codes "results a.c a.csv --mode unique"
        ∷ codes "results a.c a.csv --of m.c" ∷ codes "results a.c a.csv --justify j.json" ∷ []) }
    ensures selfload { AreNone (codes "selfload" ∷ codes "selfload 0" ∷ codes "selfload 201"
        ∷ codes "selfload 05" ∷ codes "selfload +5" ∷ codes "selfload 5 6"
        ∷ codes "selfload 5 --fuel 8" ∷ codes "selfload 5 --workers 65" ∷ codes "selfload a.c"
        ∷ []) }
{}

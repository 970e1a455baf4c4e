//! Lines that are commands, by the definition. The functions do nothing: each has a law as its
//! contract.
#![tactic(auto, unfolding(mc_command::specs::Command::command_of, clap::proofs::OnLiterals::clap_on_literals))]

ghost use Rattle.std.specs.Prelude.{◌∷◌, [], None, Some, codes};
ghost use Rattle.mc_command.specs.Command.{adapted, functions, instrumented, judged, listing, merge, mutated, needs, on_matrix, on_source, recorded, reduced, selfload, traced, vectors, watched, write};
ghost use Rattle.report_options.specs.declared.form.Form.TheVariants.{Csv, Json, Text};
ghost use Rattle.report_options.specs.declared.mode.Mode.TheVariants.{Masking, Unique};
ghost use Rattle.tests_command.specs.Lines.{AreAll, Is, analysis, justified_by, matrix_of, plain_report, report_by, run_by, run_of, vectors_by, vectors_of, vectors_shared};

/// Without options independence is unique cause, the form text, and the fuel 1,000,000; 4 workers
/// share the tests.
pub fn defaults()
    ensures report { Is (codes "report a.c a.csv") (plain_report Unique 1000000) }
    ensures vectors { Is (codes "vectors a.c a.csv") (vectors_by 1000000) }
{}

/// An option stands before, between or after the files, with its value in a word of its own or
/// after `=`, and each order is one.
pub fn places_of_options()
    ensures fuel { AreAll (vectors_by 8) (codes "vectors --fuel 8 a.c a.csv"
        ∷ codes "vectors a.c --fuel 8 a.csv" ∷ codes "vectors a.c a.csv --fuel 8"
        ∷ codes "vectors --fuel=8 a.c a.csv" ∷ codes "vectors a.c --fuel=8 a.csv"
        ∷ codes "vectors a.c a.csv --fuel=8" ∷ []) }
    ensures workers { AreAll (vectors_shared 2 8)
        (codes "vectors a.c a.csv --workers 2 --fuel 8"
        ∷ codes "vectors --fuel=8 a.c --workers=2 a.csv" ∷ []) }
    ensures both { AreAll (plain_report Masking 8)
        (codes "report a.c a.csv --mode masking --fuel 8"
        ∷ codes "report a.c a.csv --fuel 8 --mode masking"
        ∷ codes "report --fuel 8 a.c --mode masking a.csv"
        ∷ codes "report --mode=masking a.c a.csv --fuel=8" ∷ []) }
    ensures all { AreAll (report_by Masking Csv (Some (codes "j.json")) 8)
        (codes "report a.c a.csv --mode masking --fuel 8 --justify j.json --format csv"
        ∷ codes "report --format csv --justify j.json --fuel 8 --mode masking a.c a.csv"
        ∷ codes "report --justify=j.json a.c --format=csv a.csv --mode=masking --fuel=8" ∷ []) }
{}

/// The values of options.
pub fn values()
    ensures unique { Is (codes "report a.c a.csv --mode unique") (plain_report Unique 1000000) }
    ensures text { Is (codes "report a.c a.csv --format text") (plain_report Unique 1000000) }
    ensures csv { Is (codes "report a.c a.csv --format csv")
        (report_by Unique Csv None 1000000) }
    ensures json { Is (codes "report a.c a.csv --format json")
        (report_by Unique Json None 1000000) }
    ensures one_worker { Is (codes "vectors a.c a.csv --workers 1") (vectors_shared 1 1000000) }
    ensures most_workers { Is (codes "vectors a.c a.csv --workers 64")
        (vectors_shared 64 1000000) }
    ensures least { Is (codes "vectors a.c a.csv --fuel 1") (vectors_by 1) }
    ensures most { Is (codes "vectors a.c a.csv --fuel 100000000") (vectors_by 100000000) }
{}

/// A file of justifications may have any name, also an empty one.
pub fn names_of_justifications()
    ensures empty { AreAll (justified_by []) (codes "report a.c a.csv --justify="
        ∷ codes "report a.c a.csv --justify " ∷ []) }
    ensures dash { AreAll (justified_by (codes "-")) (codes "report a.c a.csv --justify=-"
        ∷ codes "report a.c a.csv --justify -" ∷ []) }
    ensures option { Is (codes "report a.c a.csv --justify=--mode")
        (justified_by (codes "--mode")) }
    ensures equals { Is (codes "report a.c a.csv --justify=a=b") (justified_by (codes "a=b")) }
{}

/// The names of the files: `-` alone is one, and after `--` each word.
pub fn names_of_files()
    ensures dash { Is (codes "vectors - a.csv") (vectors_of (codes "-") (codes "a.csv")) }
    ensures empty { Is (codes "vectors  a.csv") (vectors_of [] (codes "a.csv")) }
    ensures command { Is (codes "vectors report vectors")
        (vectors_of (codes "report") (codes "vectors")) }
    ensures help { Is (codes "vectors help a.csv") (vectors_of (codes "help") (codes "a.csv")) }
    ensures separated { AreAll (vectors_by 1000000) (codes "vectors -- a.c a.csv"
        ∷ codes "vectors a.c -- a.csv" ∷ codes "vectors a.c a.csv --" ∷ []) }
    ensures options { Is (codes "vectors --fuel 8 -- -a.c --fuel")
        (run_of (codes "-a.c") (codes "--fuel") 8 (on_matrix vectors)) }
{}

/// The commands other than `report` and `vectors`.
pub fn other_commands()
    ensures recorded { AreAll (matrix_of 8 recorded)
        (codes "record a.c a.csv --fuel 8" ∷ codes "record --fuel=8 a.c a.csv" ∷ []) }
    ensures recorded_by_two { Is (codes "record a.c a.csv --workers 2 --fuel 8")
        (run_by (codes "a.c") (codes "a.csv") 2 8 (on_matrix recorded)) }
    ensures instrument { AreAll (on_source (codes "a.c") (write instrumented))
        (codes "instrument a.c" ∷ codes "instrument -- a.c" ∷ codes "instrument a.c --" ∷ []) }
    ensures adapt { AreAll (on_source (codes "a.i") (write adapted))
        (codes "adapt a.i" ∷ codes "adapt -- a.i" ∷ codes "adapt a.i --" ∷ []) }
    ensures merge { Is (codes "merge a.c a.rec b.rec")
        (on_source (codes "a.c") (merge (codes "a.rec") (codes "b.rec"))) }
    ensures selfload_least { Is (codes "selfload 1") (selfload 1 4) }
    ensures selfload_most { AreAll (selfload 200 64) (codes "selfload 200 --workers 64"
        ∷ codes "selfload --workers=64 200" ∷ []) }
{}

/// Looks at running workers, tests that are enough, mutants, and listings.
pub fn commands_of_testers()
    ensures watched { AreAll (run_of (codes "a.c") (codes "a.csv") 8 (watched 10))
        (codes "watch a.c a.csv --fuel 8" ∷ codes "watch --fuel=8 a.c a.csv --workers 4" ∷ []) }
    ensures watched_most { AreAll (run_by (codes "a.c") (codes "a.csv") 63 8 (watched 100))
        (codes "watch a.c a.csv --workers 63 --fuel 8 --looks 100"
        ∷ codes "watch --looks=100 --workers=63 --fuel=8 -- a.c a.csv" ∷ []) }
    ensures watched_least { Is (codes "watch a.c a.csv --workers 1 --fuel 8 --looks 1")
        (run_by (codes "a.c") (codes "a.csv") 1 8 (watched 1)) }
    ensures reduced { AreAll (matrix_of 8 (reduced Unique))
        (codes "reduce a.c a.csv --fuel 8" ∷ codes "reduce a.c a.csv --mode unique --fuel 8"
        ∷ []) }
    ensures reduced_by_masking { Is (codes "reduce --mode=masking a.c a.csv --workers 64 --fuel 8")
        (run_by (codes "a.c") (codes "a.csv") 64 8 (on_matrix (reduced Masking))) }
    ensures mutated { AreAll (run_of (codes "a.c") (codes "a.csv") 8 mutated)
        (codes "mutate a.c a.csv --fuel 8" ∷ codes "mutate --workers=4 --fuel=8 -- a.c a.csv"
        ∷ []) }
    ensures mutated_by_most { Is (codes "mutate --workers 64 a.c a.csv --fuel 8")
        (run_by (codes "a.c") (codes "a.csv") 64 8 mutated) }
    ensures mutated_by_one { Is (codes "mutate --workers 1 a.c a.csv --fuel 8")
        (run_by (codes "a.c") (codes "a.csv") 1 8 mutated) }
    ensures listed { Is (codes "list a.c a.csv --fuel 8")
        (matrix_of 8 (judged (record { mode = Unique; justify = None; telling = listing }))) }
    ensures listed_with { Is (codes "list a.c a.csv --justify j.json --mode masking --fuel 8")
        (matrix_of 8 (judged (record {
          mode = Masking;
          justify = Some (codes "j.json");
          telling = listing;
        }))) }
    ensures counted { Is (codes "functions a.c a.csv --fuel 8")
        (matrix_of 8 (judged (record {
          mode = Unique;
          justify = None;
          telling = functions None;
        }))) }
    ensures counted_of { Is (codes "functions a.c --of m.c a.csv --mode masking --fuel 8")
        (matrix_of 8 (judged (record {
          mode = Masking;
          justify = None;
          telling = functions (Some (codes "m.c"));
        }))) }
    ensures needed { Is (codes "needs a.c a.csv --fuel 8")
        (matrix_of 8 (judged (record {
          mode = Unique;
          justify = None;
          telling = needs None;
        }))) }
    ensures needed_of { Is (codes "needs a.c --of m.c a.csv --justify j.json --fuel 8")
        (matrix_of 8 (judged (record {
          mode = Unique;
          justify = Some (codes "j.json");
          telling = needs (Some (codes "m.c"));
        }))) }
    ensures traced { AreAll (run_of (codes "a.c") (codes "a.csv") 8 traced)
        (codes "results a.c a.csv --fuel 8" ∷ codes "results --workers=4 --fuel=8 -- a.c a.csv"
        ∷ []) }
{}

/// The options of a report of a record.
pub fn reports_of_records()
    ensures plain { Is (codes "analyse a.c a.rec") (analysis Unique Text None) }
    ensures all { AreAll (analysis Masking Json (Some (codes "j.json")))
        (codes "analyse a.c a.rec --mode masking --justify j.json --format json"
        ∷ codes "analyse --format=json a.c --justify=j.json a.rec --mode=masking" ∷ []) }
{}

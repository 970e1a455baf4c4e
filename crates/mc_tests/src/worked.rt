//! Worked examples: what short records say. The functions do nothing: each has a law as
//! its contract.
ghost use Rattle.std.specs.Prelude.{◌≡◌, ◌∷◌, [], Err, codes};
ghost use Rattle.mc_tests.specs.declared.fault.TestFault.TheVariants as fault;
ghost use Rattle.mc_tests.specs.File.{records_from};
ghost use Rattle.mc_tests.specs.Lines.{line_of};
ghost use Rattle.mc_tests.specs.Samples.{calls_v, fields, functions};

/// Of `int f(_Bool)`, `void v(void)` and `int t(int [])`: the lowest fault of a record answers.
pub fn lowest_fault_answers()
    ensures text { line_of functions 2 (fields (codes "a b") (codes "f") (codes "x") [] [])
        ≡ Err (fault.Text 2) }
    ensures number { line_of functions 2 (fields (codes "a") (codes "g") (codes "x") [] [])
        ≡ Err (fault.Number 2) }
    ensures function { line_of functions 2 (fields (codes "a") (codes "g") (codes "2") [] [])
        ≡ Err (fault.Function 2) }
    ensures range { line_of functions 2 (fields (codes "a") (codes "f") (codes "2") [] [])
        ≡ Err (fault.Arguments 2) }
    ensures void { line_of functions 2 (fields (codes "a") (codes "v") [] [] (codes "1"))
        ≡ Err (fault.Arguments 2) }
    ensures array { line_of functions 2 (fields (codes "a") (codes "t") [] [] [])
        ≡ Err (fault.NotCallable 2) }
{}

/// A name comes again after another test in record 4; in record 3 it is that of the same test.
pub fn name_comes_again()
    ensures again { records_from functions 1 2 []
        (calls_v (codes "a") ∷ calls_v (codes "b") ∷ calls_v (codes "a") ∷ [])
        ≡ Err (fault.NameAgain 4) }
{}

//! The places in a short text.
ghost use Rattle.std.specs.Prelude.{◌≡◌};
ghost use Rattle.reread_law_texts.specs.alike.Samples.{dense_tree};
ghost use Rattle.reread_law_texts.specs.apart.Places.{spans_in_unit, statement_spans_in_unit};
ghost use Rattle.reread_law_texts.specs.apart.Worked.{dense_spans, dense_statement_spans};

/// `int f(int a){return a+1;}` has three expressions and one statement.
pub fn places_of_a_short_text()
    ensures expressions { spans_in_unit dense_tree ≡ dense_spans }
    ensures statements { statement_spans_in_unit dense_tree ≡ dense_statement_spans }
{}

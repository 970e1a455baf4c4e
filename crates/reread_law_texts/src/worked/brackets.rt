//! A short text with brackets put into it.
ghost use Rattle.std.specs.Prelude.{◌≡◌};
ghost use Rattle.reread_law_texts.specs.alike.Samples.{dense_tokens, dense_tree};
ghost use Rattle.reread_law_texts.specs.weave.Trees.{bracketed_unit};
ghost use Rattle.reread_law_texts.specs.brackets.Signs.{poured, signs_in_unit};
ghost use Rattle.reread_law_texts.specs.brackets.Samples.{sample, sample_tokens, sample_tree};

/// `int f(int a){return a+1;}` with its brackets is `int f(int a){{return (((a))+1);}}`.
pub fn brackets_stand_by_their_places()
    ensures tokens { poured (signs_in_unit sample dense_tree) dense_tokens ≡ sample_tokens }
    ensures tree { bracketed_unit sample dense_tree ≡ sample_tree }
{}

//! Laws of the token list.
ghost use Rattle.mc_lex.specs.Laws as laws;

/// A source has one token list, or one first place without a token.
pub fn one_scan()
    ensures { laws.OneScan }
{}

/// Each source, of every length, has a token list, or a first place without a token.
pub fn each_source_has_a_scan()
    ensures { laws.EachSourceHasAScan }
{}

/// The place of a fault is that of a byte of the source.
pub fn faults_are_inside()
    ensures { laws.FaultsAreInside }
{}

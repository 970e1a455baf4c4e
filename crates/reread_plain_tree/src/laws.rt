//! Worked trees without probes. The functions do nothing: each has a law as its contract.
ghost use Rattle.reread_plain_tree.specs.Worked.{BracesOfAProbe, BracesOfTheSource, GroupOfAProbe};

/// In `if(a){if(b)s;}else t;` with braces of a probe the `else` stays with the outer `if`.
pub fn braces_of_a_probe()
    ensures { BracesOfAProbe }
{}

/// Braces of the source stay, those of the probe in them go.
pub fn braces_of_the_source()
    ensures { BracesOfTheSource }
{}

/// In `x*(a<b)` with parentheses of a probe the factor stays the whole comparison.
pub fn group_of_a_probe()
    ensures { GroupOfAProbe }
{}

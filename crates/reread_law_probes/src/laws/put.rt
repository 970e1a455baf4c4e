//! Laws of probes of a text that are put back into its program: each stands where it stood. The
//! functions do nothing: each has a law as its contract.
ghost use Rattle.reread_law_probes.specs.put.Laws.{ProbesArePutBack, TablesArePutBack};
ghost use Rattle.reread_law_probes.specs.put.Worked.{TheTable};

/// The probes of a tree, put back into the program under it, give the tree, where none is missing
/// and each stands where it is looked for.
pub fn probes_are_put_back()
    ensures { ProbesArePutBack }
{}

/// The probes that the table puts on a program, put back into it, give the tree of its instrumented
/// text.
pub fn tables_are_put_back()
    ensures { TablesArePutBack }
{}

/// What that law asks, but that the program is sound and the map is one, holds of
/// `int f(int a,int b){return a&&b;}`.
pub fn table_of_a_function()
    ensures { TheTable }
{}

//! A worked text: the functions do nothing.
ghost use Rattle.reread_law_rows.specs.inserted.Worked.{TheCounts, TheRows, TheSigns};

/// The rows of `return a&&b;` and its function, in the order of the text, with their places.
pub fn rows_of_a_text()
    ensures { TheRows }
{}

/// Their brackets, and how many stand round each expression.
pub fn brackets_of_a_text()
    ensures signs { TheSigns }
    ensures counts { TheCounts }
{}

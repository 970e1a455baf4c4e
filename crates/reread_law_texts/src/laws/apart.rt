//! Laws of the places in a text. The functions do nothing: each has a law as its contract.
ghost use Rattle.reread_law_texts.specs.apart.Laws.{
  ExpressionsAreApart,
  StatementsAreApart,
  BracketsStartBefore,
  PlacesHaveBytes,
};

/// No two expressions of a text stand at one place, and no two statements that are neither compound
/// statements nor labelled.
pub fn places_are_apart()
    ensures expressions { ExpressionsAreApart }
    ensures statements { StatementsAreApart }
{}

/// Parentheses round an expression and round the type of a cast, and the braces of a compound
/// statement, start before what they enclose; a function's definition starts before the first item
/// of its body.
pub fn brackets_start_before()
    ensures { BracketsStartBefore }
{}

/// Expressions and statements have at least one byte.
pub fn places_have_bytes()
    ensures { PlacesHaveBytes }
{}

//! What has been read of a text at a place.
ghost use Rattle.std.specs.Prelude.{◌≡◌, ◌++◌, IfOk, [], map, option_map, option_to_list, codes};
ghost use Rattle.mc_lex.specs.Tokens.{tok_of, toks_of};
ghost use Rattle.reread_pieces.specs.Words.{texts};
ghost use Rattle.reread_pieces.specs.Pieces as spec;
ghost use Rattle.reread_pieces.specs.steps.Views.{here_of, mark_of};

use crate::bracket::Bracket;
use crate::piece::{Piece, What};
use crate::rows::{after, is_body, row_at};
use crate::site::{Before, Site};
use crate::word::{before_of, is};
use mc_lex::Token;
use std::alloc::{AllocError, Global};

/// What is open, the innermost last; whether the place is inside a function's body; what stands
/// directly before; the tokens from the start of the external declaration; and what stands between
/// the `{` of a `return` and its value: `T mcdc_v =`.
#[derive(Drop)]
pub(crate) struct Here<'t, 'a> {
    pub brackets: Vec<Bracket>,
    pub inside: bool,
    pub before: Before,
    pub item: &'t [Token<'a>],
    pub value: Vec<&'a [u8]>,
    /// The tokens that are left.
    pub left: &'t [Token<'a>],
}

// ---- the words of a function's type

/// Whether a token before a function's name is no word of its type.
fn is_left_out(token: &Token<'_>) -> bool
    ensures { result ≡ spec.is_left_out (tok_of token.now) }
{
    is(token, b"static") || is(token, b"extern") || is(token, b"const") || is(token, b"*")
}

/// Adds a word of a type.
fn add_word<'a>(words: &mut Vec<&'a [u8]>, token: &Token<'a>) -> Result<(), AllocError>
    ensures { IfOk result (λ _. texts words.new.items
        ≡ texts words.old.items ++ spec.word (tok_of token.now)) }
{
    if !is_left_out(token) {
        words.push(token.text)?;
    }
    Ok(())
}

/// The words that say the type of the function whose definition begins with these tokens.
fn type_words<'a>(alloc: Global, item: &[Token<'a>]) -> Result<Vec<&'a [u8]>, AllocError>
    ensures { IfOk result (λ v. texts v.items ≡ spec.type_words (toks_of item.now)) }
{
    let mut words = Vec::new(alloc);
    let mut left = item;
    while let [token, later @ ..] = left {
        match later {
            [] => return Ok(words),
            [next, ..] => {
                if is(next, b"(") {
                    return Ok(words);
                }
            }
        }
        add_word(&mut words, token)?;
        left = later;
    }
    Ok(words)
}

/// What stands between the `{` of a `return` and its value, in this function.
fn value_shape<'a>(alloc: Global, item: &[Token<'a>]) -> Result<Vec<&'a [u8]>, AllocError>
    ensures { IfOk result (λ v. texts v.items ≡ spec.value_shape (toks_of item.now)) }
{
    let mut words = type_words(alloc, item)?;
    words.push(b"mcdc_v")?;
    words.push(b"=")?;
    Ok(words)
}

// ---- what a piece changes

/// What a piece opens.
fn opened(what: What) -> Option<Bracket>
    ensures { result ≡ spec.opened what }
{
    match what {
        What::Opening { bracket } => Some(bracket),
        What::Statement { .. } => Some(Bracket::Statement),
        What::Value => Some(Bracket::Value),
        What::Return { .. } => Some(Bracket::Exit),
        What::Decision { .. } | What::Condition { .. } | What::Switch { .. } => {
            Some(Bracket::Operand)
        }
        _ => None,
    }
}

/// Whether a piece closes the innermost bracket.
fn closes(what: What) -> bool
    ensures { result ≡ spec.closes what }
{
    matches!(
        what,
        What::Closing
            | What::StatementEnd
            | What::ValueEnd { .. }
            | What::ReturnEnd
            | What::OperandEnd
    )
}

/// Whether a piece is the `{` of a function's body.
fn is_front(what: What) -> bool
    ensures { result ≡ spec.is_front what }
{
    is_body(opened(what))
}

/// Whether a piece ends an external declaration.
fn ends_item(site: Site, what: What, token: &Token<'_>) -> bool
    ensures { result ≡ spec.ends_item site what (tok_of token.now) }
{
    match what {
        What::Closing => is_body(site.innermost),
        What::Source => site.innermost.is_none() && is(token, b";"),
        _ => false,
    }
}

/// What stands before what follows a piece.
fn before_after(what: What, token: &Token<'_>) -> Before
    ensures { result ≡ spec.before_after what (tok_of token.now) }
{
    match what {
        What::Registers { .. } => Before::Registers,
        What::Statement { .. } => Before::Statement,
        What::Source | What::Closing => before_of(token),
        _ => {
            if is_front(what) {
                Before::Front
            } else {
                Before::Other
            }
        }
    }
}

/// Whether the place after a piece is inside a function's body.
fn inside_after(inside: bool, site: Site, what: What) -> bool
    ensures { result ≡ spec.inside_after inside site what }
{
    is_front(what) || (inside && !(closes(what) && is_body(site.innermost)))
}

/// Opens or closes what a piece does.
fn change(brackets: &mut Vec<Bracket>, what: What) -> Result<(), AllocError>
    ensures { IfOk result (λ _. brackets.new.items ≡ spec.brackets_after brackets.old.items what) }
{
    if closes(what) {
        brackets.pop();
    } else if let Some(bracket) = opened(what) {
        brackets.push(bracket)?;
    }
    Ok(())
}

/// Notes how a value begins, at the `{` of a function's body.
fn note<'t, 'a>(alloc: Global, here: &mut Here<'t, 'a>, what: What) -> Result<(), AllocError>
    ensures { IfOk result (λ _. here_of here.new ≡ record (here_of here.old) {
      value = spec.value_after (here_of here.old) what;
    }) }
{
    if is_front(what) {
        here.value = value_shape(alloc, here.item)?;
    }
    Ok(())
}

/// Whether a `{` or a `;` stands before the word of a piece's probe.
fn word_is_second(what: What) -> bool
    ensures { result ≡ spec.word_is_second what }
{
    matches!(
        what,
        What::Statement { .. } | What::ValueEnd { .. } | What::Return { .. }
    )
}

/// Where the word of a piece's probe starts.
fn word_start(what: What, token: &Token<'_>, later: &[Token<'_>]) -> u32
    ensures { result ≡ spec.word_start what (tok_of token.now) (toks_of later.now) }
{
    match later {
        [next, ..] if word_is_second(what) => next.start,
        _ => token.start,
    }
}

/// The piece with which these tokens begin, where one can stand there.
fn piece_at<'a>(site: Site, value: &[&[u8]], tokens: &[Token<'a>]) -> Option<Piece<'a>>
    ensures { option_map mark_of result
        ≡ spec.piece_at site (texts value.now) (toks_of tokens.now) }
{
    match tokens {
        [] => None,
        [token, later @ ..] => match row_at(site, value, tokens) {
            None => None,
            Some(what) => Some(Piece {
                what,
                token: *token,
                word: word_start(what, token, later),
            }),
        },
    }
}

impl<'t, 'a> Here<'t, 'a> {
    /// Before the first token of a text.
    pub(crate) fn new(alloc: Global, tokens: &'t [Token<'a>]) -> Here<'t, 'a>
        ensures left { toks_of result.left.now ≡ toks_of tokens.now }
        ensures here { here_of result ≡ spec.start (toks_of tokens.now) }
    {
        Here {
            brackets: Vec::new(alloc),
            inside: false,
            before: Before::Other,
            item: tokens,
            value: Vec::new(alloc),
            left: tokens,
        }
    }

    pub(crate) fn site(&self) -> Site
        ensures { result ≡ spec.site_of (here_of self.now) }
    {
        Site {
            innermost: self.brackets.last().copied(),
            inside: self.inside,
            before: self.before,
        }
    }

    /// How many tokens a piece has.
    pub(crate) fn size(&self, what: What) -> usize
        ensures { result ≡ spec.size (here_of self.now).value what }
    {
        match what {
            What::Registers { .. } | What::Statement { .. } => 6,
            What::Entry { .. } | What::Exit { .. } | What::Declaration { .. } => 5,
            What::Label { .. } | What::Default { .. } => 7,
            What::Value => self.value.len().saturating_add(1),
            What::ValueEnd { .. } => 10,
            What::Return { .. } => 6,
            What::Decision { .. } => 6,
            What::Condition { .. } => 8,
            What::Switch { .. } => 4,
            _ => 1,
        }
    }

    /// The piece at the start of the tokens that are left, where one can stand there.
    pub(crate) fn next(&self) -> Option<Piece<'a>>
        ensures { option_map mark_of result ≡ spec.next (here_of self.now)
            (toks_of self.now.left.now) }
    {
        piece_at(self.site(), &self.value, self.left)
    }

    /// Goes past a piece.
    pub(crate) fn pass(&mut self, alloc: Global, piece: Piece<'a>) -> Result<(), AllocError>
        ensures here { IfOk result (λ _. here_of self.new
            ≡ spec.passed (here_of self.old) (mark_of piece.entry) (toks_of self.old.left.now)) }
        ensures left { IfOk result (λ _. toks_of self.new.left.now
            ≡ spec.later (here_of self.old) piece.entry.what (toks_of self.old.left.now)) }
    {
        let site = self.site();
        let later = after(self.size(piece.what), self.left);
        note(alloc, self, piece.what)?;
        change(&mut self.brackets, piece.what)?;
        if ends_item(site, piece.what, &piece.token) {
            self.item = later;
        }
        self.inside = inside_after(self.inside, site, piece.what);
        self.before = before_after(piece.what, &piece.token);
        self.left = later;
        Ok(())
    }
}

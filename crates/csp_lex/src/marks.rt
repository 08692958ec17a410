//! The longest sign or beginning of a comment.

ghost use Rattle.std.specs.Prelude.{◌≡◌, [], ◌∷◌, IfSome, IfNone, None};
ghost use Rattle.std.specs.Option.{option_map};
ghost use Rattle.theory_text.specs.Fronts.{StartsPlainly};
ghost use Rattle.theory_text.specs.Spelling.{mark_of};
ghost use Rattle.theory_text.specs.Token.{StartsWithNoLexeme};
ghost use Rattle.csp_lex.specs.Cursors.{left_of, Begins};
ghost use Rattle.csp_lex.specs.Marks.{lexeme_of, ReadsMark, HasNoMarkOf};

use crate::cursors::Cursor;
use crate::signs::Sign;

/// A sign, or what begins a comment.
#[derive(Clone, Copy)]
pub(crate) enum Mark {
    Sign(Sign),
    LineComment,
    BlockComment,
}

fn of_one(first: char) -> Option<Mark>
    ensures { option_map lexeme_of result ≡ mark_of (first ∷ []) }
{
    match first {
        '\\' => Some(Mark::Sign(Sign::Hiding)),
        ';' => Some(Mark::Sign(Sign::Semicolon)),
        '&' => Some(Mark::Sign(Sign::Guard)),
        '@' => Some(Mark::Sign(Sign::At)),
        '<' => Some(Mark::Sign(Sign::Less)),
        '>' => Some(Mark::Sign(Sign::Greater)),
        '+' => Some(Mark::Sign(Sign::Plus)),
        '-' => Some(Mark::Sign(Sign::Minus)),
        '*' => Some(Mark::Sign(Sign::Times)),
        '%' => Some(Mark::Sign(Sign::Percent)),
        '^' => Some(Mark::Sign(Sign::Caret)),
        '#' => Some(Mark::Sign(Sign::Hash)),
        '!' => Some(Mark::Sign(Sign::Output)),
        '?' => Some(Mark::Sign(Sign::Input)),
        '.' => Some(Mark::Sign(Sign::Dot)),
        ':' => Some(Mark::Sign(Sign::Colon)),
        ',' => Some(Mark::Sign(Sign::Comma)),
        '=' => Some(Mark::Sign(Sign::Equals)),
        '|' => Some(Mark::Sign(Sign::Bar)),
        '(' => Some(Mark::Sign(Sign::OpenRound)),
        ')' => Some(Mark::Sign(Sign::CloseRound)),
        '[' => Some(Mark::Sign(Sign::OpenSquare)),
        ']' => Some(Mark::Sign(Sign::CloseSquare)),
        '{' => Some(Mark::Sign(Sign::OpenBrace)),
        '}' => Some(Mark::Sign(Sign::CloseBrace)),
        _ => None,
    }
}

fn of_two(first: char, second: char) -> Option<Mark>
    ensures { option_map lexeme_of result ≡ mark_of (first ∷ second ∷ []) }
{
    match (first, second) {
        ('-', '>') => Some(Mark::Sign(Sign::Arrow)),
        ('<', '-') => Some(Mark::Sign(Sign::BackArrow)),
        ('[', ']') => Some(Mark::Sign(Sign::Box)),
        ('|', '|') => Some(Mark::Sign(Sign::DoubleBar)),
        ('[', '|') => Some(Mark::Sign(Sign::OpenShared)),
        ('|', ']') => Some(Mark::Sign(Sign::CloseShared)),
        ('[', '[') => Some(Mark::Sign(Sign::OpenRenaming)),
        (']', ']') => Some(Mark::Sign(Sign::CloseRenaming)),
        ('{', '|') => Some(Mark::Sign(Sign::OpenProductions)),
        ('|', '}') => Some(Mark::Sign(Sign::CloseProductions)),
        ('/', '\\') => Some(Mark::Sign(Sign::Interrupt)),
        ('[', '>') => Some(Mark::Sign(Sign::Sliding)),
        ('=', '=') => Some(Mark::Sign(Sign::Same)),
        ('!', '=') => Some(Mark::Sign(Sign::Differs)),
        ('<', '=') => Some(Mark::Sign(Sign::AtMost)),
        ('>', '=') => Some(Mark::Sign(Sign::AtLeast)),
        ('.', '.') => Some(Mark::Sign(Sign::Range)),
        ('-', '-') => Some(Mark::LineComment),
        ('{', '-') => Some(Mark::BlockComment),
        _ => None,
    }
}

fn of_three(first: char, second: char, third: char) -> Option<Mark>
    ensures { option_map lexeme_of result ≡ mark_of (first ∷ second ∷ third ∷ []) }
{
    match (first, second, third) {
        ('|', '~', '|') => Some(Mark::Sign(Sign::Internal)),
        ('|', '|', '|') => Some(Mark::Sign(Sign::TripleBar)),
        ('[', 'T', '=') => Some(Mark::Sign(Sign::Traces)),
        ('[', 'F', '=') => Some(Mark::Sign(Sign::Failures)),
        _ => None,
    }
}

fn read_one<'a>(cursor: Cursor<'a>) -> Option<(Mark, Cursor<'a>)>
    ensures found { IfSome result (λ r. ReadsMark 1 cursor.entry r.0 r.1) }
    ensures none { IfNone result (HasNoMarkOf 1 cursor.entry) }
{
    let (first, one) = cursor.next()?;
    let mark = of_one(first)?;
    Some((mark, one))
}

fn read_two<'a>(cursor: Cursor<'a>) -> Option<(Mark, Cursor<'a>)>
    ensures found { IfSome result (λ r. ReadsMark 2 cursor.entry r.0 r.1) }
    ensures none { IfNone result (HasNoMarkOf 2 cursor.entry) }
{
    let (first, one) = cursor.next()?;
    let (second, two) = one.next()?;
    let mark = of_two(first, second)?;
    Some((mark, two))
}

fn read_three<'a>(cursor: Cursor<'a>) -> Option<(Mark, Cursor<'a>)>
    ensures found { IfSome result (λ r. ReadsMark 3 cursor.entry r.0 r.1) }
    ensures none { IfNone result (HasNoMarkOf 3 cursor.entry) }
{
    let (first, one) = cursor.next()?;
    let (second, two) = one.next()?;
    let (third, three) = two.next()?;
    let mark = of_three(first, second, third)?;
    Some((mark, three))
}

/// The longest mark at a cursor, and the cursor behind it.
pub(crate) fn read_mark<'a>(cursor: Cursor<'a>) -> Option<(Mark, Cursor<'a>)>
    requires { StartsPlainly (left_of cursor) }
    ensures found { IfSome result (λ r. Begins cursor.entry (lexeme_of r.0) r.1) }
    ensures none { IfNone result (StartsWithNoLexeme (left_of cursor.entry)) }
{
    if let Some(found) = read_three(cursor) {
        return Some(found);
    }
    if let Some(found) = read_two(cursor) {
        return Some(found);
    }
    read_one(cursor)
}

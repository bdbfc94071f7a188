ghost use Rattle.std.specs.Prelude.{◌≡◌};
ghost use Rattle.path_files.specs.Orders.{has_rows_first, is_row_first};

use crate::forms::{Form, form_of};
use crate::lines::without_mark;

// Whether a cell of that form is row and column.
fn is_row_first(form: Form) -> bool
    ensures { result ≡ is_row_first form }
{
    match form {
        Form::ByAgent => true,
        Form::ByJson => true,
        Form::ByTime | Form::BySession | Form::ByMoves | Form::ByFlippedMoves => false,
        Form::BySchedule => false,
    }
}

/// Whether the cells of a text of paths are row and column, and else column and row, in that form or
/// in the one that its lines tell. Those of a text of no form are column and row.
pub fn has_rows_first(text: &[u8], form: Option<Form>) -> bool
    ensures { result ≡ has_rows_first form text.now }
{
    match form {
        Some(form) => is_row_first(form),
        None => match form_of(without_mark(text)) {
            Ok(form) => is_row_first(form),
            Err(_) => false,
        },
    }
}

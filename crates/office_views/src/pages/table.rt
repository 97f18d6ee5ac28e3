//! Tables: headings of columns, and rows of cells.

use super::cell::{Cell, push_content, tags_of};
use safe_markup::Markup;
use std::fmt::{self, Write};

/// A column of a table, by its heading with its unit. Words are at the left.
#[derive(Clone, Copy)]
pub(crate) enum Column {
    Numbers(&'static str),
    Words(&'static str),
}

fn push_heading(page: &mut Markup, column: Column) -> fmt::Result {
    match column {
        Column::Numbers(heading) => page.enclose("<th scope='col'>", &heading, "</th>"),
        Column::Words(heading) => page.enclose("<th scope='col' class='w'>", &heading, "</th>"),
    }
}

/// Opens a table up to its rows, in a box that scrolls if the page is narrow. `whose` follows its
/// name. An empty table says so in its only row.
pub(crate) fn open_table(
    page: &mut Markup,
    name: &'static str,
    whose: &'static str,
    columns: &[Column],
    is_empty: bool,
) -> fmt::Result {
    let scroll = "<div class='scroll' role='group' tabindex='0' aria-label='";
    page.enclose(scroll, &name, whose)?;
    page.enclose("'>\n<table>\n<caption>", &name, whose)?;
    page.own("</caption>\n<thead><tr>")?;
    for column in columns {
        push_heading(page, *column)?;
    }
    page.own("</tr></thead>\n<tbody>")?;
    if is_empty {
        let none = "'>none</td></tr>\n";
        page.enclose("<tr><td class='none' colspan='", &columns.len(), none)?;
    }
    Ok(())
}

pub(crate) fn close_table(page: &mut Markup) -> fmt::Result {
    page.own("</tbody>\n</table>\n</div>\n")
}

/// Writes a row of cells. A cell is marked if the cell of the other row in its column differs.
pub(crate) fn push_row(
    page: &mut Markup,
    opening: &'static str,
    cells: &[Cell<'_>],
    others: &[Cell<'_>],
) -> fmt::Result {
    page.own(opening)?;
    for (at, cell) in cells.iter().enumerate() {
        let (opening, end) = tags_of(cell);
        let marked = others.get(at).is_some_and(|other| cell != other);
        page.own(opening)?;
        page.own(if marked { "<mark>" } else { "" })?;
        push_content(page, cell)?;
        page.own(if marked { "</mark>" } else { "" })?;
        page.own(end)?;
    }
    page.own("</tr>\n")
}

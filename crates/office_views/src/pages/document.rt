//! The page of an intersection, and the page of a plan alone.

use super::cabinet::push_cabinet;
use super::changes::push_changes;
use super::facts::push_facts;
use super::notes::{push_reasons_note, push_warnings_note};
use super::pictures::push_pictures;
use super::plan_tables::{Remarks, push_plan_tables};
use super::shown::IntersectionShown;
use super::style::STYLE;
use office_machine::reply::IntersectionState;
use safe_markup::Markup;
use signal_plans::{Warning, warnings};
use signal_records::{NoMemory, TimingSet};
use signal_rules::reasons;
use std::alloc::{AllocError, Global};
use std::fmt;

/// The markup of a page between its title as CSS and its title.
const HEAD: &str = "\
\"'>
<head>
<meta charset='utf-8'>
<meta name='viewport' content='width=device-width, initial-scale=1'>
<title>";

/// A text as CSS writes it between double quotes; a control character becomes a space.
fn css_text(alloc: Global, text: &str) -> Result<String, AllocError> {
    let mut css = String::new(alloc);
    for letter in text.chars() {
        match letter {
            '"' => css.push_str("\\22 ")?,
            '\\' => css.push_str("\\5c ")?,
            letter if letter.is_control() => css.push(' ')?,
            letter => css.push(letter)?,
        }
    }
    Ok(css)
}

/// Writes the head of a page, with its title, which each printed page repeats.
pub(crate) fn push_head(page: &mut Markup, title: &str) -> fmt::Result {
    let printed = css_text(page.alloc(), title)?;
    page.enclose(
        "<!DOCTYPE html>\n<html lang='en' style='--title: \"",
        &printed,
        "",
    )?;
    page.enclose(HEAD, &title, "</title>\n<style>\n")?;
    page.own(STYLE)?;
    page.own("</style>\n</head>\n")
}

/// The markup of a page between its head and its heading.
const BODY: &str = "<body>\n<a class='skip' href='#main'>Skip to the plan</a>\n<header>\n<h1>";

/// The end of a page.
pub(crate) const END: &str = "</main>\n</body>\n</html>\n";

/// Writes the pictures and tables of a plan with the remarks on it, or that it has no rows; `whose`
/// follows the name of each table.
fn push_plan(
    page: &mut Markup,
    whose: &'static str,
    set: &TimingSet,
    remarks: &Remarks<'_>,
) -> fmt::Result {
    let rows = set.rows(page.alloc())?;
    if rows.is_empty() {
        return page.own("<p class='none'>It has no rows.</p>\n");
    }
    push_pictures(page, set, &rows)?;
    push_plan_tables(page, whose, set, remarks, &rows)
}

fn push_heading(page: &mut Markup, state: &IntersectionState) -> fmt::Result {
    let id = state.id.get();
    let name = state.name.as_str();
    let title = format!(in page.alloc(); "Intersection {id}: {name}")?;
    push_head(page, &title)?;
    page.own(BODY)?;
    page.enclose("Intersection ", &id, ": <bdi>")?;
    page.enclose("", &name, "</bdi></h1>\n")
}

/// Writes links to the index, if the page is linked to it, and to the parts of the page.
fn push_links(page: &mut Markup, linked: bool, drafted: bool) -> fmt::Result {
    page.own("<nav aria-label='Parts of this page'>\n<ul>\n")?;
    if linked {
        page.own("<li><a href='index.html'>All intersections</a></li>\n")?;
    }
    page.own("<li><a href='#plan'>The committed plan</a></li>\n")?;
    if drafted {
        page.own("<li><a href='#draft'>The draft</a></li>\n")?;
    }
    page.own("<li><a href='#cabinet'>The cabinet</a></li>\n</ul>\n</nav>\n")
}

fn push_committed(page: &mut Markup, plan: &TimingSet, warnings: &[Warning]) -> fmt::Result {
    let remarks = Remarks {
        reasons: &[],
        warnings,
    };
    page.own("<section id='plan' aria-labelledby='plan-title'>\n")?;
    page.own("<h2 id='plan-title'>The committed plan</h2>\n")?;
    push_warnings_note(page, warnings)?;
    push_plan(page, " of the committed plan", plan, &remarks)?;
    page.own("</section>\n")
}

/// Writes a plan with the remarks on it and, if it is a draft, before its tables what it changes in
/// the committed plan.
fn push_judged(
    page: &mut Markup,
    whose: &'static str,
    plan: &TimingSet,
    committed: Option<&TimingSet>,
) -> fmt::Result {
    let reasons = reasons(page.alloc(), plan)?;
    let warnings = warnings(page.alloc(), plan)?;
    let remarks = Remarks {
        reasons: &reasons,
        warnings: &warnings,
    };
    push_reasons_note(page, &reasons)?;
    push_warnings_note(page, &warnings)?;
    if let Some(committed) = committed {
        push_changes(page, committed, plan)?;
        page.own("<h3>The whole draft</h3>\n")?;
    }
    push_plan(page, whose, plan, &remarks)
}

fn push_intersection(
    page: &mut Markup,
    linked: bool,
    shown: &IntersectionShown<'_>,
) -> fmt::Result {
    let view = &shown.cabinet.view;
    push_heading(page, shown.state)?;
    push_facts(page, shown.state, view, shown.warnings.len())?;
    push_links(page, linked, shown.draft.is_some())?;
    page.own("</header>\n<main id='main'>\n")?;
    push_committed(page, shown.committed, shown.warnings)?;
    if let Some(draft) = shown.draft {
        page.own("<section id='draft' aria-labelledby='draft-title'>\n")?;
        page.own("<h2 id='draft-title'>The draft</h2>\n")?;
        push_judged(page, " of the draft", draft, Some(shown.committed))?;
        page.own("</section>\n")?;
    }
    push_cabinet(page, shown.state.interval, view)?;
    page.own(END)
}

/// The page of an intersection as one HTML text in UTF-8, which needs no other file: facts,
/// pictures and tables of the committed plan with its warnings; the draft, if there is one, with
/// what it changes, why it breaks rules, and its warnings; and the register of the cabinet. If it
/// is `linked`, it has a link to `index.html` beside it.
pub fn intersection_page(
    alloc: Global,
    linked: bool,
    shown: &IntersectionShown<'_>,
) -> Result<Vec<u8>, NoMemory> {
    let mut page = Markup::new(alloc);
    push_intersection(&mut page, linked, shown).map_err(|_| NoMemory)?;
    Ok(page.into_bytes())
}

fn push_plan_page(page: &mut Markup, file: &str, plan: &TimingSet) -> fmt::Result {
    let title = format!(in page.alloc(); "Timing plan: {file}")?;
    push_head(page, &title)?;
    page.own(BODY)?;
    page.enclose(
        "Timing plan: <bdi>",
        &file,
        "</bdi></h1>\n</header>\n<main id='main'>\n",
    )?;
    push_judged(page, "", plan, None)?;
    page.own(END)
}

/// The page of a plan alone as one HTML text in UTF-8, which needs no other file: the name of its
/// file, how many reasons there are why it breaks rules, its warnings, its pictures, and its
/// tables, each row with its reasons and warnings below it.
pub fn plan_page(alloc: Global, file: &str, plan: &TimingSet) -> Result<Vec<u8>, NoMemory> {
    let mut page = Markup::new(alloc);
    push_plan_page(&mut page, file, plan).map_err(|_| NoMemory)?;
    Ok(page.into_bytes())
}

//! What each command asks for, by the values that were found for its arguments. In the usages below
//! `--db FILE` stands for `--db FILE [--wait SECONDS]`.

ghost use Rattle.std.specs.Prelude.{◌≡◌};
ghost use Rattle.clap.specs.Matches.{found_of};
ghost use Rattle.clap.specs.Walk.{rows_of};
ghost use Rattle.signal_office_line.specs.Job.{add_at, compare_at, diagram_at, edit_at, export_at, import_at, job_at, office_of, orders_at, overdue_at, page_at, pages_at, request_at, serve_at, stock_at, used_at, work_at};
ghost use Rattle.signal_office_line.specs.Values.{number_within};

use crate::command_line::{COUNTS, IDS, INTERVALS, PATTERNS, PORTS, REVISIONS};
use crate::job::{BadWord, Edit, Folder, Job, NoJob, Request};
use crate::shows::{PlanShown, Shown, View};
use crate::values::{
    any_between, any_csv, any_day, any_intersection, any_office_file, any_part, any_path, between,
    choice, csv_file, day, flag, intersection, list_form, name, number, office_file, path,
};
use clap::ArgMatches;
use signal_values::{Interval, PatternNo};

/// `overdue --db FILE [--first N] [--csv [--headings]] DAY`.
#[tactic(auto, unfolding(crate::specs::Job::overdue_at))]
fn overdue<'a>(matches: &ArgMatches<'a>) -> Result<Job<'a>, NoJob>
    ensures { result ≡ overdue_at (rows_of (found_of matches.now)) }
{
    let db = office_file(matches)?;
    let most = choice(matches, "first", IDS)?.unwrap_or(IDS.1) as usize;
    let day = day(matches, "DAY")?;
    let form = list_form(matches);
    Ok(Job::Overdue {
        db,
        day,
        most,
        form,
    })
}

/// `stock --db FILE [--csv [--headings]]`, or `stock --db FILE PART`.
#[tactic(auto, unfolding(crate::specs::Job::stock_at))]
fn stock_or_part<'a>(matches: &ArgMatches<'a>) -> Result<Request<'a>, NoJob>
    ensures { result ≡ stock_at (rows_of (found_of matches.now)) }
{
    let shown = match any_part(matches, "PART")? {
        Some(part) => Shown::Part { part },
        None => Shown::Stock {
            form: list_form(matches),
        },
    };
    Ok(Request::Show(shown))
}

/// `orders --db FILE [--by-age DAY] [--csv [--headings]] [ID]`.
#[tactic(auto, unfolding(crate::specs::Job::orders_at))]
fn open_orders<'a>(matches: &ArgMatches<'a>) -> Result<Request<'a>, NoJob>
    ensures { result ≡ orders_at (rows_of (found_of matches.now)) }
{
    let id = any_intersection(matches, "ID")?;
    let by_age = any_day(matches, "by-age")?;
    let form = list_form(matches);
    Ok(Request::Show(Shown::Orders { id, by_age, form }))
}

/// `used --db FILE [--from DAY --to DAY] [--csv [--headings]] [PART]`.
#[tactic(auto, unfolding(crate::specs::Job::used_at))]
fn used<'a>(matches: &ArgMatches<'a>) -> Result<Request<'a>, NoJob>
    ensures { result ≡ used_at (rows_of (found_of matches.now)) }
{
    let part = any_part(matches, "PART")?;
    let between = any_between(matches)?;
    let form = list_form(matches);
    Ok(Request::Show(Shown::Used {
        part,
        between,
        form,
    }))
}

/// `work --db FILE --from DAY --to DAY [--csv [--headings]]`.
#[tactic(auto, unfolding(crate::specs::Job::work_at))]
fn work<'a>(matches: &ArgMatches<'a>) -> Result<Request<'a>, NoJob>
    ensures { result ≡ work_at (rows_of (found_of matches.now)) }
{
    let between = between(matches)?;
    let form = list_form(matches);
    Ok(Request::Show(Shown::Work { between, form }))
}

/// `add --db FILE ID INTERVAL NAME`.
#[tactic(auto, unfolding(crate::specs::Job::add_at))]
fn add<'a>(matches: &ArgMatches<'a>) -> Result<Request<'a>, NoJob>
    ensures { result ≡ add_at (rows_of (found_of matches.now)) }
{
    let id = intersection(matches, "ID")?;
    let days = number(matches, "INTERVAL", INTERVALS)?;
    let interval = Interval::new(days).ok_or(NoJob::Unstated)?;
    let name = name(matches, "NAME", BadWord::Name)?;
    Ok(Request::Add { id, interval, name })
}

/// `import --db FILE [--check] [--until DAY] [--explain] [--padded] CSV`.
#[tactic(auto, unfolding(crate::specs::Job::import_at))]
fn import<'a>(matches: &ArgMatches<'a>) -> Result<Request<'a>, NoJob>
    ensures { result ≡ import_at (rows_of (found_of matches.now)) }
{
    let csv = csv_file(matches, "CSV")?;
    let until = any_day(matches, "until")?;
    let check = flag(matches, "check");
    Ok(Request::Import { csv, until, check })
}

/// `export --db FILE [--draft | --cabinet] ID`, or `export --db FILE --all DIR`.
#[tactic(auto, unfolding(crate::specs::Job::export_at))]
fn export<'a>(matches: &ArgMatches<'a>) -> Result<Request<'a>, NoJob>
    ensures { result ≡ export_at (rows_of (found_of matches.now)) }
{
    if let Some(dir) = any_path(matches, "all") {
        let folder = Folder::Records;
        return Ok(Request::Fill { dir, folder });
    }
    let id = intersection(matches, "ID")?;
    let view = if flag(matches, "draft") {
        View::Draft
    } else if flag(matches, "cabinet") {
        View::Cabinet
    } else {
        View::Timing
    };
    Ok(Request::Show(Shown::Export { id, view }))
}

/// `pages --db FILE [--day DAY] DIR`.
#[tactic(auto, unfolding(crate::specs::Job::pages_at))]
fn pages<'a>(matches: &ArgMatches<'a>) -> Result<Request<'a>, NoJob>
    ensures { result ≡ pages_at (rows_of (found_of matches.now)) }
{
    let dir = path(matches, "DIR")?;
    let day = any_day(matches, "day")?;
    let folder = Folder::Pages { day };
    Ok(Request::Fill { dir, folder })
}

/// `edit --db FILE --clerk NAME [--replace] [--commit] [--revision N] [--explain] [--advise]
/// [--padded] ID CSV`, or `edit --db FILE --clerk NAME --commit [--revision N] [--explain]
/// [--advise] ID`.
#[tactic(auto, unfolding(crate::specs::Job::edit_at))]
fn edit<'a>(matches: &ArgMatches<'a>) -> Result<Request<'a>, NoJob>
    ensures { result ≡ edit_at (rows_of (found_of matches.now)) }
{
    let id = intersection(matches, "ID")?;
    let clerk = name(matches, "clerk", BadWord::Clerk)?;
    let revision = choice(matches, "revision", REVISIONS)?;
    Ok(Request::Edit(Edit {
        id,
        clerk,
        csv: any_csv(matches, "CSV"),
        replace: flag(matches, "replace"),
        commit: flag(matches, "commit"),
        revision,
        explain: flag(matches, "explain"),
        advise: flag(matches, "advise"),
    }))
}

/// What the named command asks of the office of a file; or why it asks nothing, by its values or
/// since it is another command.
#[tactic(auto, unfolding(crate::specs::Job::request_at))]
fn request_at<'a>(command: &str, matches: &ArgMatches<'a>) -> Result<Request<'a>, NoJob>
    ensures { result ≡ request_at command.now (rows_of (found_of matches.now)) }
{
    let shown = match command {
        "list" => Shown::List {
            form: list_form(matches),
        },
        "stock" => return stock_or_part(matches),
        "cabinet" => Shown::Cabinet {
            id: intersection(matches, "ID")?,
        },
        "orders" => return open_orders(matches),
        "used" => return used(matches),
        "work" => return work(matches),
        "add" => return add(matches),
        "import" => return import(matches),
        "export" => return export(matches),
        "pages" => return pages(matches),
        "edit" => return edit(matches),
        "abandon" => {
            let id = intersection(matches, "ID")?;
            let clerk = name(matches, "clerk", BadWord::Clerk)?;
            return Ok(Request::Abandon { id, clerk });
        }
        _ => return Err(NoJob::Unstated),
    };
    Ok(Request::Show(shown))
}

/// The job to do a request in the office of `--db`; or why no file is stated or, tested second, no
/// request.
fn office<'a>(matches: &ArgMatches<'a>, asked: Result<Request<'a>, NoJob>) -> Result<Job<'a>, NoJob>
    ensures { result ≡ office_of asked.entry (rows_of (found_of matches.now)) }
{
    let db = office_file(matches)?;
    let request = asked?;
    Ok(Job::Office { db, request })
}

/// `serve --port N [--count K] [--db FILE]`.
#[tactic(auto, unfolding(crate::specs::Job::serve_at))]
fn serve<'a>(matches: &ArgMatches<'a>) -> Result<Job<'a>, NoJob>
    ensures { result ≡ serve_at (rows_of (found_of matches.now)) }
{
    let port = number(matches, "port", PORTS)? as u16;
    let count = choice(matches, "count", COUNTS)?.unwrap_or(COUNTS.1);
    let db = any_office_file(matches)?;
    Ok(Job::Serve { port, count, db })
}

/// `compare [--csv] [--explain] [--padded] PLAN OTHER`, or `compare --db FILE [--csv] [--explain]
/// [--padded] ID [OTHER]`, whose ID is found as the argument `PLAN`.
#[tactic(auto, unfolding(crate::specs::Job::compare_at))]
fn compare<'a>(matches: &ArgMatches<'a>) -> Result<Job<'a>, NoJob>
    ensures { result ≡ compare_at (rows_of (found_of matches.now)) }
{
    let csv = flag(matches, "csv");
    let Some(db) = any_office_file(matches)? else {
        let first = csv_file(matches, "PLAN")?;
        let second = csv_file(matches, "OTHER")?;
        return Ok(Job::CompareFiles { first, second, csv });
    };
    let id = intersection(matches, "PLAN")?;
    let shown = match any_csv(matches, "OTHER") {
        None => Shown::CompareDraft { id, csv },
        Some(plan) => Shown::CompareRunning { id, plan, csv },
    };
    let request = Request::Show(shown);
    Ok(Job::Office { db, request })
}

/// The number of a pattern, 1 to 48, in an argument; `Unstated` if it is missing or no such number.
fn pattern(matches: &ArgMatches<'_>, id: &str) -> Result<PatternNo, NoJob>
    ensures { result ≡ number_within 1 48 id.now (rows_of (found_of matches.now)) }
{
    PatternNo::new(number(matches, id, PATTERNS)?).ok_or(NoJob::Unstated)
}

/// `diagram --db FILE ID PATTERN`, or `diagram --file CSV [--padded] PATTERN`, whose PATTERN is
/// found as the argument `ID`.
#[tactic(auto, unfolding(crate::specs::Job::diagram_at))]
fn diagram<'a>(matches: &ArgMatches<'a>) -> Result<Job<'a>, NoJob>
    ensures { result ≡ diagram_at (rows_of (found_of matches.now)) }
{
    if let Some(csv) = any_csv(matches, "file") {
        let pattern = pattern(matches, "ID")?;
        let shown = PlanShown::Diagram { pattern };
        return Ok(Job::ShowPlan { csv, shown });
    }
    let db = office_file(matches)?;
    let id = intersection(matches, "ID")?;
    let pattern = pattern(matches, "PATTERN")?;
    let request = Request::Show(Shown::Diagram { id, pattern });
    Ok(Job::Office { db, request })
}

/// `page --db FILE ID`, or `page --file CSV [--padded]`.
#[tactic(auto, unfolding(crate::specs::Job::page_at))]
fn page<'a>(matches: &ArgMatches<'a>) -> Result<Job<'a>, NoJob>
    ensures { result ≡ page_at (rows_of (found_of matches.now)) }
{
    if let Some(csv) = any_csv(matches, "file") {
        let shown = PlanShown::Page;
        return Ok(Job::ShowPlan { csv, shown });
    }
    let db = office_file(matches)?;
    let id = intersection(matches, "ID")?;
    let request = Request::Show(Shown::Page { id, linked: false });
    Ok(Job::Office { db, request })
}

/// The job that the named command states by its values, or why they state none.
pub(crate) fn job_at<'a>(command: &str, matches: &ArgMatches<'a>) -> Result<Job<'a>, NoJob>
    ensures { result ≡ job_at command.now (rows_of (found_of matches.now)) }
{
    match command {
        "batch" => {
            let db = any_office_file(matches)?;
            Ok(Job::Batch { db })
        }
        "migrate" => {
            let db = office_file(matches)?;
            Ok(Job::Migrate { db })
        }
        "backup" => {
            let db = office_file(matches)?;
            let to = path(matches, "TO")?;
            let force = flag(matches, "force");
            Ok(Job::Backup { db, to, force })
        }
        "verify-file" => {
            let csv = csv_file(matches, "CSV")?;
            let explain = flag(matches, "explain");
            let advise = flag(matches, "advise");
            Ok(Job::VerifyFile {
                csv,
                explain,
                advise,
            })
        }
        "sheet" => {
            let db = office_file(matches)?;
            let id = intersection(matches, "ID")?;
            Ok(Job::Sheet { db, id })
        }
        "overdue" => overdue(matches),
        "serve" => serve(matches),
        "compare" => compare(matches),
        "diagram" => diagram(matches),
        "page" => page(matches),
        _ => office(matches, request_at(command, matches)),
    }
}

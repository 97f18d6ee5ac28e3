//! The values that `clap` found for the arguments of a command.

ghost use Rattle.std.specs.Prelude.{◌≡◌, option_map};
ghost use Rattle.clap.specs.Matches.{found_of};
ghost use Rattle.clap.specs.Walk.{first_of, rows_of};
ghost use Rattle.signal_office_line.specs.Values.{any_between_at, any_db_at, any_of, between_at, choice_at, csv_at, day_at, db_at, flag_at, list_form_at, name_at, needed, number_within, number_of, word_at};
ghost use Rattle.office_files.specs.RecordReading.{day_of, part_of};

use crate::arguments::Range;
use crate::command_line::{IDS, WAITS};
use crate::job::{BadWord, NoJob, OfficeFile};
use crate::shows::{Between, CsvFile, ListForm};
use crate::words::{Name, Part, Path, day_of};
use cabinet_core::Day;
use clap::ArgMatches;
use signal_values::InterId;

/// For how many seconds a run waits while another one has its file open, if no number is given.
const USUAL_WAIT: u32 = 10;

/// The word of an argument, if it was given.
fn any_word<'a>(matches: &ArgMatches<'a>, id: &str) -> Option<&'a str>
    ensures { option_map (λ s. s.now) result ≡ first_of id.now (rows_of (found_of matches.now)) }
{
    matches.get_str(id)
}

/// The word of an argument as a path, if it was given.
pub(crate) fn any_path<'a>(matches: &ArgMatches<'a>, id: &str) -> Option<Path<'a>>
    ensures { result ≡ first_of id.now (rows_of (found_of matches.now)) }
{
    let word = any_word(matches, id)?;
    Some(Path::new(word))
}

/// The word of an argument as a path; `Unstated` if it is missing.
pub(crate) fn path<'a>(matches: &ArgMatches<'a>, id: &str) -> Result<Path<'a>, NoJob>
    ensures { result ≡ word_at id.now (rows_of (found_of matches.now)) }
{
    any_path(matches, id).ok_or(NoJob::Unstated)
}

/// The number from `least` to `most` that a word spells.
fn number_of(word: &str, least: u32, most: u32) -> Option<u32>
    ensures { result ≡ number_of least most word.now }
{
    match word.parse::<u32>() {
        Ok(number) if least <= number && number <= most => Some(number),
        _ => None,
    }
}

/// The number of an argument, if it was given; `Unstated` if its word spells no number of the
/// range.
pub(crate) fn choice(matches: &ArgMatches<'_>, id: &str, range: Range) -> Result<Option<u32>, NoJob>
    ensures { result ≡ choice_at range.0 range.1 id.now (rows_of (found_of matches.now)) }
{
    let Some(word) = any_word(matches, id) else {
        return Ok(None);
    };
    match number_of(word, range.0, range.1) {
        Some(number) => Ok(Some(number)),
        None => Err(NoJob::Unstated),
    }
}

/// The number of an argument; `Unstated` if it is missing or not in the range.
pub(crate) fn number(matches: &ArgMatches<'_>, id: &str, range: Range) -> Result<u32, NoJob>
    ensures { result ≡ number_within range.0 range.1 id.now (rows_of (found_of matches.now)) }
{
    choice(matches, id, range)?.ok_or(NoJob::Unstated)
}

/// The number of an intersection, 1 to 9999, in an argument; `Unstated` if it is missing or no such
/// number.
pub(crate) fn intersection(matches: &ArgMatches<'_>, id: &str) -> Result<InterId, NoJob>
    ensures { result ≡ number_within 1 9_999 id.now (rows_of (found_of matches.now)) }
{
    InterId::new(number(matches, id, IDS)?).ok_or(NoJob::Unstated)
}

/// The number of an intersection, 1 to 9999, in an argument, if it was given; `Unstated` if its
/// word spells no such number.
pub(crate) fn any_intersection(matches: &ArgMatches<'_>, id: &str) -> Result<Option<InterId>, NoJob>
    ensures { result ≡ choice_at 1 9_999 id.now (rows_of (found_of matches.now)) }
{
    match choice(matches, id, IDS)? {
        None => Ok(None),
        Some(number) => {
            let id = InterId::new(number).ok_or(NoJob::Unstated)?;
            Ok(Some(id))
        }
    }
}

/// Whether a flag was given.
pub(crate) fn flag(matches: &ArgMatches<'_>, id: &str) -> bool
    ensures { result ≡ flag_at id.now (rows_of (found_of matches.now)) }
{
    match any_word(matches, id) {
        Some(word) => word == "true",
        None => false,
    }
}

/// The word of an argument as a name of 1 to `MAX` bytes; `Unstated` if it is missing, `bad` if it
/// is no such name.
pub(crate) fn name<'a, const MAX: usize>(
    matches: &ArgMatches<'a>,
    id: &str,
    bad: BadWord,
) -> Result<Name<'a, MAX>, NoJob>
    ensures { result ≡ name_at bad MAX id.now (rows_of (found_of matches.now)) }
{
    let word = any_word(matches, id).ok_or(NoJob::Unstated)?;
    Name::parse(word).ok_or(NoJob::Bad(bad))
}

/// The day that an argument's word spells as `YYYY-MM-DD`, if it was given; `Bad` if it spells no
/// day.
pub(crate) fn any_day(matches: &ArgMatches<'_>, id: &str) -> Result<Option<Day>, NoJob>
    ensures { result
        ≡ any_of BadWord.Day day_of (first_of id.now (rows_of (found_of matches.now))) }
{
    match any_word(matches, id) {
        None => Ok(None),
        Some(word) => {
            let day = day_of(word).ok_or(NoJob::Bad(BadWord::Day))?;
            Ok(Some(day))
        }
    }
}

/// The day that an argument's word spells; `Unstated` if it is missing, `Bad` if it spells no day.
pub(crate) fn day(matches: &ArgMatches<'_>, id: &str) -> Result<Day, NoJob>
    ensures { result ≡ day_at id.now (rows_of (found_of matches.now)) }
{
    any_day(matches, id)?.ok_or(NoJob::Unstated)
}

/// The days of `--from DAY --to DAY`; `Unstated` if one is missing, `Bad` if a word spells no day.
pub(crate) fn between(matches: &ArgMatches<'_>) -> Result<Between, NoJob>
    ensures { result ≡ between_at (rows_of (found_of matches.now)) }
{
    let from = day(matches, "from")?;
    let to = day(matches, "to")?;
    Ok(Between { from, to })
}

/// The days of `--from DAY --to DAY`, if `--from` was given; errors as `between`.
pub(crate) fn any_between(matches: &ArgMatches<'_>) -> Result<Option<Between>, NoJob>
    ensures { result ≡ any_between_at (rows_of (found_of matches.now)) }
{
    if any_word(matches, "from").is_none() {
        return Ok(None);
    }
    let between = between(matches)?;
    Ok(Some(between))
}

/// How a list is printed, by `--csv` and `--headings`.
pub(crate) fn list_form(matches: &ArgMatches<'_>) -> ListForm
    ensures { result ≡ list_form_at (rows_of (found_of matches.now)) }
{
    match (flag(matches, "csv"), flag(matches, "headings")) {
        (true, true) => ListForm::HeadedCsv,
        (true, false) => ListForm::Csv,
        (false, _) => ListForm::Lines,
    }
}

/// The word of an argument as a part's code, if it was given; `Bad` if it is no such code.
pub(crate) fn any_part<'a>(matches: &ArgMatches<'a>, id: &str) -> Result<Option<Part<'a>>, NoJob>
    ensures { result
        ≡ any_of BadWord.Part part_of (first_of id.now (rows_of (found_of matches.now))) }
{
    match any_word(matches, id) {
        None => Ok(None),
        Some(word) => {
            let part = Part::parse(word).ok_or(NoJob::Bad(BadWord::Part))?;
            Ok(Some(part))
        }
    }
}

/// The CSV file of an argument, if it was given, and whether `--padded` and `--explain` were.
pub(crate) fn any_csv<'a>(matches: &ArgMatches<'a>, id: &str) -> Option<CsvFile<'a>>
    ensures { result ≡ csv_at id.now (rows_of (found_of matches.now)) }
{
    let path = any_path(matches, id)?;
    let padded = flag(matches, "padded");
    let explain = flag(matches, "explain");
    Some(CsvFile {
        path,
        padded,
        explain,
    })
}

/// The CSV file of an argument; `Unstated` if it is missing.
pub(crate) fn csv_file<'a>(matches: &ArgMatches<'a>, id: &str) -> Result<CsvFile<'a>, NoJob>
    ensures { result ≡ needed (csv_at id.now (rows_of (found_of matches.now))) }
{
    any_csv(matches, id).ok_or(NoJob::Unstated)
}

/// The file of an office by `--db FILE [--wait SECONDS]`, if it was given. `Unstated` if SECONDS is
/// no number from 0 to 3600.
pub(crate) fn any_office_file<'a>(matches: &ArgMatches<'a>) -> Result<Option<OfficeFile<'a>>, NoJob>
    ensures { result ≡ any_db_at (rows_of (found_of matches.now)) }
{
    let Some(path) = any_path(matches, "db") else {
        return Ok(None);
    };
    let wait = choice(matches, "wait", WAITS)?.unwrap_or(USUAL_WAIT);
    Ok(Some(OfficeFile { path, wait }))
}

/// The file of an office by `--db FILE [--wait SECONDS]`; `Unstated` if it is missing, or if
/// SECONDS is no number from 0 to 3600.
pub(crate) fn office_file<'a>(matches: &ArgMatches<'a>) -> Result<OfficeFile<'a>, NoJob>
    ensures { result ≡ db_at (rows_of (found_of matches.now)) }
{
    any_office_file(matches)?.ok_or(NoJob::Unstated)
}

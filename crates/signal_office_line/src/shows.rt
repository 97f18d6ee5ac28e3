//! What commands show of an office, or of a plan in a CSV file.

use crate::words::{Part, Path};
use cabinet_core::Day;
use signal_values::{InterId, PatternNo};

/// A CSV file, or `-` for standard input; whether its records may be padded with empty fields at
/// their end, which are then dropped; and whether each bad one is explained.
#[derive(Drop)]
pub struct CsvFile<'a> {
    pub path: Path<'a>,
    pub padded: bool,
    pub explain: bool,
}

/// How a list is printed.
#[derive(Clone, Copy)]
pub enum ListForm {
    /// Lines of columns under a heading, and then their number.
    Lines,
    /// CSV.
    Csv,
    /// CSV; its first record has the names of the fields.
    HeadedCsv,
}

/// The days from one to another, both included; none if `from` is later than `to`.
#[derive(Clone, Copy)]
pub struct Between {
    pub from: Day,
    pub to: Day,
}

/// What of an intersection is exported as CSV.
#[derive(Clone, Copy)]
pub enum View {
    /// The committed timing set of the intersection.
    Timing,
    /// The draft of the intersection's timing set.
    Draft,
    /// The records of the intersection's cabinet.
    Cabinet,
}

/// What is printed of an office, which stays as it is.
#[derive(Drop)]
pub enum Shown<'a> {
    /// The timing sheet of an intersection.
    Sheet {
        id: InterId,
    },
    /// The intersections that are overdue for inspection on a day, at most `most` of them, 1 to
    /// 9999, those with the lowest numbers.
    Overdue {
        day: Day,
        most: usize,
        form: ListForm,
    },
    /// All intersections.
    List {
        form: ListForm,
    },
    /// What is on hand of each part.
    Stock {
        form: ListForm,
    },
    /// What is on hand of a part, its deliveries and its uses.
    Part {
        part: Part<'a>,
    },
    /// The open orders of an intersection, or of all; with a day, those that were opened on it or
    /// before, the oldest first, with their age in days.
    Orders {
        id: Option<InterId>,
        by_age: Option<Day>,
        form: ListForm,
    },
    /// What was used of all parts, or of one; with days, only on these. A used part has the day on
    /// which its order was closed or, if that is open, was opened.
    Used {
        part: Option<Part<'a>>,
        between: Option<Between>,
        form: ListForm,
    },
    /// What was inspected, opened, used and closed on some days, in all intersections.
    Work {
        between: Between,
        form: ListForm,
    },
    /// The register of an intersection's cabinet.
    Cabinet {
        id: InterId,
    },
    /// The committed timing set, the draft or the cabinet of an intersection, as CSV.
    Export {
        id: InterId,
        view: View,
    },
    /// The picture of a pattern of an intersection's committed timing set, as SVG.
    Diagram {
        id: InterId,
        pattern: PatternNo,
    },
    /// What an intersection's draft changes, as a text or as CSV.
    CompareDraft {
        id: InterId,
        csv: bool,
    },
    /// The differences between the committed timing set of an intersection and the plan in a CSV
    /// file, as a text or as CSV.
    CompareRunning {
        id: InterId,
        plan: CsvFile<'a>,
        csv: bool,
    },
    /// The HTML page of an intersection; if `linked`, with a link to the index.
    Page {
        id: InterId,
        linked: bool,
    },
    /// The HTML index page of all intersections, which marks those that are overdue for inspection
    /// on a day, if one is given.
    Index {
        day: Option<Day>,
    },
}

/// What is printed of the plan in a CSV file.
#[derive(Clone, Copy)]
pub enum PlanShown {
    /// The rules that the plan breaks, with their reasons if `explain`, and then its warnings if
    /// `advise`.
    Violations { explain: bool, advise: bool },
    /// The picture of a pattern of the plan, as SVG.
    Diagram { pattern: PatternNo },
    /// The HTML page of the plan.
    Page,
}

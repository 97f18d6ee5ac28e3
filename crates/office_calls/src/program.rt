//! `signal_office`: the jobs of words, and words that are run.

use office_http::{FromRead, ToWrite};
use signal_office::run_words;
use signal_office_line::{Job, JobFault, ListForm, job_of};
use std::alloc::Global;
use std::test::Fail;

/// Words after the program's name, and the job that they state.
const JOBS: [(&str, &str); 9] = [
    ("batch --db city.db", "batch"),
    ("serve --port 8080 --count 3", "serve"),
    ("sheet --db city.db 12", "sheet"),
    ("overdue --db city.db 2026-05-01", "overdue"),
    ("overdue --db city.db 2026-02-30", "a word"),
    ("verify-file plan.csv", "verify-file"),
    ("migrate --db city.db", "migrate"),
    ("sheet --db city.db 0", "refused"),
    ("--help", "refused"),
];

/// The kind of a job, by its fields.
fn kind(found: &Result<Job<'_>, JobFault>) -> &'static str {
    match found {
        Ok(Job::Batch { db: Some(_) }) => "batch",
        Ok(
            Job::Serve {
                port: 8_080,
                count: 3,
                db: None,
            },
        ) => "serve",
        Ok(Job::Sheet { db: _, id }) if id.get() == 12 => "sheet",
        Ok(
            Job::Overdue {
                day,
                most: 9_999,
                form: ListForm::Lines,
                ..
            },
        ) if day.number() == 20_574 => "overdue",
        Ok(
            Job::VerifyFile {
                explain: false,
                advise: false,
                ..
            },
        ) => "verify-file",
        Ok(Job::Migrate { .. }) => "migrate",
        Ok(Job::ReportBadWord(_)) => "a word",
        Ok(_) => "another job",
        Err(JobFault::Refused(_)) => "refused",
        Err(JobFault::NoMemory) => "memory",
    }
}

/// The words of a line, after the program's name.
fn words_of<'a>(alloc: Global, line: &'a str) -> Result<Vec<&'a str>, Fail> {
    let mut words = Vec::new(alloc);
    words.push("signal_office")?;
    for word in line.split(' ') {
        words.push(word)?;
    }
    Ok(words)
}

/// The kind of the job that a line states.
fn job_kind(alloc: Global, line: &str) -> Result<&'static str, Fail> {
    let words = words_of(alloc, line)?;
    Ok(kind(&job_of(alloc, &words)))
}

/// The status of a line that is run over some input, and what it prints.
fn run(rt: &HostRuntime, line: &str, input: &[u8]) -> Result<(u8, Vec<u8>), Fail> {
    let alloc = rt.alloc();
    let words = words_of(alloc, line)?;
    let mut source = FromRead::new(input);
    let mut out = ToWrite::new(Vec::new(alloc));
    let mut err = ToWrite::new(Vec::new(alloc));
    let status: u8 = run_words(rt, alloc, &words, &mut source, &mut out, &mut err);
    Ok((status, out.writer))
}

#[test]
fn jobs(rt: HostRuntime) -> Result<(), Fail> {
    for (line, wanted) in JOBS {
        assert_eq!(rt; job_kind(rt.alloc(), line)?, wanted, "{line}");
    }
    Ok(())
}

#[test]
fn words_are_run(rt: HostRuntime) -> Result<(), Fail> {
    let (status, printed) = run(&rt, "batch", b"GET /stock HTTP/1.1\r\n\r\n")?;
    assert!(rt; status == 0 && printed.ends_with(b"{\"hand\":[]}"));
    let (status, printed) = run(&rt, "overdue --db city.db 2026-02-30", b"")?;
    assert!(rt; status == 1 && printed.is_empty());
    Ok(())
}

//! `signal_records`: numbers, words, the records of a plan, their grammar, and the timing set.

use signal_records::{
    Amount, Change, Cycle, Fields, InterId, Interval, Key, Lead, LineNo, Pattern, PatternNo, Ped,
    Phase, PhaseList, PhaseNo, RecordNo, RingNo, Row, RowFault, SeqNo, SeqRow, Setback, Split,
    SplitMode, SplitNo, TimingSet, Width, Words, need, read_change, read_row, write_row,
};
use std::alloc::Global;
use std::test::Fail;

/// Numbers of the rows of a plan.
#[derive(Clone, Copy)]
pub(crate) struct Numbers {
    pub(crate) phase: PhaseNo,
    pub(crate) ring: RingNo,
    pub(crate) seq: SeqNo,
    pub(crate) split: SplitNo,
    pub(crate) pattern: PatternNo,
}

/// Numbers of the records of a register.
#[derive(Clone, Copy)]
pub(crate) struct RegisterNumbers {
    pub(crate) id: InterId,
    pub(crate) interval: Interval,
    pub(crate) number: RecordNo,
    pub(crate) line: LineNo,
    pub(crate) count: Amount,
}

/// The numbers 1, 2, 3, 4 and 5.
pub(crate) fn numbers_of_plan() -> Option<Numbers> {
    Some(Numbers {
        phase: PhaseNo::new(1)?,
        ring: RingNo::new(2)?,
        seq: SeqNo::new(3)?,
        split: SplitNo::new(4)?,
        pattern: PatternNo::new(5)?,
    })
}

/// The numbers 12, 365, 1, 2 and 8.
pub(crate) fn numbers_of_register() -> Option<RegisterNumbers> {
    Some(RegisterNumbers {
        id: InterId::new(12)?,
        interval: Interval::new(365)?,
        number: RecordNo::new(1)?,
        line: LineNo::new(2)?,
        count: Amount::new(8)?,
    })
}

/// The ten numbers, as they are given back.
fn given_back() -> Option<[u32; 10]> {
    let (plan, register) = (numbers_of_plan()?, numbers_of_register()?);
    Some([
        plan.phase.get(),
        plan.ring.get(),
        plan.seq.get(),
        plan.split.get(),
        plan.pattern.get(),
        register.id.get(),
        register.interval.get(),
        register.number.get(),
        register.line.get(),
        register.count.get(),
    ])
}

/// Words of a text.
pub(crate) fn make_words<const MAX: usize>(alloc: Global, text: &str) -> Result<Words<MAX>, Fail> {
    let made: Option<Words<MAX>> = Words::new(alloc, text.as_bytes())?;
    Ok(made.ok_or("words")?)
}

/// A list of phases.
fn list(alloc: Global, phases: &[u8]) -> Result<PhaseList, Fail> {
    let made: Option<PhaseList> = PhaseList::new(alloc, phases)?;
    Ok(made.ok_or("phases")?)
}

/// A pedestrian part, by its fields.
fn ped() -> Option<Ped> {
    Some(Ped {
        walk: 7,
        clear: 12,
        width: Width::new(490)?,
        setback: Setback::new(60)?,
        short: false,
        lead: Lead::new(0)?,
    })
}

/// A phase, by its fields.
fn phase(alloc: Global) -> Result<Phase, Fail> {
    let ring = RingNo::new(2).ok_or("a ring")?;
    let ped = ped();
    Ok(Phase {
        ring,
        min_green: 8,
        passage: 20,
        max1: 40,
        yellow: 40,
        red: 15,
        mates: list(alloc, &[6, 7])?,
        ped,
    })
}

/// A pattern, by its fields.
fn pattern(at: Numbers) -> Option<Pattern> {
    Some(Pattern {
        cycle: Cycle::new(60)?,
        offset: 0,
        split: at.split,
        seq: at.seq,
    })
}

/// Puts a row of each kind, and removes the pattern.
pub(crate) fn changes(alloc: Global) -> Result<Vec<Change>, Fail> {
    let at = numbers_of_plan().ok_or("numbers")?;
    let last = pattern(at).ok_or("a pattern")?;
    let split = Split {
        time: 35,
        mode: SplitMode::MinimumVehicleRecall,
        coord: true,
    };
    let mut changes = Vec::new(alloc);
    changes.push(Change::Put(Row::Split(at.split, at.phase, split)))?;
    changes.push(Change::Put(Row::Pattern(at.pattern, last)))?;
    changes.push(Change::Remove(Key::Pattern(at.pattern)))?;
    let row = Row::Phase(at.phase, phase(alloc)?);
    changes.push(Change::Put(row))?;
    let list = list(alloc, &[1, 4])?;
    let row = Row::Seq(at.seq, at.ring, SeqRow { list });
    changes.push(Change::Put(row))?;
    Ok(changes)
}

/// The set that these changes make.
pub(crate) fn set(alloc: Global) -> Result<TimingSet, Fail> {
    let changes = changes(alloc)?;
    let mut set = TimingSet::new(alloc);
    set.apply(alloc, &changes)?;
    Ok(set)
}

/// How many rows a set lists, and whether its copy has a row of each of two keys.
fn looked_up(alloc: Global, set: &TimingSet) -> Result<(usize, bool, bool), Fail> {
    let at = numbers_of_plan().ok_or("numbers")?;
    let copy: TimingSet = set.copy(alloc)?;
    let phase: Option<&Row> = copy.get(&Key::Phase(at.phase));
    let pattern = copy.get(&Key::Pattern(at.pattern));
    let found = (phase.is_some(), pattern.is_some());
    let rows: Vec<Row> = set.rows(alloc)?;
    Ok((rows.len(), found.0, found.1))
}

/// Whether fields are read as a row and as a change, and the row is written as these fields again.
fn is_spelled(alloc: Global, fields: &[&[u8]]) -> Result<bool, Fail> {
    let row: Result<Row, RowFault> = read_row(alloc, fields);
    let row = row?;
    let change: Change = read_change(alloc, fields)?;
    let written: Fields = write_row(alloc, &row)?;
    let pairs = written.as_slice().iter().zip(fields);
    let mut same = written.as_slice().len() == fields.len();
    for (text, field) in pairs {
        same = same && text.as_bytes() == *field;
    }
    Ok(same && change == Change::Put(row))
}

#[test]
fn records(rt: HostRuntime) -> Result<(), Fail> {
    let alloc = rt.alloc();
    let given = given_back().ok_or("numbers")?;
    assert_eq!(rt; given, [1, 2, 3, 4, 5, 12, 365, 1, 2, 8]);
    assert_eq!(rt; looked_up(alloc, &set(alloc)?)?, (3, true, false));
    let fields: [&[u8]; 6] = [b"split", b"4", b"1", b"35", b"3", b"1"];
    assert!(rt; is_spelled(alloc, &fields)?);
    let phase = phase(alloc)?;
    let needs = (
        need(&phase, SplitMode::PedestrianRecall),
        need(&phase, SplitMode::NoRecall),
    );
    assert_eq!(rt; needs, (245, 135));
    assert_eq!(rt; RowFault::Mode.number(), 6);
    Ok(())
}

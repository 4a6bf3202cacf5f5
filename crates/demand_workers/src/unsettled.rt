// Students whom what is remembered does not settle.
ghost use Rattle.std.specs.Prelude.{◌≡◌, ◌<◌, ◌≤◌, ◌+◌, ◌*◌, ℕ, [], All, IfOk, false, length};
ghost use Rattle.std.specs.Prelude.{max, slice_index_or};
ghost use Rattle.std.specs.Arc.{arc_value};
ghost use Rattle.bundle_rules.specs.{Bundles.sections_of, Demand.price_in};
ghost use Rattle.demand_api.specs.{Crowds.demand_of, Views.data_of};
ghost use Rattle.demand_workers.specs.{Remembered.AreTaken};
ghost use Rattle.price_board.specs.Tasks.{no_task};
ghost use Rattle.demand_workers.specs.Rounds.{AreVersionsFor, prices_of};
ghost use Rattle.demand_workers.specs.Surveyed.{AreSurveyed};
ghost use Rattle.demand_workers.specs.Surveys.{AreEachWithin, AreOthersKept, AreSettledRows};
ghost use Rattle.demand_workers.specs.Surveys.{IsSettledRow, IsSurvey};
ghost use Rattle.demand_workers.specs.Views.{crowd_of};
ghost use Rattle.demand_workers.specs.Found.{tasks_of};

use crate::cheaper::Cheaper;
use crate::inquiry::{Inquiries, copies_of};
use crate::question::Question;
use crate::remembered::Remembered;
use bundle_rules::Bundle;
use demand_api::Crowd;
use market_units::{MAX_SECTIONS, MAX_STEPS, NoMemory, StudentNo, Tokens};
use price_board::Task;
use std::alloc::Global;
use std::sync::Arc;
use std::thread::Threads;
use worker_threads::for_each_mut;

// A thread is worth its start for so many students, each counted at each version.
const SHARE: usize = 4096;

// So many neighbours a turn of a search has at most: one for each step, and one for each section.
const ROW: usize = MAX_STEPS + MAX_SECTIONS as usize;

/// The inquiries at these versions that have to be made, of what is remembered. The only error is
/// that memory was not given.
pub(crate) fn inquiries_at<R: Threads + Sync>(
    rt: &R,
    alloc: Global,
    workers: u16,
    remembered: &Arc<Remembered>,
    versions: &[Vec<Tokens>],
) -> Result<Inquiries, NoMemory>
    requires { AreVersionsFor (crowd_of (arc_value remembered.now)) versions.now }
    ensures few { IfOk result
        (λ inquiries. length (tasks_of inquiries)
        ≤ length versions.now * length (crowd_of (arc_value remembered.now)).students) }
    ensures remembered { IfOk result
        (λ inquiries. arc_value inquiries.remembered ≡ arc_value remembered.now) }
    ensures versions { IfOk result
        (λ inquiries. prices_of (arc_value inquiries.round).versions.items ≡ prices_of versions.now) }
    ensures surveyed { IfOk result AreSurveyed }
{
    let list = unsettled(rt, alloc, workers, remembered, versions)?;
    let inquiries = Inquiries::of(alloc, remembered, copies_of(alloc, versions)?, list, 1)?;
    Ok(inquiries)
}

// An inquiry for each student at each of these versions at which what is remembered does not settle
// what it takes. Several workers look for them where that is worth a thread.
fn unsettled<R: Threads + Sync>(
    rt: &R,
    alloc: Global,
    workers: u16,
    remembered: &Remembered,
    versions: &[Vec<Tokens>],
) -> Result<Vec<Task>, NoMemory>
    requires { AreVersionsFor (crowd_of remembered.now) versions.now }
    ensures few { IfOk result
        (λ inquiries. length inquiries.items
        ≤ length versions.now * length remembered.now.bundles.items) }
    ensures survey { IfOk result
        (λ inquiries. IsSurvey (crowd_of remembered.now) remembered.now.bundles.items
        (prices_of versions.now) (length versions.now) inquiries.items) }
{
    let rows = settled_rows(rt, alloc, workers, remembered, versions)?;
    let mut inquiries = Vec::new(alloc);
    'versions: for version in 0..versions.len() {
        add_unsettled(remembered, versions, version, &rows, &mut inquiries)?;
    }
    Ok(inquiries)
}

// A row for each student: at which versions what is remembered settles what it takes. All memory is
// taken before the first thread starts.
fn settled_rows<R: Threads + Sync>(
    rt: &R,
    alloc: Global,
    workers: u16,
    remembered: &Remembered,
    versions: &[Vec<Tokens>],
) -> Result<Vec<[bool; ROW]>, NoMemory>
    requires { AreVersionsFor (crowd_of remembered.now) versions.now }
    ensures { IfOk result
        (λ rows. AreSettledRows (crowd_of remembered.now) remembered.now.bundles.items
        (prices_of versions.now) rows.items) }
{
    let cheaper = cheaper_at_each(alloc, remembered, versions)?;
    let mut rows = vec![in alloc; [false; ROW]; remembered.bundles.len()]?;
    settle_rows(
        rt,
        workers,
        remembered,
        versions,
        &cheaper,
        rows.as_mut_slice(),
    );
    Ok(rows)
}

// Where the sections stand that became cheaper, at each version.
fn cheaper_at_each(
    alloc: Global,
    remembered: &Remembered,
    versions: &[Vec<Tokens>],
) -> Result<Vec<Cheaper>, NoMemory>
    ensures count { IfOk result (λ cheaper. length cheaper.items ≡ length versions.now) }
    ensures within { IfOk result
        (λ cheaper. AreEachWithin remembered.now.prices.items (prices_of versions.now)
        cheaper.items) }
{
    let mut cheaper = Vec::with_capacity(alloc, versions.len())?;
    'versions: for version in 0..versions.len() {
        let prices: &[Tokens] = &versions[version];
        cheaper.push(Cheaper::between(&remembered.prices, prices))?;
    }
    Ok(cheaper)
}

// Writes the row of each student, in threads. All versions of a student stand in one row, so that
// its menu is fetched once: 2,000 menus do not fit in the cache that a processor has for itself.
fn settle_rows<R: Threads + Sync>(
    rt: &R,
    workers: u16,
    remembered: &Remembered,
    versions: &[Vec<Tokens>],
    cheaper: &[Cheaper],
    rows: &mut [[bool; ROW]],
)
    requires versions { AreVersionsFor (crowd_of remembered.now) versions.now }
    requires count { length cheaper.now ≡ length versions.now }
    requires within { AreEachWithin remembered.now.prices.items (prices_of versions.now)
        cheaper.now }
    requires students { length rows.old ≡ length remembered.now.bundles.items }
    ensures { AreSettledRows (crowd_of remembered.now) remembered.now.bundles.items
        (prices_of versions.now) rows.new }
{
    let students = remembered.bundles.len().saturating_mul(versions.len());
    let threads = threads_for(workers, students);
    for_each_mut(
        rt,
        rows,
        threads,
        &|student, row|
            requires { (student < length remembered.now.bundles.items)
                × AreVersionsFor (crowd_of remembered.now) versions.now
                × (length cheaper.now ≡ length versions.now)
                × AreEachWithin remembered.now.prices.items (prices_of versions.now) cheaper.now }
            ensures { IsSettledRow (crowd_of remembered.entry.now)
                remembered.entry.now.bundles.items (prices_of versions.entry.now) student
                row.exit.now }
        { settle_row(remembered, versions, cheaper, student, row) },
    );
}

// In how many threads so many students are settled, each counted at each version: one for each
// 4,096, at most as many as there are workers, and at least one.
fn threads_for(workers: u16, students: usize) -> usize
    ensures some { 0 < result }
    ensures most { result ≤ max workers 1 }
{
    (students / SHARE).min(usize::from(workers)).max(1)
}

// Writes for each version of the row whether the student surely takes there what is remembered.
fn settle_row(
    remembered: &Remembered,
    versions: &[Vec<Tokens>],
    cheaper: &[Cheaper],
    student: usize,
    row: &mut [bool; ROW],
)
    requires versions { AreVersionsFor (crowd_of remembered.now) versions.now }
    requires count { length cheaper.now ≡ length versions.now }
    requires within { AreEachWithin remembered.now.prices.items (prices_of versions.now)
        cheaper.now }
    requires student { student < length remembered.now.bundles.items }
    ensures { IsSettledRow (crowd_of remembered.now) remembered.now.bundles.items
        (prices_of versions.now) student row.new }
{
    let number = StudentNo(student as u16);
    let count = row.len().min(versions.len());
    'versions: for version in 0..count {
        let prices: &[Tokens] = &versions[version];
        let question = Question {
            remembered,
            prices,
            student: number,
        };
        row[version] = question.stays(cheaper[version]);
    }
}

// Adds those of one version, by the rows of all students.
fn add_unsettled(
    remembered: &Remembered,
    _versions: &[Vec<Tokens>],
    version: usize,
    rows: &[[bool; ROW]],
    inquiries: &mut Vec<Task>,
) -> Result<(), NoMemory>
    requires version { version < length _versions.now }
    requires rows { AreSettledRows (crowd_of remembered.now) remembered.now.bundles.items
        (prices_of _versions.now) rows.now }
    requires survey { IsSurvey (crowd_of remembered.now) remembered.now.bundles.items
        (prices_of _versions.now) version inquiries.old.items }
    ensures few { IfOk result
        (λ done. length inquiries.new.items
        ≤ length inquiries.old.items + length remembered.now.bundles.items) }
    ensures survey { IfOk result
        (λ done. IsSurvey (crowd_of remembered.now) remembered.now.bundles.items
        (prices_of _versions.now) (version + 1) inquiries.new.items) }
{
    'students: for place in 0..remembered.bundles.len() {
        if is_settled(rows, version, place) {
            continue;
        }
        let student = StudentNo(place as u16);
        inquiries.push(Task {
            student,
            version,
            raised: None,
        })?;
    }
    Ok(())
}

// Whether the student's row says that it is settled at the version. A student without a row, and
// one at a version beyond its row, is not known to be.
fn is_settled(rows: &[[bool; ROW]], version: usize, student: usize) -> bool
    ensures { result ≡ slice_index_or (slice_index_or rows.now student []) version false }
{
    if student >= rows.len() {
        return false;
    }
    let row = &rows[student];
    version < row.len() && row[version]
}

/// Writes what was found at a version for those who were asked there. The others take at its prices
/// what stands for them.
pub(crate) fn write_found(
    _crowd: &Crowd,
    _prices: &[Tokens],
    inquiries: &[Task],
    found: &[Bundle],
    version: usize,
    bundles: &mut [Bundle],
)
    requires each { length found.now ≡ length inquiries.now }
    requires students { All (λ inquiry. inquiry.student.0 < length bundles.old) inquiries.now }
    requires found { (k : ℕ) (d : Bundle) → k < length found.now
        → (slice_index_or inquiries.now k no_task).version ≡ version
        → sections_of (slice_index_or found.now k d)
        ≡ demand_of (data_of _crowd.now) (price_in _prices.now)
        (slice_index_or inquiries.now k no_task).student.0 }
    requires others { AreOthersKept (data_of _crowd.now) bundles.old _prices.now version
        inquiries.now }
    ensures len { length bundles.new ≡ length bundles.old }
    ensures taken { AreTaken (data_of _crowd.now) _prices.now bundles.new }
{
    for place in 0..found.len() {
        let inquiry = inquiries[place];
        if inquiry.version != version {
            continue;
        }
        bundles[usize::from(inquiry.student.0)] = found[place];
    }
}

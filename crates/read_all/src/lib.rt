// Many stretches of one recording in one call (Request 06), in passes over the table: whether every stretch lies within the rows, what the
// reader refuses, whether all lists have room, and last the lists. No byte is written before every refusal is ruled out.
#![tactic(auto)]

ghost use Rattle.std.specs.Prelude.{◌≡◌, ◌+◌, ◌≤◌, ltb, leb, length};
ghost use Rattle.std.proofs.lemmas.List.Edits.{sets};
ghost use Rattle.job.specs.Refusals.{when, first, given};
ghost use Rattle.read.specs.Read.{list_of};
ghost use Rattle.read.specs.Parts.{Rows, kept_all, room_of};
ghost use Rattle.read_all.specs.ReadAll.{stretch, list_for, lists_of, counts_of, place_refusals, own_refusals, first_job, ListedAll};
ghost use Rattle.read_all.specs.Passes.{stopped, length_refusals, room_refusals, columns_of, Placed, Good};

use job::{Detail, ENTRY_BYTES, Reason, Refusal};
use read::Opened;

// "its first column, length and opening column": the first of the recording's columns, the other counted from there.
#[repr(C)]
#[derive(Clone, Copy)]
pub struct Job {
    pub first: usize,
    pub length: usize,
    pub opening: usize,
}

// Two rows of one length.
#[derive(Clone, Copy)]
struct Recording<'a> {
    cdm: &'a [u8],
    cds: &'a [u8],
    ghost even: { length cdm.now ≡ length cds.now },
}

pub fn read_all(
    cdm: &[u8],
    cds: &[u8],
    jobs: &[Job],
    out: &mut [u8],
    counts: &mut [usize],
) -> Result<usize, Refusal>
    ensures { ListedAll cdm.now cds.now jobs.now out.old counts.old result out.new counts.new }
{
    wrong_lengths(cdm.len(), cds.len(), jobs.len(), counts.len())?;
    place_all(cdm.len(), jobs)?;
    let recording = Recording { cdm, cds };
    recording.judge_all(jobs)?;
    recording.count_all(jobs, out.len())?;
    Ok(recording.write_all(jobs, out, counts))
}

// 32 or 6, by the lengths alone.
fn wrong_lengths(columns: usize, others: usize, jobs: usize, counts: usize) -> Result<(), Reason>
    ensures { given result ≡ first (length_refusals columns others jobs counts) }
{
    if counts != jobs {
        Err(Reason::WrongTally)
    } else if columns != others {
        Err(Reason::RowsDiffer)
    } else {
        Ok(())
    }
}

// 20 of the first stretch that lies outside the rows.
fn place_all(columns: usize, jobs: &[Job]) -> Result<(), Refusal>
    ensures { stopped result ≡ first_job (place_refusals columns) 0 jobs.now }
{
    for (i, job) in jobs.iter().enumerate() {
        if outside(columns, *job) {
            return Err(Refusal {
                reason: Reason::OutsideRows,
                beside: Detail::OfJob(i),
            });
        }
    }
    Ok(())
}

// Whether a stretch ends behind the last column, with no sum that could wrap.
fn outside(columns: usize, job: Job) -> bool
    ensures { result ≡ ltb columns (job.first + job.length) }
{
    columns < job.first || columns - job.first < job.length
}

impl<'a> Recording<'a> {
    // 5, 7 or 8 of the first stretch that has one.
    fn judge_all(self, jobs: &[Job]) -> Result<(), Refusal>
        requires { Placed (length self.cdm.now) jobs.now }
        ensures { stopped result ≡ first_job (own_refusals self.entry.cdm.now self.entry.cds.now) 0 jobs.now }
    {
        for (i, job) in jobs.iter().enumerate() {
            if let Err(reason) = self.own_refusal(*job) {
                return Err(Refusal {
                    reason,
                    beside: Detail::OfJob(i),
                });
            }
        }
        Ok(())
    }

    // 5, 7 or 8 of a stretch. Judged further than its end first: where nothing is wrong there, nothing is in the stretch.
    fn own_refusal(self, job: Job) -> Result<(), Reason>
        requires { job.first + job.length ≤ length self.cdm.now }
        ensures { given result ≡ first (own_refusals self.entry.cdm.now self.entry.cds.now job) }
    {
        let first = job.first;
        let wide = widened(self.cdm.len(), first, first + job.length);
        if job.opening <= job.length
            && read::rows_refusal(
                &self.cdm[first..wide],
                &self.cds[first..wide],
                job.opening,
            ).is_ok()
        {
            return Ok(());
        }
        let part = self.stretch(job);
        read::rows_refusal(part.cdm, part.cds, job.opening)
    }

    // A job's part of it. That the job lies within the rows is asked in three places: a type that says so would hold rows and job once more.
    fn stretch(self, job: Job) -> Recording<'a>
        requires { job.first + job.length ≤ length self.cdm.now }
        ensures { (result.cdm.now ≡ stretch job self.entry.cdm.now) × (result.cds.now ≡ stretch job self.entry.cds.now) }
    {
        let end = job.first + job.length;
        Recording {
            cdm: &self.cdm[job.first..end],
            cds: &self.cds[job.first..end],
        }
    }

    // .. as the reader lets it through.
    fn opened(self, job: Job) -> Opened<'a>
        requires { (job.first + job.length ≤ length self.cdm.now) × Rows (stretch job self.cdm.now) (stretch job self.cds.now) job.opening }
        ensures { list_of result.opening result.cdm.now result.cds.now ≡ list_for self.entry.cdm.now self.entry.cds.now job }
    {
        let Recording { cdm, cds } = self.stretch(job);
        Opened {
            cdm,
            cds,
            opening: job.opening,
        }
    }

    // 9 for all lists together. No column gives two entries, so with room for as many as there are columns they are not counted.
    fn count_all(self, jobs: &[Job], room: usize) -> Result<(), Reason>
        requires { Good self.cdm.now self.cds.now jobs.now }
        ensures { given result ≡ first (room_refusals self.entry.cdm.now self.entry.cds.now jobs.now room) }
    {
        let mut left = room / ENTRY_BYTES;
        if room_for_columns(jobs, left) {
            return Ok(());
        }
        for job in jobs {
            let n = self.opened(*job).count();
            if left < n {
                return Err(Reason::NoRoom);
            }
            left -= n;
        }
        Ok(())
    }

    // Each list behind those before it, and its count; returns how many entries all have.
    fn write_all(self, jobs: &[Job], out: &mut [u8], counts: &mut [usize]) -> usize
        requires { Good self.cdm.now self.cds.now jobs.now × (length (lists_of self.cdm.now self.cds.now jobs.now) ≤ room_of out.old) × (length counts.old ≡ length jobs.now) }
        ensures { (result ≡ length (lists_of self.entry.cdm.now self.entry.cds.now jobs.now)) × (out.new ≡ kept_all out.old 0 (lists_of self.entry.cdm.now self.entry.cds.now jobs.now)) × (counts.new ≡ sets counts.old 0 (counts_of self.entry.cdm.now self.entry.cds.now jobs.now)) }
    {
        let mut made = 0;
        for (i, job) in jobs.iter().enumerate() {
            let end = self.opened(*job).scan(made, out);
            counts[i] = end - made;
            made = end;
        }
        made
    }
}

// Where a whole number of thirty-two bytes ends, if the rows go on so far: the vectorised test then has no rest to do byte by byte.
fn widened(columns: usize, first: usize, end: usize) -> usize
    requires { (first ≤ end) × (end ≤ columns) }
    ensures { (end ≤ result) × (result ≤ columns) }
{
    let more = (32 - (end - first) % 32) % 32;
    if columns - end < more {
        end
    } else {
        end + more
    }
}

// Whether as many entries have room as all stretches have columns.
fn room_for_columns(jobs: &[Job], room: usize) -> bool
    ensures { result ≡ leb (columns_of jobs.now) room }
{
    let mut left = room;
    for job in jobs {
        if left < job.length {
            return false;
        }
        left -= job.length;
    }
    true
}

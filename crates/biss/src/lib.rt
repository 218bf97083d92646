// The jobs, each returning one number: how many columns, bytes or entries were made, or 2 ^ 63 and the number of the refusal; for what is
// wrong with a text also its line, times 512, and its byte in that line, times 64; for what is wrong with a job of a table also 2 ^ 62 and
// the job, times 64. Beside them the channel place of a slave. biss_c exports them to C and Rust.
#![tactic(auto)]

ghost use Rattle.std.specs.Prelude.{◌≡◌};
ghost use Rattle.protocol.specs.Building.{Request};
ghost use Rattle.channels.specs.Channel.{channel_of};
ghost use Rattle.job.specs.Refusals.{refused, refusal_of, told};
ghost use Rattle.build.specs.Build.{Built};
ghost use Rattle.run.specs.Run.{Ran};
ghost use Rattle.read.specs.Read.{Listed};
ghost use Rattle.read_all.specs.ReadAll.{ListedAll};
ghost use Rattle.rows_text.specs.RowsText.{RowsPrinted, RowsTaken};
ghost use Rattle.list_text.specs.Lists.{ListPrinted};
ghost use Rattle.biss.specs.Coded.{code, channel_code, Coded};

use channels::SlaveId;
use job::{Detail, Refusal};
use read_all::Job;

// What a refusal's number stands on, 2 ^ 63: no count is as high.
const REFUSED: u64 = 1 << 63;

// What a refusal's line and byte are counted in: below them its number has room, and below a line its byte.
const ONE_LINE: u64 = 1 << 9;

const ONE_BYTE: u64 = 1 << 6;

// What a refusal of a job stands on, 2 ^ 63 + 2 ^ 62: no line is as high.
const JOB_REFUSED: u64 = REFUSED + (1 << 62);

// What its job is counted in: below it the number has room.
const ONE_JOB: u64 = 1 << 6;

// The highest line that has room, 2 ^ 53 - 1: a text of so many lines has 2 ^ 55 bytes.
const LAST_LINE: u64 = (1 << 53) - 1;

// The highest job that has room beside any number of a byte, 2 ^ 55 - 1: a table of so many jobs has 2 ^ 59 bytes.
const LAST_JOB: u64 = (1 << 55) - 1;

// The master row of a read of `count` registers of the slave `id`, whose waiting number is `wait`, from `address` on.
pub fn biss_build_read(id: u8, address: u8, count: usize, wait: u8, out: &mut [u8]) -> u64
    ensures { Coded result (λ o. Built (Request.read id address count wait) out.old o out.new) }
{
    coded(build::build_read(id, address, count, wait, out))
}

// The master row of a write of `bytes` to the registers of the slave `id`, whose waiting number is `wait`, from `address` on.
pub fn biss_build_write(id: u8, address: u8, bytes: &[u8], wait: u8, out: &mut [u8]) -> u64
    ensures { Coded result (λ o. Built (Request.write id address bytes.now wait) out.old o out.new) }
{
    coded(build::build_write(id, address, bytes, wait, out))
}

// The master row of a command up to its EX, which is sent as asked.
pub fn biss_build_command(ids: u8, cmd: u8, execute: bool, out: &mut [u8]) -> u64
    ensures { Coded result (λ o. Built (Request.command ids cmd execute) out.old o out.new) }
{
    coded(build::build_command(ids, cmd, execute, out))
}

// A chain of slaves over a master row from power-on.
pub fn biss_run(
    slaves: usize,
    banks: &[u8],
    rights: &[u8],
    waits: &[u8],
    registers: &mut [u8],
    counts: &mut [u32],
    cdm: &[u8],
    cds: &mut [u8],
) -> u64
    ensures { Coded result (λ o. Ran slaves banks.now rights.now waits.now registers.old counts.old cdm.now cds.old o registers.new counts.new cds.new) }
{
    coded(run::run(slaves, banks, rights, waits, registers, counts, cdm, cds))
}

// The entries that two recorded rows show, from an opening column on.
pub fn biss_read(cdm: &[u8], cds: &[u8], opening: usize, out: &mut [u8]) -> u64
    ensures { Coded result (λ o. Listed cdm.now cds.now opening out.old o out.new) }
{
    coded(read::read(cdm, cds, opening, out))
}

// The entries that many stretches of one recording show, job by job of a lent table.
pub fn biss_read_all(
    cdm: &[u8],
    cds: &[u8],
    jobs: &[Job],
    out: &mut [u8],
    counts: &mut [usize],
) -> u64
    ensures { Coded result (λ o. ListedAll cdm.now cds.now jobs.now out.old counts.old o out.new counts.new) }
{
    coded(read_all::read_all(cdm, cds, jobs, out, counts))
}

// Two rows as text.
pub fn biss_rows_to_text(cdm: &[u8], cds: &[u8], out: &mut [u8]) -> u64
    ensures { Coded result (λ o. RowsPrinted cdm.now cds.now out.old o out.new) }
{
    coded(rows_text::rows_to_text(cdm, cds, out))
}

// The two rows of a text.
pub fn biss_text_to_rows(text: &[u8], cdm: &mut [u8], cds: &mut [u8]) -> u64
    ensures { Coded result (λ o. RowsTaken text.now cdm.old cds.old o cdm.new cds.new) }
{
    coded(rows_text::text_to_rows(text, cdm, cds))
}

// A list of entries as text.
pub fn biss_list_to_text(list: &[u8], out: &mut [u8]) -> u64
    ensures { Coded result (λ o. ListPrinted list.now out.old o out.new) }
{
    coded(list_text::list_to_text(list, out))
}

// The place of a slave's process data in a chain of so many slaves.
pub fn biss_channel_of(id: u8, slaves: usize) -> u64
    ensures { result ≡ channel_code (channel_of (record { 0 = id }) slaves) }
{
    match channels::channel_of(SlaveId(id), slaves) {
        Ok(Some(place)) => place.0 as u64,
        Ok(None) => 0,
        Err(reason) => REFUSED + reason.number() as u64,
    }
}

fn coded(outcome: Result<usize, Refusal>) -> u64
    ensures { result ≡ code (told outcome) }
{
    match outcome {
        Ok(n) => n as u64,
        Err(refusal) => coded_refusal(refusal),
    }
}

fn coded_refusal(refusal: Refusal) -> u64
    ensures { result ≡ code (refused (refusal_of refusal)) }
{
    let number = refusal.reason.number() as u64;
    match refusal.beside {
        Detail::Alone => REFUSED + number,
        Detail::OnLine(line, byte) => {
            REFUSED + ONE_LINE * (line as u64).min(LAST_LINE) + ONE_BYTE * byte as u64 + number
        }
        Detail::OfJob(job) => JOB_REFUSED + ONE_JOB * (job as u64).min(LAST_JOB) + number,
    }
}

// The jobs as C calls them: each function of biss once more, exported under its own name with the same promise, since C links these names
// and Rust crates call those of biss. A slice crosses as a pointer and a length.
#![tactic(auto)]

ghost use Rattle.std.specs.Prelude.{◌≡◌};
ghost use Rattle.protocol.specs.Building.{Request};
ghost use Rattle.channels.specs.Channel.{channel_of};
ghost use Rattle.build.specs.Build.{Built};
ghost use Rattle.run.specs.Run.{Ran};
ghost use Rattle.read.specs.Read.{Listed};
ghost use Rattle.read_all.specs.ReadAll.{ListedAll};
ghost use Rattle.rows_text.specs.RowsText.{RowsPrinted, RowsTaken};
ghost use Rattle.list_text.specs.Lists.{ListPrinted};
ghost use Rattle.biss.specs.Coded.{channel_code, Coded};

use read_all::Job;

// The master row of a read of `count` registers of the slave `id`, whose waiting number is `wait`, from `address` on.
#[unsafe(no_mangle)]
pub extern "C" fn biss_build_read(
    id: u8,
    address: u8,
    count: usize,
    wait: u8,
    out: &mut [u8],
) -> u64
    ensures { Coded result (λ o. Built (Request.read id address count wait) out.old o out.new) }
{
    biss::biss_build_read(id, address, count, wait, out)
}

// The master row of a write of `bytes` to the registers of the slave `id`, whose waiting number is `wait`, from `address` on.
#[unsafe(no_mangle)]
pub extern "C" fn biss_build_write(
    id: u8,
    address: u8,
    bytes: &[u8],
    wait: u8,
    out: &mut [u8],
) -> u64
    ensures { Coded result (λ o. Built (Request.write id address bytes.now wait) out.old o out.new) }
{
    biss::biss_build_write(id, address, bytes, wait, out)
}

// The master row of a command up to its EX, which is sent as asked.
#[unsafe(no_mangle)]
pub extern "C" fn biss_build_command(ids: u8, cmd: u8, execute: bool, out: &mut [u8]) -> u64
    ensures { Coded result (λ o. Built (Request.command ids cmd execute) out.old o out.new) }
{
    biss::biss_build_command(ids, cmd, execute, out)
}

// A chain of slaves over a master row from power-on.
#[unsafe(no_mangle)]
pub extern "C" fn biss_run(
    slaves: usize,
    banks: &[u8],
    rights: &[u8],
    waits: &[u8],
    registers: &mut [u8],
    counts: &mut [u32],
    cdm: &[u8],
    cds: &mut [u8],
) -> u64
    ensures { Coded result (λ o. Ran slaves banks.now rights.now waits.now registers.old counts.old cdm.now cds.old o registers.new counts.new cds.new) }
{
    biss::biss_run(slaves, banks, rights, waits, registers, counts, cdm, cds)
}

// The entries that two recorded rows show, from an opening column on.
#[unsafe(no_mangle)]
pub extern "C" fn biss_read(cdm: &[u8], cds: &[u8], opening: usize, out: &mut [u8]) -> u64
    ensures { Coded result (λ o. Listed cdm.now cds.now opening out.old o out.new) }
{
    biss::biss_read(cdm, cds, opening, out)
}

// The entries that many stretches of one recording show, job by job of a lent table.
#[unsafe(no_mangle)]
pub extern "C" fn biss_read_all(
    cdm: &[u8],
    cds: &[u8],
    jobs: &[Job],
    out: &mut [u8],
    counts: &mut [usize],
) -> u64
    ensures { Coded result (λ o. ListedAll cdm.now cds.now jobs.now out.old counts.old o out.new counts.new) }
{
    biss::biss_read_all(cdm, cds, jobs, out, counts)
}

// Two rows as text.
#[unsafe(no_mangle)]
pub extern "C" fn biss_rows_to_text(cdm: &[u8], cds: &[u8], out: &mut [u8]) -> u64
    ensures { Coded result (λ o. RowsPrinted cdm.now cds.now out.old o out.new) }
{
    biss::biss_rows_to_text(cdm, cds, out)
}

// The two rows of a text.
#[unsafe(no_mangle)]
pub extern "C" fn biss_text_to_rows(text: &[u8], cdm: &mut [u8], cds: &mut [u8]) -> u64
    ensures { Coded result (λ o. RowsTaken text.now cdm.old cds.old o cdm.new cds.new) }
{
    biss::biss_text_to_rows(text, cdm, cds)
}

// A list of entries as text.
#[unsafe(no_mangle)]
pub extern "C" fn biss_list_to_text(list: &[u8], out: &mut [u8]) -> u64
    ensures { Coded result (λ o. ListPrinted list.now out.old o out.new) }
{
    biss::biss_list_to_text(list, out)
}

// The place of a slave's process data in a chain of so many slaves.
#[unsafe(no_mangle)]
pub extern "C" fn biss_channel_of(id: u8, slaves: usize) -> u64
    ensures { result ≡ channel_code (channel_of (record { 0 = id }) slaves) }
{
    biss::biss_channel_of(id, slaves)
}

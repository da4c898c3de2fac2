// The exported calls, as include/sweep.h declares them. C sees a slice as a pointer and a length. None asks anything of its
// arguments; each contract is one equation for the number, the counts and every byte of tables, pages, read buffer,
// registers and spare page.
#![tactic(auto)]

ghost use Rattle.std.specs.Prelude.{not, [], ◌≡◌, eqb};
ghost use Rattle.rules.specs.Numbers;
ghost use Rattle.tables.specs.Calls.{call_on};
ghost use Rattle.tables.specs.Checks.{check_blocks_on, check_on};
ghost use Rattle.tables.specs.Convert.{convert_on};
ghost use Rattle.tables.specs.Panel.{panel_line_on, panel_read_on, panel_reset_on, panel_write_on};
ghost use Rattle.tables.specs.Terms.{current_on, set_term_on};
ghost use Rattle.calls.specs.Outcomes.{outcome};
ghost use Rattle.compaction.specs.Call.{compact_on, free_in};
ghost use Rattle.panel.specs.Outcomes.{panel_outcome};

use calls::answer::Answer;
use dates::Date;

#[unsafe(no_mangle)]
pub extern "C" fn sweep_format(tables: &mut [u8], pages: &mut [u8]) -> Answer
    ensures { outcome result tables.new pages.new [] ≡ call_on Numbers.format tables.old pages.old }
{
    calls::format::format(tables, pages)
}

#[unsafe(no_mangle)]
pub extern "C" fn sweep_create(tables: &mut [u8], pages: &mut [u8], set: u32, file: u32) -> Answer
    ensures { outcome result tables.new pages.new [] ≡ call_on (Numbers.create set file) tables.old pages.old }
{
    calls::records::create(tables, &*pages, set, file)
}

// By groups of eight pages.
#[unsafe(no_mangle)]
pub extern "C" fn sweep_write(
    tables: &mut [u8],
    pages: &mut [u8],
    set: u32,
    file: u32,
    offset: u32,
    data: &[u8],
) -> Answer
    ensures { outcome result tables.new pages.new [] ≡ call_on (Numbers.grouped_write set file offset «data».now) tables.old pages.old }
{
    calls::changes::write(tables, pages, 8, set, file, offset, data)
}

// By the pages that hold its bytes alone.
#[unsafe(no_mangle)]
pub extern "C" fn sweep_write_narrow(
    tables: &mut [u8],
    pages: &mut [u8],
    set: u32,
    file: u32,
    offset: u32,
    data: &[u8],
) -> Answer
    ensures { outcome result tables.new pages.new [] ≡ call_on (Numbers.narrow_write set file offset «data».now) tables.old pages.old }
{
    calls::changes::write(tables, pages, 1, set, file, offset, data)
}

#[unsafe(no_mangle)]
pub extern "C" fn sweep_read(
    tables: &[u8],
    pages: &[u8],
    set: u32,
    file: u32,
    offset: u32,
    buffer: &mut [u8],
) -> Answer
    ensures { outcome result tables.now pages.now buffer.new ≡ call_on (Numbers.read set file offset buffer.old) tables.now pages.now }
{
    calls::looks::read(tables, pages, set, file, offset, buffer)
}

#[unsafe(no_mangle)]
pub extern "C" fn sweep_truncate(
    tables: &mut [u8],
    pages: &mut [u8],
    set: u32,
    file: u32,
    size: u32,
) -> Answer
    ensures { outcome result tables.new pages.new [] ≡ call_on (Numbers.truncate set file size) tables.old pages.old }
{
    calls::changes::truncate(tables, pages, set, file, size)
}

#[unsafe(no_mangle)]
pub extern "C" fn sweep_delete(tables: &mut [u8], pages: &mut [u8], set: u32, file: u32) -> Answer
    ensures { outcome result tables.new pages.new [] ≡ call_on (Numbers.delete set file) tables.old pages.old }
{
    calls::changes::delete(tables, pages, set, file)
}

// `writeable` 0 asks for a read-only set, any other value for a writeable one.
#[unsafe(no_mangle)]
pub extern "C" fn sweep_make(
    tables: &mut [u8],
    pages: &mut [u8],
    parent: u32,
    set: u32,
    writeable: u32,
) -> Answer
    ensures { outcome result tables.new pages.new [] ≡ call_on (Numbers.make parent set (not (eqb writeable 0))) tables.old pages.old }
{
    calls::records::make(tables, &*pages, parent, set, writeable != 0)
}

#[unsafe(no_mangle)]
pub extern "C" fn sweep_remove(tables: &mut [u8], pages: &mut [u8], set: u32) -> Answer
    ensures { outcome result tables.new pages.new [] ≡ call_on (Numbers.remove set) tables.old pages.old }
{
    calls::records::remove(tables, &*pages, set)
}

#[unsafe(no_mangle)]
pub extern "C" fn sweep_size(tables: &[u8], pages: &[u8], set: u32, file: u32) -> Answer
    ensures { outcome result tables.now pages.now [] ≡ call_on (Numbers.tell_size set file) tables.now pages.now }
{
    calls::looks::size(tables, pages, set, file)
}

#[unsafe(no_mangle)]
pub extern "C" fn sweep_free(tables: &[u8], pages: &[u8]) -> Answer
    ensures { outcome result tables.now pages.now [] ≡ call_on Numbers.tell_free tables.now pages.now }
{
    calls::looks::free(tables, pages)
}

// The first part of the well-formed check: the tables alone.
#[unsafe(no_mangle)]
pub extern "C" fn sweep_check_blocks(tables: &[u8]) -> Answer
    ensures { outcome result tables.now [] [] ≡ check_blocks_on tables.now }
{
    calls::checks::check_blocks(tables)
}

// The whole check.
#[unsafe(no_mangle)]
pub extern "C" fn sweep_check(tables: &[u8], pages: &[u8]) -> Answer
    ensures { outcome result tables.now pages.now [] ≡ check_on tables.now pages.now }
{
    calls::checks::check(tables, pages)
}

// The register page of the front panel: sixteen bytes, which only these four calls write from a reset on.
#[unsafe(no_mangle)]
pub extern "C" fn sweep_panel_reset(registers: &mut [u8]) -> Answer
    ensures { panel_outcome result registers.new [] [] ≡ panel_reset_on registers.old }
{
    panel::reset(registers)
}

#[unsafe(no_mangle)]
pub extern "C" fn sweep_panel_read(registers: &[u8], offset: u32) -> Answer
    ensures { panel_outcome result registers.now [] [] ≡ panel_read_on offset registers.now }
{
    panel::read(registers, offset)
}

#[unsafe(no_mangle)]
pub extern "C" fn sweep_panel_write(
    registers: &mut [u8],
    tables: &mut [u8],
    pages: &mut [u8],
    offset: u32,
    value: u8,
) -> Answer
    ensures { panel_outcome result registers.new tables.new pages.new ≡ panel_write_on call_on offset value registers.old tables.old pages.old }
{
    panel::write(registers, tables, pages, offset, value)
}

#[unsafe(no_mangle)]
pub extern "C" fn sweep_panel_line(registers: &[u8]) -> Answer
    ensures { panel_outcome result registers.now [] [] ≡ panel_line_on registers.now }
{
    panel::line(registers)
}

// Reference terms: a set's term from a date and a count of months, and whether a set is current on a day.
#[unsafe(no_mangle)]
pub extern "C" fn sweep_set_term(
    tables: &mut [u8],
    pages: &mut [u8],
    set: u32,
    year: u32,
    month: u32,
    day: u32,
    months: u32,
) -> Answer
    ensures { outcome result tables.new pages.new [] ≡ set_term_on set year month day months tables.old pages.old }
{
    let date = Date { year, month, day };
    calls::terms::set_term(tables, &*pages, set, date, months)
}

#[unsafe(no_mangle)]
pub extern "C" fn sweep_current(tables: &[u8], pages: &[u8], set: u32, day: u32) -> Answer
    ensures { outcome result tables.now pages.now [] ≡ current_on set day tables.now pages.now }
{
    calls::terms::current(tables, pages, set, day)
}

// Older tables, of either length, converted into a second buffer, marked files cleared; older tables and pages are only read.
#[unsafe(no_mangle)]
pub extern "C" fn sweep_convert(old: &[u8], pages: &[u8], tables: &mut [u8]) -> Answer
    ensures { outcome result tables.new pages.now [] ≡ convert_on old.now pages.now tables.old }
{
    calls::convert::convert(old, pages, tables)
}

// Blocks pulled together, through a spare page. Every byte of the tables and of the pages in used blocks is fixed; what the
// free pages and the spare page hold afterwards is named as free.
#[unsafe(no_mangle)]
pub extern "C" fn sweep_compact(tables: &mut [u8], pages: &mut [u8], spare: &mut [u8]) -> Answer
    ensures { outcome result tables.new pages.new spare.new ≡ compact_on spare.old (free_in pages.new spare.new) tables.old pages.old }
{
    calls::compact::compact(tables, pages, spare)
}

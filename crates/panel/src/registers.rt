// The registers by offset: reset, read, written; what the line asks of them.
ghost use Rattle.std.specs.Prelude.{◌≡◌, ◌<◌, length};
ghost use Rattle.tables.specs.Panel;
ghost use Rattle.tables.specs.Panel.{entered, line_of, no_register, register_count, reset_values, value_read};

use crate::table::{CAUSE, COMMAND, REGISTERS, RESET, reset_of, writable_of};

// "an offset over 15, or registers of another length"
pub fn no_register(r: &[u8], offset: u32) -> bool
    ensures { result ≡ no_register offset r.now }
{
    if r.len() != REGISTERS {
        return true;
    }
    offset > 15
}

// Every register gets its reset value.
#[tactic(auto, unfolding(tables::specs::Panel::reset_values))]
pub fn reset_all(r: &mut [u8])
    requires { length r.old ≡ register_count }
    ensures { r.new ≡ reset_values }
{
    r.copy_from_slice(&RESET);
}

// The command register reads by the table, every other as what it holds.
pub fn value_read(r: &[u8], offset: usize) -> u32
    requires { (length r.now ≡ register_count) × (offset < register_count) }
    ensures { result ≡ value_read offset r.now }
{
    if offset == COMMAND {
        return u32::from(reset_of(offset));
    }
    u32::from(r[offset])
}

// The value of a register after a write: its writable bits alone change, and ones clear those of the cause.
fn written(offset: usize, old: u8, value: u8) -> u8
    requires { offset < register_count }
    ensures { result ≡ Panel.written offset old value }
{
    let mask = writable_of(offset);
    if offset == CAUSE {
        return old & !(value & mask);
    }
    old & !mask | value & mask
}

// A value entered in a register, by its writable bits.
pub fn enter(r: &mut [u8], offset: usize, value: u8)
    requires { (length r.old ≡ register_count) × (offset < register_count) }
    ensures { r.new ≡ entered offset value r.old }
{
    r[offset] = written(offset, r[offset], value);
}

// "exactly when cause and mask share a one"
#[tactic(auto, unfolding(tables::specs::Panel::line_of))]
pub fn line_of(cause: u8, mask: u8) -> u32
    ensures { result ≡ line_of cause mask }
{
    u32::from(cause & mask != 0)
}

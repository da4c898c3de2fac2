// The registers by offset, and their table.
ghost use Rattle.std.specs.Prelude.{◌≡◌, ◌<◌, get_or};
ghost use Rattle.tables.specs.Panel.{register_count, reset_values, writable_bits};

// "Offset 0 is the command", "1 is the number that the last command run returned, 2 the cause, 3 the interrupt mask, 4 set,
// 5 file, 6 other, 7 to 9 that command's three counts, 10 to 15 zero."
pub const COMMAND: usize = 0;

pub const NUMBER: usize = 1;

pub const CAUSE: usize = 2;

pub const MASK: usize = 3;

pub const SET: usize = 4;

pub const FILE: usize = 5;

pub const OTHER: usize = 6;

pub const FIRST: usize = 7;

pub const SECOND: usize = 8;

pub const THIRD: usize = 9;

pub const REGISTERS: usize = 16;

// "A table gives each register's reset value and its writable bits." Those of the cause are the bits that ones clear; of what
// is written to the command register nothing is kept.
pub const RESET: [u8; 16] = [0, 0, 0, 0, 0, 0, 0, 0, 0, 0, 0, 0, 0, 0, 0, 0];

const WRITABLE: [u8; 16] = [0, 0, 7, 255, 255, 255, 255, 0, 0, 0, 0, 0, 0, 0, 0, 0];

pub fn reset_of(offset: usize) -> u8
    requires { offset < register_count }
    ensures { result ≡ get_or reset_values offset 0 }
{
    RESET[offset]
}

pub fn writable_of(offset: usize) -> u8
    requires { offset < register_count }
    ensures { result ≡ get_or writable_bits offset 0 }
{
    WRITABLE[offset]
}

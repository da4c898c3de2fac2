// Format.
ghost use Rattle.std.specs.Prelude.{◌≡◌, ◌<◌, ◌≤◌, length};
ghost use Rattle.rules.specs.Calls.{blank_memory, formatted, tables_of};
ghost use Rattle.rules.specs.Storage.{real};
ghost use Rattle.tables.specs.Layout.{table_bytes};
ghost use Rattle.tables.specs.Packed.{pack};
ghost use Rattle.tables.specs.Views.{PackedTables, Turns};
ghost use Rattle.setchanges.specs.Changes.{put_header_in};

use dates::Days;
use packing::words;
use tables::places::TABLE_BYTES;
use tables::sets;
use tables::sets::SetRecord;

// The header: B, and next start 0.
fn put_blocks(t: &mut [u8], blocks: usize)
    requires { PackedTables t.old × (blocks < 8192) }
    ensures { Turns t.old t.new (put_header_in blocks 0) }
{
    words::write::<4>(t, 0, (blocks * 524288) as u64);
}

// "Format makes set 0 alone": every other byte is zero. "Format and making a set give 0 and 36,525."
pub fn format_tables(t: &mut [u8], blocks: usize)
    requires { (length t.old ≡ table_bytes) × (blocks ≤ 4096) }
    ensures { t.new ≡ pack (tables_of (formatted real (blank_memory blocks))) }
{
    pages::zero_bytes(t, 0, TABLE_BYTES);
    put_blocks(t, blocks);
    sets::put_set(
        t,
        0,
        SetRecord {
            used: true,
            writeable: true,
            level: 0,
            parent: 8,
            first_child: 8,
            next_sibling: 8,
            term: Days {
                first_day: 0,
                end_day: sets::END_DAY,
            },
        },
    );
}

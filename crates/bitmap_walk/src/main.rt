// A walk through a map of bits: 13 blocks, whose map begins at byte 4 of a buffer. Each line says what was found; where a
// write fails the walk goes on.
#![tactic(auto)]

ghost use Rattle.std.specs.Prelude.{IfSome, ◌<◌, ◌≤◌, length};

use packing::bitmap;

const AT: usize = 4;

const BLOCKS: usize = 13;

fn main(rt: HostRuntime) {
    let mut t = [0u8; 12];
    walk(&rt, &mut t);
}

// Takes every block, from one near the end on and round it; frees two; takes one again, round the end.
fn walk(rt: &impl Print, t: &mut [u8])
    requires { 12 ≤ length t.old }
{
    take_all(rt, t, 11);
    print_count(rt, t);
    bitmap::clear_bit(t, AT, 3);
    bitmap::clear_bit(t, AT, 9);
    print_count(rt, t);
    take(rt, t, 10);
    print_bytes(rt, t);
}

// Takes blocks until none is free: a turn for each block, and one that finds none.
fn take_all(rt: &impl Print, t: &mut [u8], first: usize)
    requires { (12 ≤ length t.old) × (first < 13) }
{
    let mut start = first;
    for _ in 0..=BLOCKS {
        let Some(b) = take(rt, t, start) else {
            return;
        };
        start = b;
    }
}

// Takes the first free block from start on, and answers it.
#[tactic(auto, using(packing::specs::FirstFree::found_free))]
fn take(rt: &impl Print, t: &mut [u8], start: usize) -> Option<usize>
    requires { (12 ≤ length t.old) × (start < 13) }
    ensures { IfSome result (λ b. b < 13) }
{
    let Some(b) = bitmap::first_free(t, AT, start, BLOCKS) else {
        let _ = println!(rt; "none");
        return None;
    };
    bitmap::set_bit(t, AT, b);
    print(rt, "found", b as u64);
    Some(b)
}

fn print_count(rt: &impl Print, t: &[u8])
    requires { 12 ≤ length t.now }
{
    print(rt, "count", bitmap::count_set(t, AT, 1) as u64);
}

fn print(rt: &impl Print, what: &str, n: u64) {
    let _ = println!(rt; "{what} {n}");
}

fn print_bytes(rt: &impl Print, t: &[u8]) {
    let _ = print!(rt; "bytes");
    for x in t {
        print_byte(rt, *x);
    }
    let _ = println!(rt);
}

fn print_byte(rt: &impl Print, x: u8) {
    let _ = print!(rt; " {x:02x}");
}

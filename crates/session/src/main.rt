// The session program: it formats 64 blocks, makes the 8-byte calls that standard input holds, a line for each, then lists
// the store. It only reads, prints and hands over: no rule of the store stands here, and no line.
#![tactic(auto)]

ghost use Rattle.std.specs.Prelude.{◌≡◌, ◌≤◌, length};
ghost use Rattle.tables.specs.Layout.{table_bytes};

use listing::store;
use std::io;
use std::io::{Read, Write};
use std::ops::ControlFlow;
use tables::places::TABLE_BYTES;
use turns::turn::take_turn;

// Reads until the buffer is full, the input ends or a read fails, and answers how many bytes it put at the buffer's front. It
// stays a loop: the library's `read_exact` does not tell how many bytes came.
fn read_full(input: &mut impl Read, buffer: &mut [u8]) -> usize
    ensures { result ≤ length buffer.new }
{
    let mut done = 0;
    while done < buffer.len() {
        let n = input.read(&mut buffer[done..]).unwrap_or(0);
        if n == 0 {
            break;
        }
        done += n;
    }
    done
}

// One call: reads that come in pieces are joined. Whether reading goes on, unless the line could not be written.
fn turn(
    input: &mut impl Read,
    output: &mut impl Write,
    t: &mut [u8],
    p: &mut [u8],
    count: usize,
) -> io::Result<ControlFlow<usize, usize>> {
    let mut bytes = [0u8; 8];
    let n = read_full(input, &mut bytes);
    let mut text = [0u8; 160];
    let told = take_turn(t, p, &bytes[..n], count, &mut text);
    let size = match told {
        ControlFlow::Continue(size) | ControlFlow::Break(size) => size,
    };
    output.write_all(&text[..size])?;
    Ok(told)
}

// All calls, on the tables and pages of a store of 64 blocks, until reading ends or a line could not be written.
fn make_calls(
    input: &mut impl Read,
    output: &mut impl Write,
    t: &mut [u8],
    p: &mut [u8],
) -> io::Result<()>
    requires { (length t.old ≡ table_bytes) × (length p.old ≡ 32768) }
{
    for count in 1..usize::MAX {
        if turn(input, output, t, p, count)?.is_break() {
            break;
        }
    }
    Ok(())
}

// The listing, in a buffer with room for any: none is longer than 137,056 bytes.
fn print_listing(output: &mut impl Write, t: &[u8], n: usize) {
    let mut text = [0; 139264];
    print_by(output, t, n, &mut text);
}

// The same, by way of that buffer.
fn print_by(output: &mut impl Write, t: &[u8], n: usize, text: &mut [u8])
    requires { length text.old ≡ 139264 }
{
    if let Ok(m) = store::list_store(t, n, text) {
        let _ = output.write_all(&text[..m]);
    }
}

fn main(rt: HostRuntime) {
    let mut t = [0; TABLE_BYTES];
    // "It formats 64 blocks"
    let mut p = [0; 32768];
    calls::format::format(&mut t, &mut p);
    let mut output = rt.stdout();
    if make_calls(&mut rt.stdin(), &mut output, &mut t, &mut p).is_ok() {
        print_listing(&mut output, &t, 32768);
    }
}

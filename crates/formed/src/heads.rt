// The head of one file record: the rules that concern no other file, and what the other rules need of it.
ghost use Rattle.std.specs.Prelude.{◌≡◌, ◌&&◌, cond, not, ◌*◌, ◌+◌, ◌/◌, ◌<◌, eqb, get_or, length};
ghost use Rattle.std.specs.Int.Bits.{bit_or};
ghost use Rattle.packing.specs.Words.{get_word};
ghost use Rattle.rules.specs.State.{live};
ghost use Rattle.tables.specs.Layout.{all_files_bytes, file_bytes, read_size, state_of};
ghost use Rattle.formed.specs.Files.{end_of, turned};
ghost use Rattle.formed.specs.Heads.{HeadPassed};

use crate::alone::head_formed;
use packing::words;
use tables::places::FILE_BYTES;

// The digit of a set, if the head w is that of an own or virgin file.
// The state stays a number: a State made of it would be matched at once, which is no plainer.
fn live_digit(w: u32, digit: u64) -> u64
    ensures { result ≡ cond (live (state_of (w / 1073741824))) digit 0 }
{
    match w / 1073741824 {
        1 | 2 => digit,
        _ => 0,
    }
}

// The first page wholly past the size of an own file, whose head is w; 64 of any other file.
fn end_of(w: u32) -> usize
    ensures { result ≡ end_of (state_of (w / 1073741824)) (read_size w) }
{
    if w / 1073741824 != 1 {
        return 64;
    }
    ((w / 16384 % 65536) as usize + 511) / 512
}

// The head whose first byte is the least significant of v.
fn head_of(v: u64) -> u32
    ensures { result ≡ turned v }
{
    let x = (v % 4294967296) as u32;
    x % 256 * 16777216 + x / 256 % 256 * 65536 + x / 65536 % 256 * 256 + x / 16777216
}

// A virgin file of set s, of size 0.
fn pass_virgin(lives: &mut u64, s: usize, digit: u64, u: u64) -> bool
    ensures { (result ≡ (not (eqb digit 0) && (eqb u 18446744073709551615 && not (eqb s 0)))) × (lives.new ≡ bit_or lives.old digit) }
{
    *lives |= digit;
    digit != 0 && u == 0xFFFF_FFFF_FFFF_FFFF && s != 0
}

// The head of file f of set s, which has the digit given and the unmapped pages u. The file's end is kept, and whether it
// is own or virgin; `ends` has 64 already, the end of an absent file and of a virgin one of size 0. The head is read with
// the first two entries, the first byte the least significant. In older tables a marked file may keep its record.
pub fn pass_head(
    files: &[u8],
    ends: &mut [usize; 8],
    lives: &mut u64,
    f: usize,
    s: usize,
    digit: u64,
    u: u64,
    older: bool,
) -> bool
    requires { (length files.now ≡ all_files_bytes) × (get_or ends.old s 0 ≡ 64) × (f < 16) × (s < 8) }
    ensures { HeadPassed older (get_word 3 files.now ((s * 16 + f) * file_bytes)) u s digit ends.old ends.new lives.old lives.new result }
{
    let v = words::low::<8>(files, (s * 16 + f) * FILE_BYTES);
    if v == 0 {
        return u == 0xFFFF_FFFF_FFFF_FFFF;
    }
    if v == 128 {
        return pass_virgin(lives, s, digit, u);
    }
    let w = head_of(v);
    ends[s] = end_of(w);
    *lives |= live_digit(w, digit);
    head_formed(w, u, digit != 0, s == 0, older)
}

// The 8-byte calls of a session.
ghost use Rattle.std.specs.Prelude.{◌≡◌, ◌<◌, ◌≤◌, replicate, cond, [], ◌∷◌};
ghost use Rattle.rules.specs.Numbers;
ghost use Rattle.decoding.specs.Decoding.{FieldsFit, all_zero, call_fields, fields_meant, op_of, request, request_fits, request_meant, request_of, unless};

use packing::words;

// A call that a session can ask for.
#[derive(Clone, Copy)]
pub enum Asked {
    Create {
        set: u32,
        file: u32,
    },
    Write {
        set: u32,
        file: u32,
        offset: u32,
        length: usize,
        fill: u8,
    },
    Truncate {
        set: u32,
        file: u32,
        size: u32,
    },
    Delete {
        set: u32,
        file: u32,
    },
    Make {
        parent: u32,
        set: u32,
        writeable: bool,
    },
    Remove {
        set: u32,
    },
}

impl Asked {
    // The op of a call.
    pub fn op(self) -> u32
        ensures { result ≡ op_of self }
    {
        match self {
            Asked::Create { .. } => 1,
            Asked::Write { .. } => 2,
            Asked::Truncate { .. } => 3,
            Asked::Delete { .. } => 4,
            Asked::Make { writeable, .. } => { if writeable { 6 } else { 5 } }
            Asked::Remove { .. } => 7,
        }
    }
}

// "a length over 4,096" is bad
const LONGEST: u32 = 4096;

// "op 4 bits, set 4, file 4, other 4, offset 16, length 16, fill 8, zero 8"
#[derive(Clone, Copy)]
struct Fields {
    op: u32,
    set: u32,
    file: u32,
    other: u32,
    offset: u32,
    length: u32,
    fill: u32,
    zero: u32,
}

fn fields_of(w: u64) -> Fields
    ensures { (fields_meant result ≡ call_fields w) × FieldsFit result }
{
    let a = w % 0x1000_0000_0000_0000;
    let b = a % 0x0100_0000_0000_0000;
    let c = b % 0x0010_0000_0000_0000;
    let d = c % 0x0001_0000_0000_0000;
    let e = d % 0x0000_0001_0000_0000;
    let f = e % 0x0000_0000_0001_0000;
    Fields {
        op: (w / 0x1000_0000_0000_0000) as u32,
        set: (a / 0x0100_0000_0000_0000) as u32,
        file: (b / 0x0010_0000_0000_0000) as u32,
        other: (c / 0x0001_0000_0000_0000) as u32,
        offset: (d / 0x0000_0001_0000_0000) as u32,
        length: (e / 0x0000_0000_0001_0000) as u32,
        fill: (f / 256) as u32,
        zero: (f % 256) as u32,
    }
}

// Are all of some fields zero?
fn are_zero(fields: &[u32]) -> bool
    ensures { result ≡ all_zero fields.now }
{
    fields.iter().all(|x| *x == 0)
}

// Op 1.
fn decode_create(x: Fields) -> Option<Asked>
    ensures { (request_meant result ≡ unless (x.other ∷ x.offset ∷ x.length ∷ x.fill ∷ x.zero ∷ []) 1 (Numbers.create x.set x.file)) × request_fits result }
{
    are_zero(&[x.other, x.offset, x.length, x.fill, x.zero]).then_some(Asked::Create {
        set: x.set,
        file: x.file,
    })
}

// Op 4. The variant is all that differs from op 1; a function for both would be given each of the two whole.
fn decode_delete(x: Fields) -> Option<Asked>
    ensures { (request_meant result ≡ unless (x.other ∷ x.offset ∷ x.length ∷ x.fill ∷ x.zero ∷ []) 4 (Numbers.delete x.set x.file)) × request_fits result }
{
    are_zero(&[x.other, x.offset, x.length, x.fill, x.zero]).then_some(Asked::Delete {
        set: x.set,
        file: x.file,
    })
}

// Ops 5 and 6.
fn decode_make(x: Fields, writeable: bool) -> Option<Asked>
    ensures { (request_meant result ≡ unless (x.file ∷ x.offset ∷ x.length ∷ x.fill ∷ x.zero ∷ []) (cond writeable 6 5) (Numbers.make x.set x.other writeable)) × request_fits result }
{
    are_zero(&[x.file, x.offset, x.length, x.fill, x.zero]).then_some(Asked::Make {
        parent: x.set,
        set: x.other,
        writeable,
    })
}

// Op 2.
fn decode_write(x: Fields) -> Option<Asked>
    requires { (x.length ≤ 4096) × (x.fill < 256) }
    ensures { (request_meant result ≡ unless (x.other ∷ x.zero ∷ []) 2 (Numbers.narrow_write x.set x.file x.offset (replicate x.length x.fill))) × request_fits result }
{
    are_zero(&[x.other, x.zero]).then_some(Asked::Write {
        set: x.set,
        file: x.file,
        offset: x.offset,
        length: x.length as usize,
        fill: x.fill as u8,
    })
}

// Op 3.
fn decode_truncate(x: Fields) -> Option<Asked>
    ensures { (request_meant result ≡ unless (x.other ∷ x.length ∷ x.fill ∷ x.zero ∷ []) 3 (Numbers.truncate x.set x.file x.offset)) × request_fits result }
{
    are_zero(&[x.other, x.length, x.fill, x.zero]).then_some(Asked::Truncate {
        set: x.set,
        file: x.file,
        size: x.offset,
    })
}

// Op 7.
fn decode_remove(x: Fields) -> Option<Asked>
    ensures { (request_meant result ≡ unless (x.file ∷ x.other ∷ x.offset ∷ x.length ∷ x.fill ∷ x.zero ∷ []) 7 (Numbers.remove x.set)) × request_fits result }
{
    are_zero(&[x.file, x.other, x.offset, x.length, x.fill, x.zero]).then_some(Asked::Remove {
        set: x.set,
    })
}

// What the fields ask for, each op in its own way.
fn of_fields(x: Fields) -> Option<Asked>
    requires { FieldsFit x }
    ensures { (request_meant result ≡ request_of (fields_meant x)) × request_fits result }
{
    if x.length > LONGEST {
        return None;
    }
    match x.op {
        1 => decode_create(x),
        2 => decode_write(x),
        3 => decode_truncate(x),
        4 => decode_delete(x),
        5 => decode_make(x, false),
        6 => decode_make(x, true),
        7 => decode_remove(x),
        _ => None,
    }
}

// What bytes ask for; none where they are bad.
pub fn decode(b: &[u8]) -> Option<Asked>
    ensures { (request_meant result ≡ request b.now) × request_fits result }
{
    if b.len() != 8 {
        return None;
    }
    of_fields(fields_of(words::read::<8>(b, 0)))
}
